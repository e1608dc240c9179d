//! The registry: a manager, and the node of each row that has one.

ghost use Rattle.std.specs.Prelude.{◌≡◌, ℕ, [], IfErr, IfOk, None, false, length, true};
ghost use Rattle.gl_modes.specs.declared.node.NodeId.{NodeId as ANode};
ghost use Rattle.gl_modes.specs.declared.refusal.Refusal.{Refusal as ARefusal};
ghost use Rattle.gl_catalog.specs.Manager.{IsLawfulManager, state_of};
ghost use Rattle.gl_rows.specs.declared.row.Row.{Row as ARow};
ghost use Rattle.gl_graph.specs.Graph.{first_parent};
ghost use Rattle.gl_graph.specs.View.{graph_of};
ghost use Rattle.gl_rows.specs.Applying.{AppliesCall, AppliesRow, CarriesOut, answer_in, naming, own_command};
ghost use Rattle.gl_rows.specs.Names.{NameWell, NamesHold};
ghost use Rattle.gl_rows.specs.Releasing.{CommitsAndKeeps, GoesBackTo};
ghost use Rattle.gl_slots.specs.Slots.{HasNoSlot};
ghost use Rattle.gl_rows.specs.Rows.{has_asked, has_rows, name_of};
ghost use Rattle.gl_rows.specs.Serving.{PathLeavesRows, ServesBy, touches_rows};

use crate::answer::{RowAnswer, done_row, lock_answer};
use crate::call::RowCall;
use crate::row::Row;
use crate::rows::Rows;
use gl_catalog::replies::node_answer;
use gl_catalog::{Answer, Command, Manager, Reached};
use gl_graph::Graph;
use gl_modes::{Mode, NodeId, Refusal};
use gl_table::{Told, TxnId};
use std::alloc::Global;
use std::marker::Model;

/// A manager with files of rows, whose records are made, removed and rekeyed by the calls about rows
/// alone.
///
/// A row gets its node from the call that locks it. It loses the node by a later command that releases
/// locks, if nobody holds the node or waits for it any more, also if its last holder locked it by the
/// node. The registry owns the manager, lends it
/// for reading and serves every command. So each row's node is a living record of the row's file, no
/// two rows have the same node, and each record of a file of rows is the node of one of its rows.
#[derive(Drop)]
pub struct Registry {
    manager: Manager,
    rows: Rows,
}

impl Model for Registry {
    ghost use Rattle.gl_rows.specs.Rows.{RegistryView};

    ghost Value = { RegistryView };

    ghost use Rattle.gl_rows.specs.Owned.{registry_of, IsNamedWell};

    ghost view = { registry_of };

    ghost invariant = { IsNamedWell };
}

impl Registry {
    /// A registry over this manager, without files of rows. The only refusal is `NoMemory`.
    pub fn new(alloc: Global, manager: Manager) -> Result<Self, Refusal>
        ensures manager { IfOk result (λ registry. registry.manager ≡ manager) }
        ensures fileless { IfOk result (λ registry. (file : ANode) → has_rows registry.rows file ≡ false) }
        ensures unnamed { IfOk result (λ registry. (row : ARow) → name_of registry.rows row ≡ None) }
        ensures unasked { IfOk result (λ registry. (slot : ℕ) (row : ARow) → has_asked registry.rows slot row ≡ false) }
        ensures none_left { IfOk result (λ registry. HasNoSlot registry.rows.left) }
        ensures refused { IfErr result (λ refusal. refusal ≡ ARefusal.NoMemory) }
    {
        let rows = Rows::new(alloc)?;
        Ok(Registry { manager, rows })
    }

    /// The law of every registry, whatever it has served.
    pub fn law(&self)
        ensures names { NamesHold self.now.rows (state_of self.now.manager).graph }
        ensures manager { IsLawfulManager self.now.manager }
    {
        self.manager.law();
        let _ = &self.rows;
    }

    /// The manager, for reading.
    pub fn manager(&self) -> &Manager
        ensures { result.now ≡ self.now.manager }
    {
        &self.manager
    }

    /// Whether the node is a file of rows.
    pub fn has_rows(&self, file: NodeId) -> bool
        ensures { result ≡ has_rows self.now.rows file }
    {
        self.rows.has(file)
    }

    /// The row's node; `None` if it has none.
    pub fn node(&self, row: Row) -> Option<NodeId>
        ensures { result ≡ name_of self.now.rows row }
    {
        self.rows.node(row)
    }

    /// How many rows have a node.
    pub fn len(&self) -> usize
        ensures { result ≡ length self.now.rows.names }
    {
        self.rows.len()
    }

    /// Carries out one command, and answers as `Manager::apply_telling`. Answers `None` and changes
    /// nothing if the command would make, remove or rekey a record of a file of rows by its node, even
    /// if other refusals apply. A dropped file is no file of rows any more. After a commit, an abort, a
    /// cancel and an escalation, rows that the transaction asked for and that nobody holds or waits for
    /// any more lose their nodes; so do rows left by earlier ones, also after an unlock. `told` must be
    /// empty, and receives the notices.
    #[inline(always)]
    pub fn serve(&mut self, command: Command<'_>, told: &mut Told) -> Option<Answer>
        requires empty { told.old.items ≡ [] }
        ensures { ServesBy (touches_rows self.old command.entry) self.old command.entry result told.new.items self.new }
    {
        if self.touches_rows(&command) {
            return None;
        }
        self.manager.law();
        let answer = self.manager.apply_telling(command, told);
        self.rows.tidy_up(&mut self.manager, &command, answer);
        Some(answer)
    }

    /// Locks a node and what must be held above it, as `Manager::lock_path_telling`.
    pub fn lock_path(
        &mut self,
        t: TxnId,
        node: NodeId,
        mode: Mode,
        told: &mut Told,
    ) -> Result<Reached, Refusal>
        requires empty { told.old.items ≡ [] }
        ensures { PathLeavesRows t (node, mode) self.old result told.new.items self.new }
    {
        self.manager.lock_path_telling(t, node, mode, told)
    }

    /// Rolls back to a savepoint, as `Manager::release_since_telling`. Rows that the transaction asked
    /// for or earlier ones left, and that nobody holds or waits for any more, lose their nodes.
    pub fn release_since(
        &mut self,
        t: TxnId,
        mark: usize,
        told: &mut Told,
    ) -> Result<usize, Refusal>
        requires empty { told.old.items ≡ [] }
        ensures { GoesBackTo t mark self.old.manager self.old.rows result told.new.items self.new.manager self.new.rows }
    {
        self.manager.law();
        self.rows.release_since(&mut self.manager, t, mark, told)
    }

    /// Commits a transaction and begins another in its slot that keeps its first `keep` locks, as
    /// `Manager::commit_keeping_telling`. Rows that the transaction asked for or earlier ones left, and
    /// that nobody holds or waits for any more, lose their nodes.
    pub fn commit_keeping(
        &mut self,
        t: TxnId,
        keep: usize,
        since: u64,
        told: &mut Told,
    ) -> Result<Option<TxnId>, Refusal>
        requires empty { told.old.items ≡ [] }
        ensures { CommitsAndKeeps t keep since self.old.manager self.old.rows result told.new.items self.new.manager self.new.rows }
    {
        self.manager.law();
        self.rows
            .commit_keeping(&mut self.manager, t, keep, since, told)
    }

    /// Carries out one call about rows. `told` must be empty, and receives the notices.
    ///
    /// The call is one step of its own command on the row's node. Before and after that step, records
    /// that nobody holds may be adopted and forgotten, which tells nobody and ends no wait. A refused
    /// call changes nothing.
    ///
    /// `RowCall` lists the refusals of each call.
    #[inline(always)]
    pub fn apply(&mut self, call: RowCall<'_>, told: &mut Told) -> RowAnswer
        requires empty { told.old.items ≡ [] }
        ensures applies { AppliesCall self.old call.entry result told.new.items self.new }
        ensures own { CarriesOut self.old.manager (own_command (naming call.entry self.old.rows self.new.rows) call.entry)
            (answer_in result) told.new.items self.new.manager }
    {
        self.manager.law();
        carry_out(&mut self.manager, &mut self.rows, call, told)
    }

    /// Whether the command would make, remove or rekey a record of a file of rows.
    #[inline(always)]
    fn touches_rows(&self, command: &Command<'_>) -> bool
        ensures { result ≡ touches_rows self.now command.now }
    {
        match *command {
            Command::Insert { file, .. } | Command::Adopt { file, .. } => self.rows.has(file),
            Command::Delete { rec, .. } | Command::Rekey { rec, .. } | Command::Forget { rec } => {
                self.rows.has(first_parent(self.manager.graph(), rec))
            }
            _ => false,
        }
    }
}

/// The first parent of a node; for a record, its file.
fn first_parent(graph: &Graph, node: NodeId) -> NodeId
    ensures { result ≡ first_parent (graph_of graph.now) node }
{
    graph.parents(node).first().copied().unwrap_or(NodeId::NONE)
}

#[inline(always)]
fn carry_out(
    manager: &mut Manager,
    rows: &mut Rows,
    call: RowCall<'_>,
    told: &mut Told,
) -> RowAnswer
    requires empty { told.old.items ≡ [] }
    requires stands { NameWell (name_of rows.old) (state_of manager.old).graph }
    ensures { AppliesRow manager.old rows.old call.entry result told.new.items manager.new rows.new }
{
    match call {
        RowCall::File { parents } => RowAnswer::Answered(node_answer(rows.add_file(
            manager, parents,
        ))),
        RowCall::Lock {
            txn,
            row,
            keys,
            mode,
        } => lock_answer(rows.lock(manager, txn, row, keys, mode, told)),
        RowCall::Unlock { txn, row } => done_row(rows.unlock(manager, txn, row, told)),
        RowCall::Rekey {
            txn,
            row,
            index,
            key,
        } => done_row(rows.rekey(manager, txn, row, index, key, told)),
    }
}
