//! The rows of a registry: the files of rows, and the node of each row that has one.
//!
//! Each call receives the manager whose nodes these are.

ghost use Rattle.std.specs.Prelude.{◌≡◌, ℕ, IfErr, IfOk, None, false, length};
ghost use Rattle.std.specs.List.{list_any};
ghost use Rattle.gl_modes.specs.declared.node.NodeId.{NodeId as ANode};
ghost use Rattle.gl_modes.specs.declared.refusal.Refusal.{Refusal as ARefusal};
ghost use Rattle.gl_modes.specs.Nodes.{same_node};
ghost use Rattle.gl_rows.specs.declared.row.Row.{Row as ARow};
ghost use Rattle.gl_rows.specs.Files.{MakesFile};
ghost use Rattle.gl_rows.specs.Releasing.{node_for};
ghost use Rattle.gl_slots.specs.Slots.{HasNoSlot};
ghost use Rattle.gl_rows.specs.Rows.{has_asked, has_rows, name_of};
ghost use Rattle.gl_rows.specs.Serving.{ForgetsFile, TidiesUp, remains_after};

use crate::answer::RowRefusal;
use crate::row::Row;
use crate::sets::empty_sets;
use gl_catalog::{Answer, Command, Manager};
use gl_modes::{NodeId, Refusal};
use gl_slots::Slots;
use indexmap::{IndexMap, IndexSet};
use std::alloc::Global;
use std::marker::Model;

mod lock;
mod release;

/// The most files that are searched without hashing.
const FEW: usize = 8;

/// The files of rows, the node of each row that has one, for each slot the rows that its transaction
/// asked for or earlier ones left, and the slots with rows left.
#[derive(Drop)]
pub(crate) struct Rows {
    files: IndexSet<NodeId>,
    names: IndexMap<Row, NodeId>,
    asked: Vec<IndexSet<Row>>,
    left: Slots,
}

impl Model for Rows {
    ghost use Rattle.gl_rows.specs.Rows.{RowsView};

    ghost Value = { RowsView };

    ghost use Rattle.gl_rows.specs.Sound.{view_of, IsSound};

    ghost view = { view_of };

    ghost invariant = { IsSound };
}

impl Rows {
    /// No files and no rows. The only refusal is `NoMemory`.
    pub(crate) fn new(alloc: Global) -> Result<Self, Refusal>
        ensures fileless { IfOk result (λ rows. (file : ANode) → has_rows rows file ≡ false) }
        ensures unnamed { IfOk result (λ rows. (row : ARow) → name_of rows row ≡ None) }
        ensures unasked { IfOk result (λ rows. (slot : ℕ) (row : ARow) → has_asked rows slot row ≡ false) }
        ensures none_left { IfOk result (λ rows. HasNoSlot rows.left) }
        ensures refused { IfErr result (λ refusal. refusal ≡ ARefusal.NoMemory) }
    {
        Ok(Rows {
            files: IndexSet::new(alloc),
            names: IndexMap::new(alloc),
            asked: empty_sets(alloc)?,
            left: Slots::empty(),
        })
    }

    /// Whether the node is a file of rows.
    pub(crate) fn has(&self, file: NodeId) -> bool
        ensures { result ≡ has_rows self.now file }
    {
        is_among(&self.files, file)
    }

    /// The row's node, if it has one.
    pub(crate) fn node(&self, row: Row) -> Option<NodeId>
        ensures { result ≡ name_of self.now row }
    {
        self.names.get(&row).copied()
    }

    /// How many rows have a node.
    pub(crate) fn len(&self) -> usize
        ensures { result ≡ length self.now.names }
    {
        self.names.len()
    }

    /// The row's node; `NodeId::NONE` if a row of a file of rows has none. Refused with `NotRows`.
    fn node_for(&self, row: Row) -> Result<NodeId, RowRefusal>
        ensures { result ≡ node_for self.now row }
    {
        match self.names.get(&row) {
            Some(node) => Ok(*node),
            None if self.has(row.file) => Ok(NodeId::NONE),
            None => Err(RowRefusal::NotRows),
        }
    }

    /// Makes a file of rows. Refused as `Manager::add_file`, or with `NoMemory`.
    pub(crate) fn add_file(
        &mut self,
        manager: &mut Manager,
        parents: &[NodeId],
    ) -> Result<NodeId, Refusal>
        ensures { MakesFile manager.old self.old parents.entry result manager.new self.new }
    {
        if self.files.reserve(1).is_err() {
            return Err(Refusal::NoMemory);
        }
        let file = manager.add_file(parents)?;
        self.files.insert(file).unwrap();
        Ok(file)
    }

    /// Does for rows what a command with this answer leaves to be done: a dropped node is no file of
    /// rows any more. After a command that releases locks, rows that its transaction asked for or that
    /// earlier ones left, and that nobody holds or waits for any more, lose their nodes.
    #[inline(always)]
    pub(crate) fn tidy_up(&mut self, manager: &mut Manager, command: &Command<'_>, answer: Answer)
        ensures { TidiesUp (remains_after command.now answer) manager.old self.old manager.new self.new }
    {
        if matches!(answer, Answer::Refused(_)) {
            return;
        }
        match *command {
            Command::Drop { node, .. } => self.forget_file(node),
            Command::Commit { txn } | Command::Abort { txn } => {
                self.let_go_at_end(manager, txn.slot);
            }
            Command::Cancel { txn } | Command::Escalate { txn, .. } => {
                self.let_go_asked(manager, txn.slot);
            }
            Command::Unlock { .. } => self.let_left_go(manager),
            _ => {}
        }
    }

    /// Removes a node from the files of rows.
    fn forget_file(&mut self, node: NodeId)
        ensures { ForgetsFile self.old node self.new }
    {
        self.files.swap_remove(&node);
    }
}

/// Whether a file is one of these. A few files are searched: hashing takes longer.
#[inline]
pub(crate) fn is_among(files: &IndexSet<NodeId>, file: NodeId) -> bool
    ensures { result ≡ list_any (same_node file) files.now.keys }
{
    if files.len() > FEW {
        return files.contains(&file);
    }
    files.as_slice().iter().any(|listed| file == *listed)
}
