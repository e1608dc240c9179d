//! All that C's mutex protects.

ghost use Rattle.gl_slots.specs.Limit.{most_slots};
ghost use Rattle.std.specs.Prelude.{◌≡◌, ◌≤◌, ◌^◌, [], IfErr, IfOk, Some, is_none};
ghost use Rattle.gl_modes.specs.declared.refusal.Refusal.{Refusal as ARefusal};
ghost use Rattle.gl_table.specs.Table.{board_of};
ghost use Rattle.gl_catalog.specs.Manager.{state_of};
ghost use Rattle.gl_window.specs.Boards.{Ends};
ghost use Rattle.gl_rows.specs.Rows.{name_of};
ghost use Rattle.gl_wakes.specs.Boxes.{verdict_of};
ghost use Rattle.gl_c.specs.managers.Guarded.{waiting_in};
ghost use Rattle.gl_c.specs.managers.Managing.{IsNew};
ghost use Rattle.gl_c.specs.locks.Paths.{path_call};
ghost use Rattle.gl_c.specs.locks.Rows.{row_call};
ghost use Rattle.gl_c.specs.locks.Savepoints.{back_call, keeping_call};
ghost use Rattle.gl_c.specs.managers.Carries.{Performs, command_call};
ghost use Rattle.gl_c.specs.managers.Serving.{KnowsWaits, ShowsOn};
ghost use Rattle.gl_c.specs.watchers.Watching.{OnlyShows};

use crate::managers::showing::{Showing, answer_of, keep, keep_nobody, keep_on_path, watch};
use gl_catalog::{Answer, Command, Manager, Reached};
use gl_modes::{Mode, NodeId, Refusal};
use gl_rows::{Registry, Row, RowAnswer, RowCall};
use gl_slots::Slots;
use gl_table::{Detect, Told, TxnId};
use gl_waiting::{Delivery, Resting, Waiting, acting_slot};
use gl_waits::Victims;
use gl_wakes::{Grant, Stop};
use gl_window::{WatchFault, Watcher};
use std::alloc::Global;
use std::marker::Model;

mod resting;
mod tries;
mod turns;
mod waiters;

/// The table of waiters, who of its transactions rest, the slots whose wait the last counted call may
/// have ended, and what watchers were shown, if there ever was one.
#[derive(Drop)]
pub(crate) struct Guarded {
    waiting: Waiting,
    resting: Resting,
    ended: Slots,
    showing: Option<Showing>,
}

impl Model for Guarded {
    ghost use Rattle.gl_c.specs.managers.Guarded.{GuardedView};

    ghost Value = { GuardedView };

    ghost use Rattle.gl_c.specs.managers.Sound.{view_of, IsSound};

    ghost view = { view_of };

    ghost invariant = { IsSound };
}

impl Guarded {
    /// A new manager, with limits for living transactions, living nodes and bounds of an index. The
    /// only refusal is `NoMemory`.
    pub(crate) fn new(
        alloc: Global,
        detect: Detect,
        victims: Victims,
        most: usize,
        nodes: u32,
        bounds: u32,
    ) -> Result<Self, Refusal>
        requires some { 1 ≤ most }
        requires few { most ≤ most_slots }
        requires low { nodes ≤ 2 ^ 31 }
        ensures made { IfOk result (λ guarded. IsNew detect victims most nodes bounds guarded) }
        ensures refused { IfErr result (λ refusal. refusal ≡ ARefusal.NoMemory) }
    {
        let manager = Manager::with_limits(alloc, detect, victims, most, nodes, bounds)?;
        let registry = Registry::new(alloc, manager)?;
        Ok(Guarded {
            waiting: Waiting::new(alloc, Delivery::new(registry)),
            resting: Resting::nobody(),
            ended: Slots::empty(),
            showing: None,
        })
    }

    /// The manager.
    pub(crate) fn manager(&self) -> &Manager
        ensures { result.now ≡ self.now.manager }
    {
        self.waiting.manager()
    }

    /// The node of a row; `None` if it has none.
    pub(crate) fn node(&self, row: Row) -> Option<NodeId>
        ensures { result ≡ name_of self.now.rows row }
    {
        self.waiting.node(row)
    }

    /// The slots whose wait the last counted call may have ended.
    pub(crate) fn ended(&self) -> Slots
        ensures { result ≡ self.now.ended }
    {
        self.ended
    }

    /// What became of the transaction's wait for this node; `None` if it still waits.
    pub(crate) fn verdict(
        &self,
        txn: TxnId,
        node: NodeId,
        mode: Mode,
    ) -> Option<Result<Grant, Stop>>
        ensures { result ≡ verdict_of (state_of self.now.manager) self.now.boxes txn node mode }
    {
        self.waiting.verdict(txn, node, mode)
    }

    /// Carries out a command, and puts its notices into an empty list. `None` if it would insert,
    /// delete or change a record of a file of rows by its node: then nothing has changed.
    #[inline(always)]
    pub(crate) fn serve(&mut self, command: Command<'_>, told: &mut Told) -> Option<Answer>
        requires empty { told.old.items ≡ [] }
        ensures { Performs self.old (command_call command.entry) result told.new.items self.new }
    {
        self.waiting.law();
        let before = self.waiting.manager().accepted();
        let (answer, off) = self.waiting.serve(command, told);
        if self.waiting.manager().accepted() == before {
            return answer;
        }
        self.ended = off.ended;
        self.resting.rouse(&self.waiting, acting_slot(&command));
        keep(
            &mut self.showing,
            off.went_on,
            &command,
            answer,
            told.as_slice(),
        );
        self.show_if_due();
        answer
    }

    /// Locks a node after what must be held above it, and puts the notices into an empty list. Watchers
    /// are shown one snapshot after all of it.
    pub(crate) fn serve_path(
        &mut self,
        txn: TxnId,
        node: NodeId,
        mode: Mode,
        told: &mut Told,
    ) -> Result<Reached, Refusal>
        requires empty { told.old.items ≡ [] }
        ensures { Performs self.old (path_call txn (node, mode)) result told.new.items self.new }
    {
        self.waiting.law();
        let before = self.waiting.manager().accepted();
        let (reached, off) = self.waiting.lock_path(txn, node, mode, told);
        if self.waiting.manager().accepted() == before {
            return reached;
        }
        self.ended = off.ended;
        self.resting.rouse(&self.waiting, Some(txn.slot));
        keep_on_path(
            &mut self.showing,
            off.went_on,
            txn,
            reached,
            told.as_slice(),
        );
        self.show_if_due();
        reached
    }

    /// Carries out a call about rows, and puts its notices into an empty list. Watchers are shown one
    /// snapshot after all of it.
    #[inline(always)]
    pub(crate) fn serve_row(&mut self, call: RowCall<'_>, told: &mut Told) -> RowAnswer
        requires empty { told.old.items ≡ [] }
        ensures { Performs self.old (row_call call.entry) result told.new.items self.new }
    {
        self.waiting.law();
        let before = self.waiting.manager().accepted();
        let (answer, off) = self.waiting.serve_row(call, told);
        if self.waiting.manager().accepted() == before {
            return answer;
        }
        self.ended = off.ended;
        self.resting
            .rouse(&self.waiting, acting_slot(&call.command()));
        keep(
            &mut self.showing,
            off.went_on,
            &call.command(),
            answer_of(answer),
            told.as_slice(),
        );
        self.show_if_due();
        answer
    }

    /// Rolls back to a savepoint, and puts the notices into an empty list. Watchers are shown one
    /// snapshot after all of it.
    pub(crate) fn serve_back(
        &mut self,
        txn: TxnId,
        mark: usize,
        told: &mut Told,
    ) -> Result<usize, Refusal>
        requires empty { told.old.items ≡ [] }
        ensures { Performs self.old (back_call txn mark) result told.new.items self.new }
    {
        self.waiting.law();
        let before = self.waiting.manager().accepted();
        let (released, off) = self.waiting.release_since(txn, mark, told);
        if self.waiting.manager().accepted() == before {
            return released;
        }
        self.ended = off.ended;
        self.resting.rouse(&self.waiting, Some(txn.slot));
        keep_nobody(&mut self.showing, off.went_on);
        self.show_if_due();
        released
    }

    /// Commits a transaction and begins another in its slot that keeps its first `keep` locks, and puts
    /// the notices into an empty list. Watchers are shown one snapshot after all of it.
    pub(crate) fn serve_keeping(
        &mut self,
        txn: TxnId,
        keep: usize,
        since: u64,
        told: &mut Told,
    ) -> Result<Option<TxnId>, Refusal>
        requires empty { told.old.items ≡ [] }
        ensures { Performs self.old (keeping_call txn keep since) result told.new.items self.new }
    {
        self.waiting.law();
        let before = self.waiting.manager().accepted();
        let (next, off) = self.waiting.commit_keeping(txn, keep, since, told);
        if self.waiting.manager().accepted() == before {
            return next;
        }
        self.ended = off.ended;
        self.resting.rouse(&self.waiting, Some(txn.slot));
        keep_nobody(&mut self.showing, off.went_on);
        self.show_if_due();
        next
    }

    /// Shows watchers the present snapshot if there is a watcher and the last snapshot may lack a wait.
    #[inline(always)]
    fn show_if_due(&mut self)
        ensures kept { (waiting_in self.new ≡ waiting_in self.old) × (self.new.ended ≡ self.old.ended) × (self.new.resting ≡ self.old.resting) }
        ensures shown { ShowsOn (is_none self.old.parties) (board_of (state_of self.old.manager)) self.old.shown self.new.shown }
        ensures known { KnowsWaits (state_of self.new.manager) self.new.shown self.new.parties }
    {
        if let Some(showing) = &mut self.showing {
            showing.show_if_due(self.waiting.manager());
        }
    }

    /// A watcher that starts with the present snapshot.
    pub(crate) fn watch(&mut self, alloc: Global) -> Result<Watcher, WatchFault>
        ensures kept { OnlyShows self.old self.new }
        ensures watcher { IfOk result (λ watcher. (self.new.shown ≡ Some watcher) × Ends watcher.list (board_of (state_of self.old.manager))) }
    {
        watch(&mut self.showing, self.waiting.manager(), alloc)
    }
}
