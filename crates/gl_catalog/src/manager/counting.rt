//! What the manager counts of each command.

ghost use Rattle.std.specs.Prelude.{◌≡◌, if◌then◌else◌, length, not};
ghost use Rattle.gl_modes.specs.Modes.{same_mode};
ghost use Rattle.gl_modes.specs.declared.mode.Mode.TheVariants.{NL};
ghost use Rattle.gl_model.specs.State.{lives};
ghost use Rattle.gl_table.specs.Table.{state_of as table_state};
ghost use Rattle.gl_catalog.specs.Counters.{lock_counted, lock_passes, raise_passes, waiting_in, waits};
ghost use Rattle.gl_catalog.specs.Manager.{state_of};
ghost use Rattle.gl_steps.specs.Step.{answer_of_lock};

use super::Manager;
use crate::counters::Counters;
use gl_modes::{Mode, NodeId};
use gl_table::{Locked, Notice, Table, TxnId};

impl Manager {
    /// What the manager has done since it was made. Allocates no memory.
    pub fn counters(&self) -> Counters
        ensures { result ≡ self.now.counters }
    {
        self.counters
    }

    /// Counts a lock of a node by its answer, its notices, and the mode in which its transaction
    /// held the node before.
    pub(super) fn count_lock(
        &mut self,
        n: NodeId,
        held: Mode,
        locked: Locked,
        told: &[(TxnId, Notice)],
    )
        ensures { self.new ≡ record self.old {
          counters = lock_counted (state_of self.old) n (not (same_mode held NL))
              (lock_passes (state_of self.old) n held locked) (answer_of_lock locked) told.now self.old.counters;
        } }
    {
        self.law();
        let (waiting, queued) = self.waits_seen(n, locked);
        let passes = lock_passes(&self.table, n, held, locked);
        self.counters.add_lock(held != Mode::NL, passes, locked);
        self.counters.add_waits(waiting, queued);
        self.counters.add_notices(told);
    }

    /// How many transactions wait, and how many of them for a node, if a lock left its requester
    /// waiting; else none.
    fn waits_seen(&self, n: NodeId, locked: Locked) -> (u64, u64)
        ensures waiting { result.0 ≡ (if waits (answer_of_lock locked) then waiting_in (state_of self.now) else 0) }
        ensures queued { result.1 ≡ (if waits (answer_of_lock locked) then length ((state_of self.now).queue n) else 0) }
    {
        match locked {
            Locked::Waiting => (self.waiting_now(), self.queue_length(n)),
            _ => (0, 0),
        }
    }

    /// The mode in which a transaction holds a node, `NL` if it does not live.
    pub(super) fn held_by(&self, t: TxnId, n: NodeId) -> Mode
        ensures { result ≡ (if lives (state_of self.now) t then (state_of self.now).held t.slot n else NL) }
    {
        match self.table.mode(t, n) {
            Some(mode) => mode,
            None => Mode::NL,
        }
    }

    /// How many transactions wait.
    fn waiting_now(&self) -> u64
        ensures { result ≡ waiting_in (state_of self.now) }
    {
        self.law();
        let mut left = self.table.waiting_slots();
        let mut waiting = 0;
        while let Some(_waiter) = left.take_lowest() {
            waiting += 1;
        }
        waiting
    }

    /// How many transactions wait for a node.
    fn queue_length(&self, n: NodeId) -> u64
        ensures { result ≡ length ((state_of self.now).queue n) }
    {
        self.law();
        match self.table.queue(n) {
            Ok(waiters) => waiters.len() as u64,
            Err(_) => 0,
        }
    }
}

/// Whether a transaction waits for a node that was held in one mode and then in another. If the
/// mode was not raised, nothing is looked up.
pub(super) fn raise_passes(table: &Table, n: NodeId, before: Mode, after: Mode) -> bool
    ensures { result ≡ raise_passes (table_state table.now) n before after }
{
    before != Mode::NL && after != before && table.is_awaited(n)
}

/// The same for a lock, by its answer.
fn lock_passes(table: &Table, n: NodeId, before: Mode, locked: Locked) -> bool
    ensures { result ≡ lock_passes (table_state table.now) n before locked }
{
    match locked {
        Locked::Granted(mode) => raise_passes(table, n, before, mode),
        _ => false,
    }
}
