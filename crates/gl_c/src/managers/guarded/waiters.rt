//! Waiters of requests.

ghost use Rattle.std.specs.Prelude.{◌≡◌, []};
ghost use Rattle.gl_waiting.specs.Asking.{Awaits, Climbs, WithdrawsWaiter};
ghost use Rattle.gl_waiting.specs.Ends.{IsNext, earliest_time};
ghost use Rattle.gl_waiting.specs.Waiters.{first_late};
ghost use Rattle.gl_c.specs.locks.Waiters.{late_call, on_call, on_slot};
ghost use Rattle.gl_c.specs.managers.Carries.{Performs};
ghost use Rattle.gl_c.specs.managers.Guarded.{waiting_in};

use super::Guarded;
use crate::managers::showing::keep_nobody;
use gl_slots::Slot;
use gl_table::{Told, TxnId};
use gl_waiting::{Came, Next, Outcome, Waiter};

impl Guarded {
    /// Registers the waiter of a request that a call left waiting. Answers that it waits, or, if its wait
    /// is over by then, how. `None` if the slot of its transaction has a waiter already.
    pub(crate) fn await_request(&mut self, waiter: Waiter) -> Option<Came>
        ensures awaits { Awaits (waiting_in self.old) waiter result (waiting_in self.new) }
        ensures rest { self.new ≡ record self.old { places = self.new.places } }
    {
        self.waiting.await_request(waiter)
    }

    /// Registers the waiter of a request that lacks a node above its own. `false` if the slot of its transaction
    /// has a waiter already, or there is no such slot.
    pub(crate) fn climb(&mut self, waiter: Waiter) -> bool
        ensures climbs { Climbs (waiting_in self.old) waiter result (waiting_in self.new) }
        ensures rest { self.new ≡ record self.old { places = self.new.places } }
    {
        self.waiting.climb(waiter)
    }

    /// Removes the waiter of a transaction, whose wait goes on; whether it had one.
    pub(crate) fn withdraw_waiter(&mut self, txn: TxnId) -> bool
        ensures withdraws { WithdrawsWaiter (waiting_in self.old) txn result (waiting_in self.new) }
        ensures rest { self.new ≡ record self.old { places = self.new.places } }
    {
        self.waiting.withdraw_waiter(txn)
    }

    /// Continues the waiter of the lowest slot whose wait is over, and puts the notices into an empty
    /// list. `None` if there is no such waiter. Also answers whether the wait of a waiter is over after that.
    pub(crate) fn go_on(&mut self, told: &mut Told) -> (Option<(TxnId, Came)>, bool)
        requires empty { told.old.items ≡ [] }
        ensures { Performs self.old on_call result told.new.items self.new }
    {
        self.waiting.law();
        let before = self.waiting.manager().accepted();
        let (came, off) = self.waiting.go_on(told);
        let over = self.waiting.has_next();
        if self.waiting.manager().accepted() == before {
            return (came, over);
        }
        self.ended = off.ended;
        self.resting.rouse(&self.waiting, slot_of(came));
        keep_nobody(&mut self.showing, true);
        self.show_if_due();
        (came, over)
    }

    /// Cancels the wait of a transaction whose time is over, and puts the notices into an empty list.
    /// `None` if it has no waiter, or its wait cannot be cancelled.
    pub(crate) fn time_out(&mut self, txn: TxnId, told: &mut Told) -> Option<Outcome>
        requires empty { told.old.items ≡ [] }
        ensures { Performs self.old (late_call txn) result told.new.items self.new }
    {
        self.waiting.law();
        let before = self.waiting.manager().accepted();
        let (end, off) = self.waiting.time_out(txn, told);
        if self.waiting.manager().accepted() == before {
            return end;
        }
        self.ended = off.ended;
        self.resting.rouse(&self.waiting, Some(txn.slot));
        keep_nobody(&mut self.showing, true);
        self.show_if_due();
        end
    }

    /// The waiter of the lowest slot whose wait is over, and what it does next.
    pub(crate) fn next(&self) -> Option<(Waiter, Next)>
        ensures { IsNext (waiting_in self.now) result }
    {
        self.waiting.next()
    }

    /// The transaction of the lowest slot whose wait should have ended by now.
    pub(crate) fn first_late(&self, now: u64) -> Option<TxnId>
        ensures { result ≡ first_late now self.now.places }
    {
        self.waiting.first_late(now)
    }

    /// The earliest time at which a wait ends, for a lock or for a slot; `None` if none has one.
    pub(crate) fn earliest_time(&self) -> Option<u64>
        ensures { result ≡ earliest_time (waiting_in self.now) }
    {
        self.waiting.earliest_time()
    }
}

/// The slot of the waiter that went on.
fn slot_of(came: Option<(TxnId, Came)>) -> Option<Slot>
    ensures { result ≡ on_slot came }
{
    match came {
        Some((txn, _)) => Some(txn.slot),
        None => None,
    }
}
