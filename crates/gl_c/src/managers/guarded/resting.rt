//! Those who rest.

ghost use Rattle.std.specs.Prelude.{◌≡◌, ◌&&◌, []};
ghost use Rattle.gl_slots.specs.Slots.{has_slot};
ghost use Rattle.gl_model.specs.State.{lives};
ghost use Rattle.gl_catalog.specs.Manager.{state_of};
ghost use Rattle.gl_waiting.specs.Resting.{FirstIntentions, RestOn, slot_if};
ghost use Rattle.gl_c.specs.locks.Resting.{end_call, resting_call};
ghost use Rattle.gl_c.specs.managers.Carries.{Performs};

use super::Guarded;
use crate::managers::showing::keep_nobody;
use gl_modes::Refusal;
use gl_slots::Slots;
use gl_table::{Told, TxnId};
use gl_waiting::{Ended, Number, Whom, first_intentions};

impl Guarded {
    /// Commits a transaction and begins another in its slot that keeps its first `keep` locks and rests,
    /// and puts the notices into an empty list. Watchers are shown one snapshot after all of it.
    pub(crate) fn serve_resting(
        &mut self,
        txn: TxnId,
        keep: usize,
        since: u64,
        told: &mut Told,
    ) -> Result<Option<TxnId>, Refusal>
        requires empty { told.old.items ≡ [] }
        ensures { Performs self.old (resting_call txn keep since) result told.new.items self.new }
    {
        let before = self.waiting.manager().accepted();
        let (next, off) = self
            .resting
            .commit_keeping(&mut self.waiting, txn, keep, since, told);
        if self.waiting.manager().accepted() == before {
            return next;
        }
        self.ended = off.ended;
        keep_nobody(&mut self.showing, off.went_on);
        self.show_if_due();
        next
    }

    /// Ends those who rest and are to be ended, or one of them, and puts the notices into an empty list.
    /// `None` if nobody is to be ended.
    pub(crate) fn end_resting(
        &mut self,
        whom: Whom,
        number: Number,
        told: &mut Told,
    ) -> Option<Ended>
        requires empty { told.old.items ≡ [] }
        ensures { Performs self.old (end_call whom number) result told.new.items self.new }
    {
        let before = self.waiting.manager().accepted();
        let (came, off) = self.resting.end(&mut self.waiting, whom, number, told);
        if self.waiting.manager().accepted() == before {
            return came;
        }
        self.ended = off.ended;
        keep_nobody(&mut self.showing, true);
        self.show_if_due();
        came
    }

    /// How many of the first locks of a transaction are intentions, up to so many, of which `known` are
    /// known to be.
    pub(crate) fn first_intentions(&self, txn: TxnId, known: usize, most: usize) -> usize
        ensures { FirstIntentions self.now.manager txn known most result }
    {
        first_intentions(self.waiting.manager(), txn, known, most)
    }

    /// Whether this transaction rested; it works again.
    pub(crate) fn wake(&mut self, txn: TxnId) -> bool
        ensures woken { result ≡ (has_slot self.old.resting txn.slot && lives (state_of self.old.manager) txn) }
        ensures rest { self.new ≡ record self.old { resting = self.new.resting } }
        ensures rests { RestOn (slot_if result txn.slot) self.old.resting self.new.resting }
    {
        self.resting.wake(&self.waiting, txn)
    }

    /// The slots of those who rest.
    pub(crate) fn resting(&self) -> Slots
        ensures { result ≡ self.now.resting }
    {
        self.resting.slots()
    }
}
