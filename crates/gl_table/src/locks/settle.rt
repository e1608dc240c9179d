//! Deadlocks are ended: victims are condemned.

ghost use Rattle.std.specs.Prelude.{[], ℕ, ◌<◌, ◌≡◌, None, true};
ghost use Rattle.gl_model.specs.Calls.{WaitSettles};
ghost use Rattle.gl_model.specs.Deadlocks.{SettlesKeeping, WaitSettlesKeeping};
ghost use Rattle.gl_model.specs.State.{Settled, State, condemned, is_wait, status_of};
ghost use Rattle.gl_model.specs.Tellings.{IsBetween, notices_in, told_but};
ghost use Rattle.gl_table.specs.inside.Locks.{state_at};
ghost use Rattle.gl_table.specs.inside.Slots.{CanTell, ListsLose, TellsAll};

use crate::locks::Locks;
use crate::told::tell;
use crate::txn_entry::TxnEntry;
use gl_model::{Deadlock, Detect, Notice, Status, Told, TxnId};
use gl_slots::Slot;
use gl_waits::Victims;

impl Locks {
    /// With detection at block, settles a slot that has begun to wait, and records the last
    /// deadlock that this ends. Puts the notices to others into an empty list, by rising slot.
    #[inline(never)]
    pub(crate) fn settle_requester(
        &mut self,
        detect: Detect,
        victims: Victims,
        slot: Slot,
        deadlock: &mut Deadlock,
        told: &mut Told,
    )
        requires empty { told.old.items ≡ [] }
        requires has_entry { slot < (state_at self.old).most }
        ensures state { WaitSettles detect victims (state_at self.old) slot (state_at self.new) }
        ensures deadlock { WaitSettlesKeeping detect victims (state_at self.old) slot deadlock.old (state_at self.new) deadlock.new }
        ensures told { told.new.items ≡ told_but slot (state_at self.old) (state_at self.new) }
        ensures orders { ListsLose self.old.ledger.lists.items self.new.ledger.lists.items }
    {
        if matches!(detect, Detect::AtBlock) {
            self.settle(victims, slot, deadlock, told);
            told.retain(|notice| notice.0.slot != slot);
        }
    }

    /// Condemns a victim, by the choice of victims, until a slot is on no cycle. Each time the
    /// deadlock is recorded in place of the last, and the victim's wait ends.
    pub(crate) fn settle(
        &mut self,
        victims: Victims,
        slot: Slot,
        deadlock: &mut Deadlock,
        told: &mut Told,
    )
        requires has_entry { slot < (state_at self.old).most }
        requires tell { CanTell told.old.items (λ u. is_wait (status_of (state_at self.old) u)) }
        ensures state { Settled victims (state_at self.old) slot (state_at self.new) }
        ensures deadlock { SettlesKeeping victims (state_at self.old) slot deadlock.old (state_at self.new) deadlock.new }
        ensures tells { TellsAll (state_at self.old) (state_at self.new) told.old.items told.new.items }
        ensures orders { ListsLose self.old.ledger.lists.items self.new.ledger.lists.items }
    {
        while let Some(victim) = self.ledger.victim(victims, slot) {
            // Recorded first: once the victim's wait has ended, the cycle is gone.
            self.ledger.keep_deadlock(slot, victim, deadlock);
            self.condemn(victim, told);
        }
    }

    /// Condemns a slot that waits, and tells it. Its wait ends, and the node's waiters are granted
    /// from the front.
    fn condemn(&mut self, slot: Slot, told: &mut Told)
        requires waits { is_wait (status_of (state_at self.old) slot) ≡ true }
        requires tell { CanTell told.old.items (λ u. is_wait (status_of (state_at self.old) u)) }
        ensures state { state_at self.new ≡ condemned (state_at self.old) slot }
        ensures untold { (u : ℕ) → is_wait (status_of (state_at self.new) u) ≡ true → notices_in told.new.items u ≡ None }
        ensures keeps_between { (s : State) → IsBetween s (state_at self.old) → IsBetween s (state_at self.new) }
        ensures tells { TellsAll (state_at self.old) (state_at self.new) told.old.items told.new.items }
        ensures orders { ListsLose self.old.ledger.lists.items self.new.ledger.lists.items }
    {
        if let Some(
            TxnEntry {
                age,
                status: Status::Waiting { node, .. },
                ..
            },
        ) = self.ledger.txn_entry(slot)
        {
            self.withdraw(slot, node, Status::Condemned, told);
            tell(told, TxnId { slot, age }, Notice::Victim);
        }
    }
}
