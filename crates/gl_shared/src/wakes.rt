//! How sessions sleep, and how they are woken.

ghost use Rattle.gl_slots.specs.Limit.{most_slots};
ghost use Rattle.std.specs.Prelude.{◌≡◌, ◌<◌};
ghost use Rattle.gl_slots.specs.Slots.{no_slots};

use gl_slots::{SLOTS, Slot, Slots};
use std::array;
use std::marker::Model;
use std::snapshot::Snapshot;
use std::sync::{Condvar, MutexGuard, Wait};

/// A condition variable for each slot.
#[derive(Drop)]
pub(crate) struct Wakes {
    slots: [Condvar; SLOTS],
}

/// The slots that a session last woke. To a contract it is their set; it has no bytes.
#[derive(Drop)]
pub struct Woken {
    slots: Snapshot<Slots>,
}

impl Model for Woken {
    ghost use Rattle.gl_slots.specs.declared.slots.Slots.{Slots};

    ghost Value = { Slots };

    ghost view = { λ w. w.slots.value };
}

impl Woken {
    pub(crate) fn nobody() -> Woken
        ensures { result ≡ no_slots }
    {
        Woken {
            slots: Snapshot::of(&Slots::empty()),
        }
    }
}

impl Wakes {
    pub(crate) fn new() -> Wakes {
        Wakes {
            slots: array::from_fn(|_slot| Condvar::new()),
        }
    }

    /// Sleeps on this slot's condition variable. Only tests show that it sleeps.
    pub(crate) fn sleep<'b, R: Wait, T>(
        &self,
        rt: &R,
        guard: MutexGuard<'b, T>,
        slot: Slot,
    ) -> MutexGuard<'b, T> {
        self.slots[place_of(slot)].wait(rt, guard)
    }

    /// Wakes the sessions that sleep in these slots. Only tests show that each is notified.
    pub(crate) fn wake(&self, slots: Slots) -> Woken
        ensures { result ≡ slots }
    {
        let woken = Woken {
            slots: Snapshot::of(&slots),
        };
        let mut left = slots;
        while let Some(slot) = left.take_lowest() {
            self.slots[slot as usize].notify_all();
        }
        woken
    }
}

/// The place of a slot's condition variable.
fn place_of(slot: Slot) -> usize
    ensures within { result < most_slots }
    ensures own { slot < most_slots → result ≡ slot }
{
    slot as usize % SLOTS
}
