//! What belongs to each slot: nothing, or a waiter.

ghost use Rattle.gl_slots.specs.Limit.{most_slots};
ghost use Rattle.std.specs.Prelude.{◌≡◌, ◌<◌, IfNone, IfSome, is_some, length, replicate, slice_set};
ghost use Rattle.std.specs.List.{position};
ghost use Rattle.gl_waiting.specs.Begins.{is_over};
ghost use Rattle.gl_waiting.specs.Waiters.{HasWaiter, earliest_until, first_late, place_at, until_in, waiter_in};
ghost use Rattle.gl_waiting.specs.declared.waiter.Place.TheVariants.{Empty as empty};
ghost use Rattle.gl_waiting.specs.declared.waiter.Waiter.{Waiter as AWaiter};

use crate::begins::is_over;
use crate::waiter::{Place, Waiter};
use gl_slots::{SLOTS, Slot};
use gl_table::TxnId;
use std::marker::Model;

/// What belongs to each slot.
#[derive(Drop)]
pub(crate) struct Places {
    places: [Place; SLOTS],
}

impl Model for Places {
    ghost use Rattle.std.specs.Prelude.{List};
    ghost use Rattle.gl_waiting.specs.declared.waiter.Place.{Place};

    ghost Value = { List Place };

    ghost use Rattle.gl_waiting.specs.Owned.{places_of};

    ghost view = { places_of };
}

impl Places {
    /// Nothing belongs to any slot.
    pub(crate) fn new() -> Self
        ensures { result ≡ replicate most_slots empty }
    {
        Places {
            places: [Place::Empty; SLOTS],
        }
    }

    /// What belongs to a slot; `None` is nothing too.
    pub(crate) fn at(&self, slot: Slot) -> Option<&Place>
        ensures some { IfSome result (λ place. place.now ≡ place_at self.now slot) }
        ensures none { IfNone result (place_at self.now slot ≡ empty) }
    {
        self.places.get(slot as usize)
    }

    /// Whether a slot has a waiter.
    pub(crate) fn has_waiter(&self, slot: Slot) -> bool
        ensures { result ≡ is_some (waiter_in (place_at self.now slot)) }
    {
        matches!(self.at(slot), Some(Place::Waits(_) | Place::GoesOn(_, _)))
    }

    /// What belongs to a place in the list.
    fn place(&self, index: usize) -> Place
        ensures { result ≡ place_at self.now index }
    {
        match self.places.get(index) {
            Some(place) => *place,
            None => Place::Empty,
        }
    }

    /// The waiter of a slot.
    pub(crate) fn waiter(&self, slot: Slot) -> Option<Waiter>
        ensures { result ≡ waiter_in (place_at self.now slot) }
    {
        self.place(slot as usize).waiter()
    }

    /// The waiter of a transaction.
    pub(crate) fn waiter_of(&self, txn: TxnId) -> Option<Waiter>
        ensures some { IfSome result (HasWaiter self.now txn) }
        ensures none { IfNone result ((w : AWaiter) → HasWaiter self.now txn w → ⊥) }
    {
        let waiter = self.waiter(txn.slot)?;
        if waiter.txn == txn {
            Some(waiter)
        } else {
            None
        }
    }

    /// Puts something else there.
    pub(crate) fn put(&mut self, slot: Slot, place: Place)
        requires { slot < most_slots }
        ensures put { self.new ≡ slice_set self.old slot place }
        ensures slots { length self.old ≡ most_slots }
    {
        self.places[slot as usize] = place;
    }

    /// The transaction of the lowest slot whose wait should have ended by now.
    pub(crate) fn first_late(&self, now: u64) -> Option<TxnId>
        ensures { result ≡ first_late now self.now }
    {
        match self.index_of_late(now) {
            Some(index) => self.place(index).txn(),
            None => None,
        }
    }

    /// The place in the list of the first wait that should have ended by now.
    fn index_of_late(&self, now: u64) -> Option<usize>
        ensures { result ≡ position (λ p. is_over now (until_in p)) self.now }
    {
        self.places
            .iter()
            .position(|place| is_over(place.until(), now))
    }

    /// The earliest time at which a wait ends at the latest; `None` if no waiter has one.
    pub(crate) fn earliest(&self) -> Option<u64>
        ensures { result ≡ earliest_until self.now }
    {
        self.places.iter().filter_map(|place| place.until()).min()
    }
}
