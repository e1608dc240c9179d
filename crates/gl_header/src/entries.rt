//! Reading a queue: slots with the modes that they wait for.

ghost use Rattle.std.specs.Prelude.{◌≡◌, ℕ, MatchOption, false, position, true};
ghost use Rattle.std.specs.List.{list_all, prefix_len};
ghost use Rattle.gl_slots.specs.Slots.{has_slot};
ghost use Rattle.gl_header.specs.Entries.{IsPlaceOf};
ghost use Rattle.gl_header.specs.Groups.{IsGroup, held_by};
ghost use Rattle.gl_header.specs.Sound.{is_entry};
ghost use Rattle.gl_header.specs.Header.{holds, is_ahead, is_among_waiters, is_waiter, wanted_by};

use crate::group::Group;
use gl_modes::Mode;
use gl_slots::{Slot, Slots};

/// A slot with the mode that it waits for.
pub(crate) type Entry = (Slot, Mode);

/// Whether `slot` has an entry.
pub(crate) fn has_entry(entries: &[Entry], slot: Slot) -> bool
    ensures { result ≡ is_among_waiters slot entries.now }
{
    entries.iter().any(|entry| entry.0 == slot)
}

/// The mode in the first entry of `slot`.
pub(crate) fn mode_in(entries: &[Entry], slot: Slot) -> Option<Mode>
    ensures { result ≡ wanted_by entries.now slot }
{
    for entry in entries {
        if entry.0 == slot {
            return Some(entry.1);
        }
    }
    None
}

// The place of the slot's first entry, alone.
fn first_of(entries: &[Entry], slot: Slot) -> Option<usize>
    ensures { result ≡ position (is_waiter slot) entries.now }
{
    entries.iter().position(|entry| entry.0 == slot)
}

/// The place of the slot's first entry, and what its removal leaves of the list.
pub(crate) fn place_of(entries: &[Entry], slot: Slot) -> Option<usize>
    ensures { MatchOption result (is_among_waiters slot entries.now ≡ false) (IsPlaceOf entries.now slot) }
{
    first_of(entries, slot)
}

/// How many members wait at the front of the queue.
pub(crate) fn waiting_members(group: &Group, queue: &[Entry]) -> usize
    requires { IsGroup group.now }
    ensures { result ≡ prefix_len (λ w. holds (held_by group.now) w.0) queue.now }
{
    queue
        .iter()
        .take_while(|waiter| group.has(waiter.0))
        .count()
}

/// The slots ahead of this one in a queue; none if it is not there.
pub(crate) fn ahead_of(queue: &[Entry], slot: Slot) -> Slots
    requires { list_all is_entry queue.now ≡ true }
    ensures { (u : ℕ) → has_slot result u ≡ is_ahead queue.now slot u }
{
    let mut slots = Slots::empty();
    for &(other, _) in queue {
        if other == slot {
            return slots;
        }
        slots.insert(other);
    }
    Slots::empty()
}
