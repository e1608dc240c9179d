//! Changing the group and the queue of one header.

ghost use Rattle.std.specs.Prelude.{◌≡◌, ◌≤◌, [], OnErr, OnOk, drop, length};
ghost use Rattle.gl_header.specs.Entries.{without};
ghost use Rattle.gl_header.specs.Groups.{IsGroup, held_by};
ghost use Rattle.gl_header.specs.Header.{front, pumped_members, pumped_queue};
ghost use Rattle.gl_header.specs.Sound.{IsOrderly, placed_in};
ghost use Rattle.gl_header.specs.State.{slot_limit};

use crate::entries::{Entry, place_of, waiting_members};
use crate::group::Group;
use arrayvec::ArrayVec;
use gl_modes::Mode;
use gl_slots::{SLOTS, Slot};
use smallvec::SmallVec;
use std::alloc::AllocError;

/// How many waiters a queue stores without an allocation.
const INLINE: usize = 4;

/// A queue, which allocates no memory while it is short.
pub(crate) type Queue = SmallVec<Entry, INLINE>;

/// The slots that a release granted, in the queue's order, each with the mode that it now holds.
pub type GrantList = ArrayVec<(Slot, Mode), SLOTS>;

/// Queues a slot that holds the mode `held`: a member after the waiting members, a newcomer last.
#[tactic(auto, using(crate::proofs::Steps::placed_steps))]
pub(crate) fn enqueue(
    group: &Group,
    queue: &mut Queue,
    slot: Slot,
    held: Mode,
    wanted: Mode,
) -> Result<(), AllocError>
    requires group { IsGroup group.now }
    requires held { held ≡ held_by group.now slot }
    ensures ok { OnOk result (queue.new.items ≡ placed_in (held_by group.now) queue.old.items (slot, wanted)) }
    ensures err { OnErr result (queue.new.items ≡ queue.old.items) }
{
    if held == Mode::NL {
        queue.push((slot, wanted))?;
    } else {
        let place = waiting_members(group, queue);
        queue.insert(place, (slot, wanted))?;
    }
    Ok(())
}

/// Removes the slot's entry.
#[tactic(auto, using(crate::proofs::Steps::list_steps))]
pub(crate) fn take_out(queue: &mut Queue, slot: Slot)
    ensures { queue.new.items ≡ without queue.old.items slot }
{
    if let Some(place) = place_of(queue, slot) {
        queue.remove(place);
    }
}

/// Removes the first `count` waiters, and moves up the others once.
fn take_front(queue: &mut Queue, count: usize)
    requires { count ≤ length queue.old.items }
    ensures { queue.new.items ≡ drop count queue.old.items }
{
    if count > 0 {
        queue.drain(..count);
    }
}

/// Grants from the front of the queue, and stops at the first waiter that is incompatible. `granted`
/// is cleared, and then lists the granted slots in the queue's order.
#[inline]
pub(crate) fn pump(group: &mut Group, queue: &mut Queue, granted: &mut GrantList)
    requires group { IsGroup group.old }
    requires orderly { IsOrderly (held_by group.old) queue.old.items }
    ensures group { IsGroup group.new }
    ensures granted { granted.new.items ≡ front slot_limit (held_by group.old) queue.old.items }
    ensures members { held_by group.new ≡ pumped_members slot_limit (held_by group.old) queue.old.items }
    ensures queue { queue.new.items ≡ pumped_queue slot_limit (held_by group.old) queue.old.items }
{
    granted.clear();
    if !queue.is_empty() {
        grant_front(group, queue, granted); // Usually nobody waits.
    }
}

/// As `pump`, with an empty list.
#[inline(never)]
fn grant_front(group: &mut Group, queue: &mut Queue, granted: &mut GrantList)
    requires group { IsGroup group.old }
    requires orderly { IsOrderly (held_by group.old) queue.old.items }
    requires none { granted.old.items ≡ [] }
    ensures group { IsGroup group.new }
    ensures granted { granted.new.items ≡ front slot_limit (held_by group.old) queue.old.items }
    ensures members { held_by group.new ≡ pumped_members slot_limit (held_by group.old) queue.old.items }
    ensures queue { queue.new.items ≡ pumped_queue slot_limit (held_by group.old) queue.old.items }
{
    for &(slot, mode) in queue.iter() {
        if !group.fits_others(slot, mode) {
            break;
        }
        let held = group.mode_of(slot);
        group.hold(slot, held, mode);
        granted.push((slot, mode));
    }
    take_front(queue, granted.len());
}
