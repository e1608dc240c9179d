//! One place: what is stored at a node's key; and the spare boxes.

ghost use Rattle.gl_slots.specs.Limit.{most_slots};
ghost use Rattle.std.specs.Prelude.{◌≡◌, ◌≢◌, ◌<◌, ◌≤◌, ℕ, [], IfOk, IsOk, OnErr, OnOk, false, length, true};
ghost use Rattle.std.specs.List.{All};
ghost use Rattle.gl_modes.specs.declared.mode.Mode.TheVariants.{NL};
ghost use Rattle.gl_header.specs.Answers.{MayAsk, asked};
ghost use Rattle.gl_header.specs.Header.{
  front,
  holds,
  is_among_waiters,
  pumped_members,
  pumped_queue,
  with_mode,
  without_waiter,
};
ghost use Rattle.gl_header.specs.State.{is_granted, members_of, slot_limit};
ghost use Rattle.gl_header.specs.Places.{
  IsAskedPlace,
  IsHeldBox,
  IsIdle,
  IsPlace,
  IsPlaceAfter,
  IsPlaceFor,
  IsPumped,
  entries_in,
  header_in,
  header_of,
  is_boxed,
  members_by,
  place_at,
  queue_by,
  seen_header,
  stands,
};
ghost use Rattle.gl_header.specs.declared.places.Place.TheVariants.{Free, Shared as SharedPlace};
ghost use Rattle.gl_header.specs.declared.places.Shared.{Shared as SharedBox};
ghost use Rattle.std.specs.declared.boxed.Box.{Box};
ghost use Rattle.std.specs.Global.{Global};

use crate::changes::GrantList;
use crate::header::{Asked, Header};
use gl_modes::{Mode, sup};
use gl_slots::Slot;
use std::alloc::{AllocError, Global};
use std::mem;

/// What is stored at a node's key, in 16 bytes.
#[derive(Drop)]
pub(crate) enum Place {
    /// No node with this key has a holder or a waiter.
    Free,
    /// One slot holds the node of this birth, and nobody waits.
    Held { slot: Slot, mode: Mode, birth: u64 },
    /// The node has several holders or a waiter, or had them since it was last free: a node with now
    /// one holder and now two keeps its box.
    Shared(Box<Shared>),
}

const _: () = prove!(size_of::<Place>() == 16);

/// The header of a node, with the node's birth.
#[derive(Drop)]
pub(crate) struct Shared {
    pub(crate) birth: u64,
    pub(crate) header: Header,
}

/// The holders and waiters of a node.
#[derive(Clone, Copy)]
pub(crate) enum Seen<'a> {
    /// Nobody holds it, and nobody waits.
    Nobody,
    /// This slot alone holds it, in this mode, and nobody waits.
    One(Slot, Mode),
    /// The header has them.
    Shared(&'a Header),
}

/// What a place stores of the node of this birth.
pub(crate) fn seen_in(place: &Place, birth: u64) -> Seen<'_>
    ensures { seen_header result ≡ header_in birth (stands place.now) }
{
    match place {
        Place::Held {
            slot,
            mode,
            birth: own,
        } if *own == birth => Seen::One(*slot, *mode),
        Place::Shared(here) if here.birth == birth => Seen::Shared(&here.header),
        _ => Seen::Nobody,
    }
}

/// Makes places up to that of a key. Allocates before it changes anything.
#[inline]
pub(crate) fn grow(places: &mut Vec<Place>, key: usize) -> Result<(), AllocError>
    ensures kept { (k : ℕ) → place_at places.new.items k ≡ place_at places.old.items k }
    ensures entries { entries_in places.new.items ≡ entries_in places.old.items }
    ensures room { OnOk result (key < length places.new.items) }
    ensures grows { length places.old.items ≤ length places.new.items }
    ensures there { key < length places.old.items → IsOk result }
{
    if key < places.len() {
        return Ok(()); // The usual case.
    }
    add_places(places, key)
}

/// Makes places up to that of a key without one, and as many more as the new room allows.
#[cold]
#[inline(never)]
fn add_places(places: &mut Vec<Place>, key: usize) -> Result<(), AllocError>
    requires { length places.old.items ≤ key }
    ensures kept { (k : ℕ) → place_at places.new.items k ≡ place_at places.old.items k }
    ensures entries { entries_in places.new.items ≡ entries_in places.old.items }
    ensures room { OnOk result (key < length places.new.items) }
    ensures grows { length places.old.items ≤ length places.new.items }
{
    let Some(len) = key.checked_add(1) else {
        return Err(AllocError);
    };
    places.reserve(len - places.len())?;
    places.resize_with(places.capacity(), || Place::Free)?;
    Ok(())
}

/// A box with an unused header for a node of this birth: a spare one, or else a new one.
fn take_box(
    alloc: Global,
    spare: &mut Vec<Box<Shared>>,
    birth: u64,
) -> Result<Box<Shared>, AllocError>
    requires { All IsIdle spare.old.items }
    ensures spare { All IsIdle spare.new.items }
    ensures idle { IfOk result IsIdle }
    ensures birth { IfOk result (λ b. b.value.birth ≡ birth) }
{
    if let Some(mut here) = spare.pop() {
        here.birth = birth;
        return Ok(here);
    }
    let header = Header::new(alloc);
    header.law();
    match Box::new(alloc, Shared { birth, header }) {
        Ok(here) => Ok(here),
        Err(_) => Err(AllocError),
    }
}

/// A box for a node of this birth that one slot holds in this mode, without waiters.
#[inline(never)]
fn share(
    alloc: Global,
    spare: &mut Vec<Box<Shared>>,
    birth: u64,
    slot: Slot,
    mode: Mode,
) -> Result<Box<Shared>, AllocError>
    requires spare { All IsIdle spare.old.items }
    requires below { slot < most_slots }
    requires lock { mode ≢ NL }
    ensures spare { All IsIdle spare.new.items }
    ensures held { IfOk result (IsHeldBox birth slot mode) }
{
    let mut here = take_box(alloc, spare, birth)?;
    here.header.hold_first(slot, mode);
    Ok(here)
}

/// Requests a mode at a place that has the node of this birth or none, if the slot holds the mode
/// `held`. A first holder and its conversions are stored in place; a second slot needs a box. If
/// memory is lacking, the place stays as it is.
pub(crate) fn ask_at(
    place: &mut Place,
    alloc: Global,
    spare: &mut Vec<Box<Shared>>,
    birth: u64,
    slot: Slot,
    held: Mode,
    mode: Mode,
) -> Result<Asked, AllocError>
    requires place { IsPlaceFor birth place.old }
    requires spare { All IsIdle spare.old.items }
    requires may { MayAsk (queue_by place.old) slot mode }
    requires held { held ≡ members_by place.old slot }
    ensures spare { All IsIdle spare.new.items }
    ensures answer { IfOk result (λ answer. answer ≡ asked (header_of (stands place.old)) slot mode) }
    ensures stands { OnOk result (IsAskedPlace place.old birth slot mode place.new) }
    ensures err { OnErr result (place.new ≡ place.old) }
    ensures member { holds (members_by place.old) slot ≡ true → is_granted (header_of (stands place.old)) slot mode ≡ true → IsOk result }
{
    match place {
        Place::Free => {
            *place = Place::Held { slot, mode, birth };
            Ok(Asked::Granted(mode))
        }
        Place::Held {
            slot: holder,
            mode: own,
            ..
        } if *holder == slot => {
            *own = sup(held, mode);
            Ok(Asked::Granted(*own))
        }
        Place::Held {
            slot: holder,
            mode: other,
            ..
        } => {
            let mut here = share(alloc, spare, birth, *holder, *other)?;
            let asked = here.header.enter_or_wait(slot, held, mode)?;
            *place = Place::Shared(here);
            Ok(asked)
        }
        Place::Shared(here) => here.header.enter_or_wait(slot, held, mode),
    }
}

/// Releases a grant at a place, and grants from the front of the queue there. Allocates no memory.
#[inline]
pub(crate) fn drop_grant_at(
    place: &mut Place,
    spare: &mut Vec<Box<Shared>>,
    slot: Slot,
    granted: &mut GrantList,
)
    requires place { IsPlace place.old }
    requires spare { All IsIdle spare.old.items }
    requires holds { holds (members_by place.old) slot ≡ true }
    requires not_waiting { is_among_waiters slot (queue_by place.old) ≡ false }
    ensures granted { granted.new.items ≡ front slot_limit (with_mode (members_by place.old) slot NL) (queue_by place.old) }
    ensures pumped { IsPumped (with_mode (members_by place.old) slot NL) (queue_by place.old) place.new }
    ensures place { IsPlaceAfter place.old place.new }
    ensures spare { All IsIdle spare.new.items }
{
    match place {
        Place::Shared(here) => {
            here.header.drop_grant(slot, granted);
            sweep(place, spare);
        }
        _ => {
            *place = Place::Free; // The slot held it alone.
            granted.clear();
        }
    }
}

/// Removes a wait at a place, and grants from the front of the queue there. Allocates no memory.
pub(crate) fn drop_wait_at(
    place: &mut Place,
    spare: &mut Vec<Box<Shared>>,
    slot: Slot,
    granted: &mut GrantList,
)
    requires spare { All IsIdle spare.old.items }
    requires waits { is_among_waiters slot (queue_by place.old) ≡ true }
    ensures granted { granted.new.items ≡ front slot_limit (members_by place.old) (without_waiter slot (queue_by place.old)) }
    ensures pumped { IsPumped (members_by place.old) (without_waiter slot (queue_by place.old)) place.new }
    ensures place { IsPlaceAfter place.old place.new }
    ensures spare { All IsIdle spare.new.items }
{
    match place {
        Place::Shared(here) => {
            here.header.drop_wait(slot, granted);
            sweep(place, spare);
        }
        _ => unreachable!(),
    }
}

/// Removes a wait at a place, if no waiter at the front of the remaining queue can be granted.
pub(crate) fn dismiss_at(place: &mut Place, spare: &mut Vec<Box<Shared>>, slot: Slot)
    requires spare { All IsIdle spare.old.items }
    requires waits { is_among_waiters slot (queue_by place.old) ≡ true }
    requires front_waits { front slot_limit (members_by place.old) (without_waiter slot (queue_by place.old)) ≡ [] }
    ensures members { members_by place.new ≡ members_by place.old }
    ensures queue { queue_by place.new ≡ without_waiter slot (queue_by place.old) }
    ensures place { IsPlaceAfter place.old place.new }
    ensures spare { All IsIdle spare.new.items }
{
    match place {
        Place::Shared(here) => {
            here.header.dismiss(slot);
            sweep(place, spare);
        }
        _ => unreachable!(),
    }
}

/// Frees a place whose box has no holder and no waiter any more.
#[inline]
fn sweep(place: &mut Place, spare: &mut Vec<Box<Shared>>)
    requires spare { All IsIdle spare.old.items }
    requires boxed { is_boxed place.old ≡ true }
    ensures members { members_by place.new ≡ members_by place.old }
    ensures queue { queue_by place.new ≡ queue_by place.old }
    ensures place { IsPlaceAfter place.old place.new }
    ensures spare { All IsIdle spare.new.items }
{
    let Place::Shared(here) = place else {
        unreachable!()
    };
    here.header.law();
    if here.header.is_empty() {
        set_aside(place, spare);
    }
}

/// Removes a box from its place. It becomes a spare if there is room for it, so that this allocates no
/// memory.
fn set_aside(place: &mut Place, spare: &mut Vec<Box<Shared>>)
    requires spare { All IsIdle spare.old.items }
    requires idle { (x : Box SharedBox Global) → place.old ≡ SharedPlace x → IsIdle x }
    ensures free { place.new ≡ Free }
    ensures spare { All IsIdle spare.new.items }
{
    if let Place::Shared(here) = mem::replace(place, Place::Free) {
        if spare.len() < spare.capacity() {
            spare.push_reserved(here);
        }
    }
}
