//! The granted group of one node: its holders by mode.

ghost use Rattle.gl_slots.specs.Limit.{most_slots};
ghost use Rattle.std.specs.Prelude.{◌≡◌, ◌≢◌, ℕ, ◌<◌, ◌↔◌, ◌&&◌, IsTrue, not, true};
ghost use Rattle.gl_modes.specs.Modes.{are_compatible};
ghost use Rattle.gl_modes.specs.declared.mode.Mode.TheVariants.{NL};
ghost use Rattle.gl_slots.specs.Slots.{has_slot};
ghost use Rattle.gl_header.specs.Groups.{GoesBeside, IsGroup, group_mode, held_by, no_group, nobody};
ghost use Rattle.gl_header.specs.Header.{fits, holds, with_mode};
ghost use Rattle.gl_header.specs.State.{nobody_holds, slot_limit};

use gl_modes::{Mode, compatible, sup};
use gl_slots::{Slot, Slots};

/// The holders of one node. Different slots hold compatible modes, so besides `IS` at most one mode is
/// held, and two sets of slots are enough.
#[derive(Clone, Copy, PartialEq, Eq, Debug)]
pub struct Group {
    /// The mode that is held besides `IS`; `NL` if there is none.
    mode: Mode,
    /// The slots that hold it.
    holders: Slots,
    /// The slots that hold `IS`.
    intents: Slots,
}

impl Group {
    /// A group without holders.
    pub(crate) fn new() -> Self
        ensures group { IsGroup result }
        ensures nobody { result ≡ no_group }
    {
        Group {
            mode: Mode::NL,
            holders: Slots::empty(),
            intents: Slots::empty(),
        }
    }

    /// A group with this slot as its only holder, in this mode.
    pub(crate) fn of(slot: Slot, mode: Mode) -> Self
        requires below { slot < most_slots }
        requires lock { mode ≢ NL }
        ensures group { IsGroup result }
        ensures held { held_by result ≡ with_mode nobody slot mode }
    {
        let mut group = Group::new();
        group.hold(slot, Mode::NL, mode);
        group
    }

    /// The mode that a slot holds; `NL` if it holds none.
    pub(crate) fn mode_of(&self, slot: Slot) -> Mode
        ensures { result ≡ held_by self.now slot }
    {
        if self.holders.contains(slot) {
            self.mode
        } else if self.intents.contains(slot) {
            Mode::IS
        } else {
            Mode::NL
        }
    }

    /// Whether a slot holds a lock.
    pub(crate) fn has(&self, slot: Slot) -> bool
        requires { IsGroup self.now }
        ensures { result ≡ holds (held_by self.now) slot }
    {
        self.mode_of(slot) != Mode::NL
    }

    /// Whether there is no holder.
    #[inline]
    pub(crate) fn is_empty(&self) -> bool
        requires { IsGroup self.now }
        ensures { result ≡ nobody_holds slot_limit (held_by self.now) }
    {
        self.mode == Mode::NL && self.intents.is_empty()
    }

    /// The supremum of the held modes.
    pub(crate) fn supremum(&self) -> Mode
        ensures { result ≡ group_mode self.now }
    {
        if self.intents.is_empty() {
            self.mode
        } else {
            sup(self.mode, Mode::IS)
        }
    }

    /// Whether `mode` is compatible with what every other slot holds.
    #[inline]
    pub(crate) fn fits_others(&self, slot: Slot, mode: Mode) -> bool
        requires { IsGroup self.now }
        ensures { result ≡ fits slot_limit (held_by self.now) slot mode }
    {
        goes_beside(&self.holders, self.mode, slot, mode)
            && goes_beside(&self.intents, Mode::IS, slot, mode)
    }

    /// The slots that hold a mode incompatible with `mode`.
    pub(crate) fn opposed(&self, mode: Mode) -> Slots
        requires { IsGroup self.now }
        ensures { (u : ℕ) → has_slot result u ≡ not (are_compatible mode (held_by self.now u)) }
    {
        opposed_in(self.holders, self.mode, mode).union(opposed_in(self.intents, Mode::IS, mode))
    }

    /// Gives `slot` the mode in place of what it held. Allocates no memory.
    #[inline]
    pub(crate) fn hold(&mut self, slot: Slot, held: Mode, mode: Mode)
        requires group { IsGroup self.old }
        requires below { slot < most_slots }
        requires held { held ≡ held_by self.old slot }
        requires lock { mode ≢ NL }
        requires fits { fits slot_limit (held_by self.old) slot mode ≡ true }
        ensures group { IsGroup self.new }
        ensures held { held_by self.new ≡ with_mode (held_by self.old) slot mode }
    {
        self.leave(slot, held);
        if mode == Mode::IS {
            self.intents.insert(slot);
        } else {
            self.mode = mode;
            self.holders.insert(slot);
        }
    }

    /// Releases what `slot` holds, if anything.
    #[inline]
    fn leave(&mut self, slot: Slot, held: Mode)
        requires group { IsGroup self.old }
        requires held { held ≡ held_by self.old slot }
        ensures group { IsGroup self.new }
        ensures held { held_by self.new ≡ with_mode (held_by self.old) slot NL }
    {
        if held != Mode::NL {
            self.release(slot); // A newcomer holds nothing.
        }
    }

    /// Releases what `slot` holds.
    pub(crate) fn release(&mut self, slot: Slot)
        requires { IsGroup self.old }
        ensures group { IsGroup self.new }
        ensures held { held_by self.new ≡ with_mode (held_by self.old) slot NL }
    {
        if self.intents.contains(slot) {
            self.intents.remove(slot);
            return; // The other set stays.
        }
        self.holders.remove(slot);
        if self.holders.is_empty() {
            self.mode = Mode::NL;
        }
    }
}

/// Whether `mode` is compatible with `held`, or the set has no slot but this one.
#[inline]
fn goes_beside(set: &Slots, held: Mode, slot: Slot, mode: Mode) -> bool
    ensures { IsTrue result ↔ GoesBeside set.now held slot mode }
{
    compatible(mode, held) || set.without(slot).is_empty()
}

/// The set, if `mode` is incompatible with `held`; else no slot.
fn opposed_in(set: Slots, held: Mode, mode: Mode) -> Slots
    ensures { (u : ℕ) → has_slot result u ≡ (has_slot set u && not (are_compatible mode held)) }
{
    if compatible(mode, held) {
        Slots::empty()
    } else {
        set
    }
}
