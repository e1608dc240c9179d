//! The header of one node.

ghost use Rattle.gl_slots.specs.Limit.{most_slots};
ghost use Rattle.std.specs.Prelude.{◌≡◌, ◌≢◌, ◌<◌, ◌==◌, ◌&&◌, ◌||◌, ℕ, [], IfErr, IfOk, IsOk, OnErr, OnOk, false, not, true};
ghost use Rattle.gl_modes.specs.declared.mode.Mode.TheVariants.{NL};
ghost use Rattle.gl_modes.specs.Modes.{are_compatible};
ghost use Rattle.gl_slots.specs.Slots.{has_slot};
ghost use Rattle.gl_header.specs.Answers.{MayAsk, asked, asked_members, asked_queue, tried};
ghost use Rattle.gl_header.specs.Groups.{mode_of_all, nobody};
ghost use Rattle.gl_header.specs.Header.{
  enters,
  front,
  group_of,
  hinders,
  holds,
  is_ahead,
  is_among_waiters,
  pumped_members,
  pumped_queue,
  wanted_by,
  with_mode,
  without_waiter,
};
ghost use Rattle.gl_header.specs.State.{
  HeaderState,
  IsLawfulHeader,
  is_granted,
  is_unused,
  members_of,
  slot_limit,
  unused_header,
};

use crate::changes::{GrantList, Queue, enqueue, pump, take_out};
use crate::entries::{ahead_of, has_entry, mode_in, place_of};
use crate::group::Group;
use gl_modes::{Mode, Refusal, covers, sup};
use gl_slots::{Slot, Slots};
use smallvec::SmallVec;
use std::alloc::{AllocError, Global};
use std::marker::Model;

/// The answer of `ask`.
#[derive(Clone, Copy, PartialEq, Eq, Debug)]
pub enum Asked {
    /// The slot now holds this mode.
    Granted(Mode),
    /// The slot waits in the queue.
    Waiting,
}

/// The answer of `try_ask`.
#[derive(Clone, Copy, PartialEq, Eq, Debug)]
pub enum Try {
    /// The slot now holds this mode.
    Granted(Mode),
    /// The slot would have to wait. Nothing has changed.
    WouldBlock,
}

/// The holders of one node with their modes, and its queue. Transactions are slots below `SLOTS`.
///
/// A member's request is a conversion: it passes the queue if its mode is compatible with the other
/// members' modes, and otherwise waits ahead of all newcomers. After each change, waiters are granted
/// from the front, up to the first that is incompatible.
///
/// A grant allocates no memory, and costs the same for any number of holders; only waits allocate.
#[derive(Drop)]
pub struct Header {
    granted: Group,
    queue: Queue,
}

impl Model for Header {
    ghost use Rattle.gl_header.specs.State.{HeaderState};

    ghost Value = { HeaderState };

    ghost use Rattle.gl_header.specs.Sound.{state_of, IsSound};

    ghost view = { state_of };

    ghost invariant = { IsSound };
}

impl Header {
    /// A header without members and waiters. Allocates no memory.
    pub fn new(alloc: Global) -> Self
        ensures { result ≡ unused_header }
    {
        Header {
            granted: Group::new(),
            queue: SmallVec::new(alloc),
        }
    }

    /// The law of every header: different slots hold compatible modes, so at most two modes are held;
    /// each waiter wants at least the mode that it holds, and members wait ahead of newcomers; the
    /// first waiter cannot be granted; and the group mode is the supremum of the held modes.
    pub fn law(&self)
        ensures lawful { IsLawfulHeader self.now }
    {
        let _ = &self.granted;
    }

    /// The group mode: the supremum of the members' modes; `NL` if nobody holds the node.
    pub fn group(&self) -> Mode
        ensures kept { result ≡ mode_of_all self.now.granted }
        ensures supremum { result ≡ group_of slot_limit (members_of self.now) }
    {
        self.granted.supremum()
    }

    /// The waiters from the front on, each with its wanted mode.
    pub fn queue(&self) -> &[(Slot, Mode)]
        ensures { result.now ≡ self.now.queue }
    {
        self.queue.as_slice()
    }

    /// The mode that a slot holds; `NL` if it holds none.
    pub fn mode_of(&self, slot: Slot) -> Mode
        ensures { result ≡ members_of self.now slot }
    {
        self.granted.mode_of(slot)
    }

    /// Whether a slot holds the node in `S` or greater, or holds it while somebody waits for it.
    pub fn hinders(&self, slot: Slot) -> bool
        ensures { result ≡ hinders (members_of self.now) self.now.queue slot }
    {
        let mode = self.mode_of(slot);
        covers(mode, Mode::S) || (mode != Mode::NL && !self.queue.is_empty())
    }

    /// The slots that hold a mode incompatible with `mode`.
    pub fn opposed(&self, mode: Mode) -> Slots
        ensures { (u : ℕ) → has_slot result u ≡ not (are_compatible mode (members_of self.now u)) }
    {
        self.granted.opposed(mode)
    }

    /// The mode that a slot waits for; `None` if it does not wait.
    pub fn wanted_by(&self, slot: Slot) -> Option<Mode>
        ensures { result ≡ wanted_by self.now.queue slot }
    {
        mode_in(&self.queue, slot)
    }

    /// Whether there is no holder and no waiter, so that the header can be freed.
    #[inline]
    pub fn is_empty(&self) -> bool
        ensures { result ≡ is_unused self.now }
    {
        self.granted.is_empty() && self.queue.is_empty()
    }

    /// Whether both slots wait, and `other` is ahead of `slot`.
    pub fn ahead(&self, slot: Slot, other: Slot) -> bool
        ensures { result ≡ is_ahead self.now.queue slot other }
    {
        match place_of(&self.queue, slot) {
            Some(place) => has_entry(&self.queue[..place], other),
            None => false,
        }
    }

    /// The slots for which `slot` waits, if it waits here for `wanted`: the holders of incompatible
    /// modes, and the waiters ahead of it.
    pub fn waits_for(&self, slot: Slot, wanted: Mode) -> Slots
        ensures { (u : ℕ) → has_slot result u ≡
            (not (slot == u) && (not (are_compatible wanted (members_of self.now u)) || is_ahead self.now.queue slot u)) }
    {
        let opposed = self.granted.opposed(wanted);
        opposed.union(ahead_of(&self.queue, slot)).without(slot)
    }

    /// Whether `ask` would grant at once: the wanted mode is compatible with the other members' modes,
    /// and the slot is a member or nobody waits.
    pub fn would_grant(&self, slot: Slot, mode: Mode) -> bool
        ensures { result ≡ is_granted self.now slot mode }
    {
        let held = self.mode_of(slot);
        self.enters(slot, held, sup(held, mode))
    }

    /// Whether a slot that holds the mode `held` is granted `wanted` at once.
    #[inline]
    pub(crate) fn enters(&self, slot: Slot, held: Mode, wanted: Mode) -> bool
        requires held { held ≡ members_of self.now slot }
        ensures { result ≡ enters slot_limit (members_of self.now) self.now.queue slot wanted }
    {
        (held != Mode::NL || self.queue.is_empty()) && self.granted.fits_others(slot, wanted)
    }

    /// Requests a mode: it is granted at once, or the slot waits in the queue. What is granted, now or
    /// later, is the supremum of the held and the requested mode.
    ///
    /// The only refusal is `NoMemory`; a request that is granted at once is never refused.
    pub fn ask(&mut self, slot: Slot, mode: Mode) -> Result<Asked, Refusal>
        requires may { MayAsk self.old.queue slot mode }
        ensures answer { IfOk result (λ answer. answer ≡ asked self.old slot mode) }
        ensures members { OnOk result (members_of self.new ≡ asked_members self.old slot mode) }
        ensures queue { OnOk result (self.new.queue ≡ asked_queue self.old slot mode) }
        ensures err { OnErr result (self.new ≡ self.old) }
        ensures no_memory { IfErr result (λ refusal. refusal ≡ Refusal.NoMemory) }
        ensures at_once { is_granted self.old slot mode ≡ true → IsOk result }
        ensures lawful { IsLawfulHeader self.new }
    {
        match self.enter_or_wait(slot, self.mode_of(slot), mode) {
            Ok(asked) => Ok(asked),
            Err(_) => Err(Refusal::NoMemory),
        }
    }

    /// As `ask`, if the slot holds the mode `held`. The type of its one refusal takes no space in the
    /// answer.
    pub(crate) fn enter_or_wait(
        &mut self,
        slot: Slot,
        held: Mode,
        mode: Mode,
    ) -> Result<Asked, AllocError>
        requires may { MayAsk self.old.queue slot mode }
        requires held { held ≡ members_of self.old slot }
        ensures answer { IfOk result (λ answer. answer ≡ asked self.old slot mode) }
        ensures members { OnOk result (members_of self.new ≡ asked_members self.old slot mode) }
        ensures queue { OnOk result (self.new.queue ≡ asked_queue self.old slot mode) }
        ensures err { OnErr result (self.new ≡ self.old) }
        ensures at_once { is_granted self.old slot mode ≡ true → IsOk result }
        ensures lawful { IsLawfulHeader self.new }
    {
        let wanted = sup(held, mode);
        if self.enters(slot, held, wanted) {
            self.granted.hold(slot, held, wanted);
            return Ok(Asked::Granted(wanted));
        }
        enqueue(&self.granted, &mut self.queue, slot, held, wanted)?;
        Ok(Asked::Waiting)
    }

    /// Gives a slot this mode in a header without holders and waiters. Allocates no memory.
    pub(crate) fn hold_first(&mut self, slot: Slot, mode: Mode)
        requires below { slot < most_slots }
        requires lock { mode ≢ Mode.NL }
        requires unused { is_unused self.old ≡ true }
        ensures members { members_of self.new ≡ with_mode nobody slot mode }
        ensures queue { self.new.queue ≡ [] }
        ensures lawful { IsLawfulHeader self.new }
    {
        self.granted = Group::of(slot, mode);
    }

    /// Requests a mode that is granted at once or not at all. Allocates no memory.
    pub fn try_ask(&mut self, slot: Slot, mode: Mode) -> Try
        requires may { MayAsk self.old.queue slot mode }
        ensures answer { result ≡ tried self.old slot mode }
        ensures members { members_of self.new ≡ asked_members self.old slot mode }
        ensures queue { self.new.queue ≡ self.old.queue }
        ensures unchanged { is_granted self.old slot mode ≡ false → self.new ≡ self.old }
        ensures lawful { IsLawfulHeader self.new }
    {
        let held = self.mode_of(slot);
        let wanted = sup(held, mode);
        if !self.enters(slot, held, wanted) {
            return Try::WouldBlock;
        }
        self.granted.hold(slot, held, wanted);
        Try::Granted(wanted)
    }

    /// Releases a slot's grant, and grants from the front of the queue. `granted` is cleared, and then
    /// lists the granted slots in the queue's order.
    ///
    /// Costs a step for each granted waiter and, if there is one, moving up the others.
    #[inline(never)]
    pub fn drop_grant(&mut self, slot: Slot, granted: &mut GrantList)
        requires holds { holds (members_of self.old) slot ≡ true }
        requires not_waiting { is_among_waiters slot self.old.queue ≡ false }
        ensures granted { granted.new.items ≡ front slot_limit (with_mode (members_of self.old) slot NL) self.old.queue }
        ensures members { members_of self.new ≡ pumped_members slot_limit (with_mode (members_of self.old) slot NL) self.old.queue }
        ensures queue { self.new.queue ≡ pumped_queue slot_limit (with_mode (members_of self.old) slot NL) self.old.queue }
        ensures lawful { IsLawfulHeader self.new }
    {
        self.granted.release(slot);
        pump(&mut self.granted, &mut self.queue, granted);
    }

    /// Removes a slot's wait, and grants from the front of the queue. `granted` is cleared, and then
    /// lists the granted slots in the queue's order.
    pub fn drop_wait(&mut self, slot: Slot, granted: &mut GrantList)
        requires { is_among_waiters slot self.old.queue ≡ true }
        ensures granted { granted.new.items ≡ front slot_limit (members_of self.old) (without_waiter slot self.old.queue) }
        ensures members { members_of self.new ≡ pumped_members slot_limit (members_of self.old) (without_waiter slot self.old.queue) }
        ensures queue { self.new.queue ≡ pumped_queue slot_limit (members_of self.old) (without_waiter slot self.old.queue) }
        ensures lawful { IsLawfulHeader self.new }
    {
        take_out(&mut self.queue, slot);
        pump(&mut self.granted, &mut self.queue, granted);
    }

    /// Removes a slot's wait, and grants nobody. No waiter at the front of the remaining queue may be
    /// grantable.
    pub fn dismiss(&mut self, slot: Slot)
        requires waits { is_among_waiters slot self.old.queue ≡ true }
        requires front_waits { front slot_limit (members_of self.old) (without_waiter slot self.old.queue) ≡ [] }
        ensures after { self.new ≡ record self.old { queue = without_waiter slot self.old.queue } }
        ensures lawful { IsLawfulHeader self.new }
    {
        take_out(&mut self.queue, slot); // Nobody is granted.
    }
}
