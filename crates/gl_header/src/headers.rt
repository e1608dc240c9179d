//! The headers of all nodes: one for each node with a holder or a waiter, and no other.

ghost use Rattle.gl_slots.specs.Limit.{most_slots};
ghost use Rattle.std.specs.Prelude.{
  ◌≡◌,
  ◌≢◌,
  ◌<◌,
  ◌≤◌,
  ◌==◌,
  ◌&&◌,
  ◌||◌,
  ◌↔◌,
  ℕ,
  [],
  IfErr,
  IfNone,
  IfOk,
  IfSome,
  IsOk,
  IsTrue,
  OnErr,
  OnOk,
  Some,
  false,
  is_some,
  not,
  true,
};
ghost use Rattle.gl_modes.specs.declared.mode.Mode.TheVariants.{NL};
ghost use Rattle.gl_modes.specs.declared.refusal.Refusal.{Refusal as ARefusal};
ghost use Rattle.gl_modes.specs.Modes.{are_compatible};
ghost use Rattle.gl_slots.specs.Slots.{has_slot};
ghost use Rattle.gl_header.specs.Answers.{MayAsk, asked};
ghost use Rattle.gl_header.specs.Header.{
  front,
  group_of,
  hinders,
  holds,
  is_ahead,
  is_among_waiters,
  placed,
  pumped_members,
  pumped_queue,
  with_mode,
  without_waiter,
};
ghost use Rattle.gl_header.specs.State.{HeaderState, IsLawfulHeader, members_of, slot_limit};
ghost use Rattle.gl_header.specs.Places.{seen_header};
ghost use Rattle.gl_header.specs.Headers.{
  AreByKey,
  AreDistinct,
  AreHeaders,
  HasItsKey,
  IfRaised,
  IsAskedAt,
  IsFreeKey,
  IsOneHolder,
  header_at,
  header_or_new,
  held_of,
  is_granted_at,
  members_at,
  queue_of,
  wanted_at,
  with_members,
  with_waiters,
};

use crate::changes::GrantList;
use crate::header::{Asked, Header};
use crate::places::{
    Place, Seen, Shared, ask_at, dismiss_at, drop_grant_at, drop_wait_at, grow, seen_in,
};
use gl_modes::{Mode, NodeId, Refusal, compatible, covers, sup};
use gl_slots::{Slot, Slots};
use std::alloc::{AllocError, Global};
use std::marker::Model;
use std::mem;

/// The most spare boxes: freeing one takes as long as releasing its node.
const SPARE: usize = 1024;

/// A header for each node with a holder or a waiter. It is found by the node's key, without a hash: an
/// unlocked key costs 16 bytes, and two nodes with the same key are never locked at the same time.
///
/// A node with one holder and no queue has its header in place. The second requester takes a spare
/// box, if there is one.
#[derive(Drop)]
pub struct Headers {
    alloc: Global,
    /// By key, the header of the node that has a holder or a waiter.
    places: Vec<Place>,
    /// Boxes with unused headers.
    spare: Vec<Box<Shared>>,
}

impl Model for Headers {
    ghost use Rattle.gl_header.specs.Headers.{HeadersState};

    ghost Value = { HeadersState };

    ghost use Rattle.gl_header.specs.Places.{AreKept, headers_of};

    ghost view = { headers_of };

    ghost invariant = { AreKept };
}

/// The header of a node that does not exist yet: the one grant that it will have.
#[derive(Drop)]
pub struct Prepared {
    slot: Slot,
    mode: Mode,
}

impl Model for Prepared {
    ghost use Rattle.gl_header.specs.State.{HeaderState};

    ghost Value = { HeaderState };

    ghost use Rattle.gl_header.specs.Places.{IsNeeded, prepared_header};

    ghost view = { prepared_header };

    ghost invariant = { IsNeeded };
}

impl Headers {
    /// Headers without any node.
    pub fn new(alloc: Global) -> Result<Self, AllocError>
        ensures { IfOk result (λ headers. headers.entries ≡ []) }
    {
        Ok(Headers {
            alloc,
            places: Vec::new(alloc),
            spare: Vec::with_capacity(alloc, SPARE)?,
        })
    }

    /// The law of all headers: each is lawful and has a holder or a waiter, no node has two, and at
    /// most one node of each key has one.
    pub fn law(&self)
        ensures headers { AreHeaders self.now.entries }
        ensures distinct { AreDistinct self.now.entries }
        ensures by_key { AreByKey self.now.entries }
    {
        let _ = self.places.len();
    }

    /// Whether no node with this key has a holder or a waiter.
    pub fn is_free(&self, key: usize) -> bool
        ensures { IsTrue result ↔ IsFreeKey self.now.entries key }
    {
        match self.places.get(key) {
            Some(place) => matches!(place, Place::Free),
            None => true,
        }
    }

    /// The holders and waiters of a node.
    fn seen(&self, node: NodeId) -> Seen<'_>
        ensures is { seen_header result ≡ header_at self.now.entries node }
        ensures lawful { (header : HeaderState) → header_at self.now.entries node ≡ Some header → IsLawfulHeader header }
    {
        match self.places.get(node.key) {
            Some(place) => seen_in(place, node.birth),
            None => Seen::Nobody,
        }
    }

    /// Whether nobody holds a node or waits for it.
    pub fn is_idle(&self, node: NodeId) -> bool
        ensures { result ≡ not (is_some (header_at self.now.entries node)) }
    {
        matches!(self.seen(node), Seen::Nobody)
    }

    /// The header of a node with several holders or a waiter. `None` means that nobody waits.
    pub fn shared(&self, node: NodeId) -> Option<&Header>
        ensures some { IfSome result (λ header. header_at self.now.entries node ≡ Some header.now) }
        ensures none { IfNone result (queue_of self.now.entries node ≡ []) }
    {
        match self.seen(node) {
            Seen::Shared(header) => Some(header),
            _ => None,
        }
    }

    /// The group mode of a node.
    pub fn group(&self, node: NodeId) -> Mode
        ensures { result ≡ group_of slot_limit (members_at self.now.entries node) }
    {
        match self.seen(node) {
            Seen::Nobody => Mode::NL,
            Seen::One(_, mode) => mode,
            Seen::Shared(header) => header.group(),
        }
    }

    /// The mode in which a slot holds a node, `NL` for none.
    #[inline]
    pub fn mode_of(&self, slot: Slot, node: NodeId) -> Mode
        ensures { result ≡ held_of self.now.entries slot node }
    {
        match self.seen(node) {
            Seen::Nobody => Mode::NL,
            Seen::One(holder, mode) if holder == slot => mode,
            Seen::One(..) => Mode::NL,
            Seen::Shared(header) => header.mode_of(slot),
        }
    }

    /// The slots that hold a node.
    pub fn holders(&self, node: NodeId) -> Slots
        ensures { (u : ℕ) → has_slot result u ≡ holds (members_at self.now.entries node) u }
    {
        match self.seen(node) {
            Seen::Nobody => Slots::empty(),
            Seen::One(holder, _) => only(holder),
            Seen::Shared(header) => header.opposed(Mode::X), // No lock is compatible with X.
        }
    }

    /// The waiters of a node in the queue's order, each with its wanted mode.
    pub fn queue(&self, node: NodeId) -> &[(Slot, Mode)]
        ensures { result.now ≡ queue_of self.now.entries node }
    {
        match self.seen(node) {
            Seen::Shared(header) => header.queue(),
            _ => &[],
        }
    }

    /// Whether a slot holds a node in `S` or greater, or holds it while somebody waits for it.
    pub fn hinders(&self, slot: Slot, node: NodeId) -> bool
        ensures { result ≡ hinders (members_at self.now.entries node) (queue_of self.now.entries node) slot }
    {
        match self.seen(node) {
            Seen::Nobody => false,
            Seen::One(holder, mode) => holder == slot && covers(mode, Mode::S),
            Seen::Shared(header) => header.hinders(slot),
        }
    }

    /// The slots for which `slot` waits, if it waits on this node for `wanted`: the holders of
    /// incompatible modes, and the waiters ahead of it.
    pub fn waits_for(&self, slot: Slot, node: NodeId, wanted: Mode) -> Slots
        requires { slot < most_slots }
        ensures { (u : ℕ) → has_slot result u ≡ (not (slot == u)
            && (not (are_compatible wanted (held_of self.now.entries u node)) || is_ahead (queue_of self.now.entries node) slot u)) }
    {
        match self.seen(node) {
            Seen::Shared(header) => header.waits_for(slot, wanted),
            Seen::One(holder, mode) if holder != slot && !compatible(wanted, mode) => only(holder),
            _ => Slots::empty(),
        }
    }

    /// Whether `ask` would grant at once, if the slot holds the node in the mode `held`.
    pub fn would_grant(&self, slot: Slot, node: NodeId, held: Mode, mode: Mode) -> bool
        requires held { held ≡ held_of self.now.entries slot node }
        ensures { result ≡ is_granted_at self.now.entries slot node mode }
    {
        match self.seen(node) {
            Seen::Nobody => true,
            Seen::One(holder, other) => holder == slot || compatible(mode, other),
            Seen::Shared(header) => header.enters(slot, held, sup(held, mode)),
        }
    }

    /// Requests a mode, if the slot holds the node in the mode `held`: it is granted at once, or the
    /// slot waits in the queue. The only refusal is `NoMemory`; a member's request that is granted at
    /// once is never refused.
    pub fn ask(
        &mut self,
        slot: Slot,
        node: NodeId,
        held: Mode,
        mode: Mode,
    ) -> Result<Asked, Refusal>
        requires may { MayAsk (queue_of self.old.entries node) slot mode }
        requires held { held ≡ held_of self.old.entries slot node }
        requires alone { HasItsKey self.old.entries node }
        ensures answer { IfOk result (λ answer. answer ≡ asked (header_or_new (header_at self.old.entries node)) slot mode) }
        ensures asked { OnOk result (IsAskedAt self.old.entries slot node mode self.new.entries) }
        ensures err { OnErr result (self.new.entries ≡ self.old.entries) }
        ensures room { self.old.room ≤ self.new.room }
        ensures no_memory { IfErr result (λ refusal. refusal ≡ ARefusal.NoMemory) }
        ensures member { IfRaised self.old.entries slot node mode (IsOk result) }
    {
        let Ok(()) = grow(&mut self.places, node.key) else {
            return Err(Refusal::NoMemory);
        };
        let place = &mut self.places[node.key];
        let spare = &mut self.spare;
        let Ok(asked) = ask_at(place, self.alloc, spare, node.birth, slot, held, mode) else {
            return Err(Refusal::NoMemory);
        };
        Ok(asked)
    }

    /// Releases a grant, and grants from the front of the node's queue. `granted` is cleared, and then
    /// lists the granted slots in the queue's order. Allocates no memory.
    #[inline(always)]
    pub fn drop_grant(&mut self, slot: Slot, node: NodeId, granted: &mut GrantList)
        requires holds { holds (members_at self.old.entries node) slot ≡ true }
        requires not_waiting { is_among_waiters slot (queue_of self.old.entries node) ≡ false }
        ensures granted { granted.new.items ≡ front slot_limit (with_mode (members_at self.old.entries node) slot NL) (queue_of self.old.entries node) }
        ensures held { held_of self.new.entries ≡ with_members (held_of self.old.entries) node
            (pumped_members slot_limit (with_mode (members_at self.old.entries node) slot NL) (queue_of self.old.entries node)) }
        ensures queue { queue_of self.new.entries ≡ with_waiters (queue_of self.old.entries) node
            (pumped_queue slot_limit (with_mode (members_at self.old.entries node) slot NL) (queue_of self.old.entries node)) }
        ensures room { self.new.room ≡ self.old.room }
    {
        let place = &mut self.places[node.key];
        drop_grant_at(place, &mut self.spare, slot, granted);
    }

    /// Removes a wait, and grants from the front of the node's queue. `granted` is cleared, and then
    /// lists the granted slots in the queue's order. Allocates no memory.
    pub fn drop_wait(&mut self, slot: Slot, node: NodeId, granted: &mut GrantList)
        requires { is_among_waiters slot (queue_of self.old.entries node) ≡ true }
        ensures granted { granted.new.items ≡ front slot_limit (members_at self.old.entries node) (without_waiter slot (queue_of self.old.entries node)) }
        ensures held { held_of self.new.entries ≡ with_members (held_of self.old.entries) node
            (pumped_members slot_limit (members_at self.old.entries node) (without_waiter slot (queue_of self.old.entries node))) }
        ensures queue { queue_of self.new.entries ≡ with_waiters (queue_of self.old.entries) node
            (pumped_queue slot_limit (members_at self.old.entries node) (without_waiter slot (queue_of self.old.entries node))) }
        ensures room { self.new.room ≡ self.old.room }
    {
        let place = &mut self.places[node.key];
        drop_wait_at(place, &mut self.spare, slot, granted);
    }

    /// Removes a wait, and grants nobody. No waiter at the front of the remaining queue may be
    /// grantable. Allocates no memory.
    pub fn dismiss(&mut self, slot: Slot, node: NodeId)
        requires waits { is_among_waiters slot (queue_of self.old.entries node) ≡ true }
        requires front_waits { front slot_limit (members_at self.old.entries node) (without_waiter slot (queue_of self.old.entries node)) ≡ [] }
        ensures held { held_of self.new.entries ≡ held_of self.old.entries }
        ensures queue { queue_of self.new.entries ≡ with_waiters (queue_of self.old.entries) node (without_waiter slot (queue_of self.old.entries node)) }
        ensures room { self.new.room ≡ self.old.room }
    {
        dismiss_at(&mut self.places[node.key], &mut self.spare, slot);
    }

    /// Removes all grants and waits of a node. Returns its header if several held the node or somebody
    /// waited; `None` means that nobody waited.
    pub fn take(&mut self, node: NodeId) -> Option<Header>
        ensures held { held_of self.new.entries ≡ with_members (held_of self.old.entries) node (λ _. NL) }
        ensures queue { queue_of self.new.entries ≡ with_waiters (queue_of self.old.entries) node [] }
        ensures taken { IfSome result (λ header. header_at self.old.entries node ≡ Some header) }
        ensures none { IfNone result (queue_of self.old.entries node ≡ []) }
        ensures room { self.new.room ≡ self.old.room }
    {
        if self.is_idle(node) {
            return None;
        }
        match mem::replace(&mut self.places[node.key], Place::Free) {
            Place::Shared(here) => Some(Box::into_inner(here).header),
            _ => None,
        }
    }

    /// Makes room for a node with this key, and prepares a header in which this slot holds it. Locks
    /// stay as they are. The only refusal is `NoMemory`.
    pub fn prepare(&mut self, key: usize, slot: Slot, mode: Mode) -> Result<Prepared, Refusal>
        requires below { slot < most_slots }
        requires lock { mode ≢ Mode.NL }
        ensures entries { self.new.entries ≡ self.old.entries }
        ensures room { OnOk result (key < self.new.room) }
        ensures grows { self.old.room ≤ self.new.room }
        ensures holder { IfOk result (λ prepared. IsOneHolder prepared slot mode) }
        ensures no_memory { IfErr result (λ refusal. refusal ≡ ARefusal.NoMemory) }
    {
        let Ok(()) = grow(&mut self.places, key) else {
            return Err(Refusal::NoMemory);
        };
        Ok(Prepared { slot, mode })
    }

    /// Gives a node its prepared header. Allocates no memory.
    pub fn put(&mut self, node: NodeId, prepared: Prepared)
        requires room { node.key < self.old.room }
        requires free { IsFreeKey self.old.entries node.key }
        ensures held { held_of self.new.entries ≡ with_members (held_of self.old.entries) node (members_of prepared) }
        ensures queue { queue_of self.new.entries ≡ with_waiters (queue_of self.old.entries) node prepared.queue }
        ensures room { self.new.room ≡ self.old.room }
    {
        let Prepared { slot, mode } = prepared;
        self.places[node.key] = Place::Held {
            slot,
            mode,
            birth: node.birth,
        };
    }
}

/// The set of one slot.
fn only(slot: Slot) -> Slots
    requires { slot < most_slots }
    ensures { (u : ℕ) → has_slot result u ≡ (u == slot) }
{
    let mut slots = Slots::empty();
    slots.insert(slot);
    slots
}
