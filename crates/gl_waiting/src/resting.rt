//! Who of a table's transactions rest.

ghost use Rattle.gl_slots.specs.Slots.{HasNoSlot, has_slot, no_slots};
ghost use Rattle.std.specs.Prelude.{◌≡◌, ◌≤◌, ◌<◌, ◌&&◌, ◌||◌, ◌==◌, ◌↔◌, ℕ, [], IfNone, IfSome, IsTrue, Some, false, not, true};
ghost use Rattle.gl_modes.specs.Modes.{are_compatible};
ghost use Rattle.gl_model.specs.State.{age_of, is_wait, lives, status_of, waits_for};
ghost use Rattle.gl_catalog.specs.Manager.{state_of};
ghost use Rattle.gl_waiting.specs.Asking.{InTurn, KeepsLocks};
ghost use Rattle.gl_waiting.specs.Resting.{ChoosesSome, Commits, EndsSome, FirstIntentions, IsChosen, IsQuiet, KeepsRest, LetsRest};
ghost use Rattle.gl_waiting.specs.Resting.{NoneIsChosen, RestOn, RestsWell, Rouses, acting_in, has_begun, is_counted, is_intention, slot_if};
ghost use Rattle.gl_waiting.specs.declared.resting.Number.TheVariants.{One as one};
ghost use Rattle.gl_waiting.specs.declared.resting.Whom.TheVariants.{InTheWay as in_the_way};

use crate::set_off::SetOff;
use crate::waiting::Waiting;
use gl_catalog::{Answer, Command, Manager};
use gl_modes::{Mode, NodeId, Refusal, compatible};
use gl_slots::{Slot, Slots};
use gl_table::{LockRow, Status, Told, TxnId};
use std::marker::Model;

/// Whom of those who rest to end.
#[derive(Clone, Copy, PartialEq, Eq, Debug)]
pub enum Whom {
    /// One for whom somebody waits.
    InTheWay,
    /// One that holds this node in a mode that does not go with this one.
    Holding { node: NodeId, mode: Mode },
    /// The one that has rested longest.
    Longest,
}

/// How many of them to end.
#[derive(Clone, Copy, PartialEq, Eq, Debug)]
pub enum Number {
    One,
    All,
}

/// Who was ended by one call, one after the other.
#[derive(Clone, Copy, PartialEq, Eq, Debug)]
pub struct Ended {
    /// The slots of those whose commit was counted.
    pub slots: Slots,
    /// The last of them, and what its commit was answered.
    pub last: TxnId,
    pub answer: Option<Answer>,
}

/// Who of a table's transactions rest. They are active, have done nothing since they began, and hold intentions that the
/// transaction before them kept. Nobody waits for one of them, except right after a call that left a request waiting: the
/// caller then ends those who are in its way, before it releases its latch.
///
/// A transaction that is named in a counted call rests no more, so that no lock of one that works is ever released.
#[derive(Drop)]
pub struct Resting {
    slots: Slots,
    crossed: Slots,
}

impl Model for Resting {
    ghost use Rattle.gl_waiting.specs.Resting.{RestingView};

    ghost Value = { RestingView };

    ghost use Rattle.gl_waiting.specs.Owned.{resting_of};

    ghost view = { resting_of };
}

impl Resting {
    /// Nobody rests.
    pub fn nobody() -> Self
        ensures { result.resting ≡ no_slots }
    {
        Resting {
            slots: Slots::empty(),
            crossed: Slots::empty(),
        }
    }

    /// The slots of those who rest.
    pub fn slots(&self) -> Slots
        ensures { result ≡ self.now.resting }
    {
        self.slots
    }

    /// After a call that was counted and whose commands name the transaction of this slot alone: that one rests no more,
    /// and if it waits now, its wait may be for one who rests.
    #[inline(always)]
    pub fn rouse(&mut self, waiting: &Waiting, slot: Option<Slot>)
        ensures rest { RestOn slot self.old.resting self.new.resting }
        ensures keeps { KeepsRest slot self.old (state_of waiting.now.manager) self.new }
    {
        if !self.slots.is_empty() {
            self.rouse_some(waiting, slot);
        }
    }

    /// The same if some rest. Not inlined: a table without sessions never gets here.
    #[inline(never)]
    fn rouse_some(&mut self, waiting: &Waiting, slot: Option<Slot>)
        ensures rest { RestOn slot self.old.resting self.new.resting }
        ensures keeps { KeepsRest slot self.old (state_of waiting.now.manager) self.new }
    {
        let Some(slot) = slot else {
            return;
        };
        self.slots.remove(slot);
        waiting.law();
        if is_waiting(waiting.manager(), slot) {
            self.crossed.insert(slot);
        }
    }

    /// Whether this transaction rests; it then rests no more.
    pub fn wake(&mut self, waiting: &Waiting, txn: TxnId) -> bool
        ensures woken { result ≡ (has_slot self.old.resting txn.slot && lives (state_of waiting.now.manager) txn) }
        ensures rest { RestOn (slot_if result txn.slot) self.old.resting self.new.resting }
        ensures keeps { RestsWell (state_of waiting.now.manager) self.old → RestsWell (state_of waiting.now.manager) self.new }
    {
        if !self.slots.contains(txn.slot) || waiting.manager().status(txn).is_none() {
            return false;
        }
        self.slots.remove(txn.slot);
        true
    }

    /// Ends those who rest and are to be ended, or one of them, each by its commit, with the notices put into an empty list.
    /// No other is ended after a commit that tells somebody or sets something off: the caller first continues those whose
    /// wait that ends. `None` if nobody is to be ended.
    pub fn end(
        &mut self,
        waiting: &mut Waiting,
        whom: Whom,
        number: Number,
        told: &mut Told,
    ) -> (Option<Ended>, SetOff)
        requires empty { told.old.items ≡ [] }
        requires law { RestsWell (state_of waiting.old.manager) self.old }
        ensures ends { EndsSome number waiting.old result.0 told.new.items result.1 waiting.new }
        ensures chooses { ChoosesSome whom waiting.old result.0 waiting.new self.old.resting self.new.resting }
        ensures keeps { RestsWell (state_of waiting.new.manager) self.new }
    {
        waiting.law();
        let mut chosen = self.choose(waiting.manager(), whom);
        let Some(first) = chosen.take_lowest() else {
            return (None, SetOff::nothing());
        };
        let mut left = beside_one(chosen, number);
        let (mut ended, mut off) = self.end_one(waiting, Slots::empty(), first, told);
        'each: while ended.is_quiet(told, off) {
            let Some(slot) = left.take_lowest() else {
                return (Some(ended), off);
            };
            (ended, off) = self.end_one(waiting, ended.slots, slot, told);
        }
        (Some(ended), off)
    }

    /// Ends the one who rests in this slot. Adds the slot to those of others that were ended before, if its commit is
    /// counted.
    fn end_one(
        &mut self,
        waiting: &mut Waiting,
        before: Slots,
        slot: Slot,
        told: &mut Told,
    ) -> (Ended, SetOff)
        requires empty { told.old.items ≡ [] }
        requires law { RestsWell (state_of waiting.old.manager) self.old }
        requires rests { has_slot self.old.resting slot ≡ true }
        requires fresh { has_slot before slot ≡ false }
        ensures commits { Commits waiting.old result.0.last result.0.answer told.new.items result.1 waiting.new }
        ensures last { result.0.last.slot ≡ slot }
        ensures slots { (u : ℕ) → has_slot result.0.slots u ≡ (has_slot before u || (is_counted waiting.old waiting.new && (u == slot))) }
        ensures rouses { Rouses (Some slot) waiting.old self.old.resting waiting.new self.new.resting }
        ensures keeps { RestsWell (state_of waiting.new.manager) self.new }
    {
        waiting.law();
        let Some((txn, _)) = waiting.manager().living(slot) else {
            unreachable!()
        };
        let count = waiting.manager().accepted();
        let (answer, off) = waiting.serve(Command::Commit { txn }, told);
        let mut slots = before;
        if waiting.manager().accepted() != count {
            self.slots.law();
            self.rouse(waiting, Some(slot));
            slots.insert(slot);
        }
        let last = txn;
        (
            Ended {
                slots,
                last,
                answer,
            },
            off,
        )
    }

    /// Commits a transaction and begins another in its slot that keeps its first `keep` locks, as
    /// `Waiting::commit_keeping`. The one that begins rests.
    pub fn commit_keeping(
        &mut self,
        waiting: &mut Waiting,
        txn: TxnId,
        keep: usize,
        since: u64,
        told: &mut Told,
    ) -> (Result<Option<TxnId>, Refusal>, SetOff)
        requires empty { told.old.items ≡ [] }
        requires law { RestsWell (state_of waiting.old.manager) self.old }
        ensures commits { InTurn waiting.old (λ ended mid. KeepsLocks waiting.old txn keep since result.0 told.new.items ended mid) result.1 waiting.new }
        ensures rest { LetsRest txn.slot result.0 waiting.old waiting.new self.old.resting self.new.resting }
        ensures keeps { RestsWell (state_of waiting.new.manager) self.new }
    {
        waiting.law();
        let before = waiting.manager().accepted();
        let (next, off) = waiting.commit_keeping(txn, keep, since, told);
        if waiting.manager().accepted() == before {
            return (next, off);
        }
        self.rouse(waiting, Some(txn.slot));
        waiting.law();
        if has_begun(next) {
            self.slots.insert(txn.slot);
        }
        (next, off)
    }

    /// The slots of those who rest and are to be ended.
    fn choose(&mut self, manager: &Manager, whom: Whom) -> Slots
        requires rest { RestsWell (state_of manager.now) self.old }
        ensures some { (u : ℕ) → has_slot result u ≡ true → (has_slot self.old.resting u ≡ true)
            × IsChosen whom (state_of manager.now) self.old.resting u }
        ensures none { HasNoSlot result → NoneIsChosen whom (state_of manager.now) self.old.resting }
        ensures same { self.new.resting ≡ self.old.resting }
        ensures keeps { RestsWell (state_of manager.now) self.new }
    {
        match whom {
            Whom::InTheWay => self.in_the_way(manager),
            Whom::Holding { node, mode } => holding(manager, self.slots, node, mode),
            Whom::Longest => longest(manager, self.slots),
        }
    }

    /// The slots of those who rest and for whom one of the crossed waits. If there are none, nobody is crossed any more.
    fn in_the_way(&mut self, manager: &Manager) -> Slots
        requires rest { RestsWell (state_of manager.now) self.old }
        ensures some { (u : ℕ) → has_slot result u ≡ true → (has_slot self.old.resting u ≡ true)
            × IsChosen in_the_way (state_of manager.now) self.old.resting u }
        ensures none { HasNoSlot result → NoneIsChosen in_the_way (state_of manager.now) self.old.resting }
        ensures same { self.new.resting ≡ self.old.resting }
        ensures keeps { RestsWell (state_of manager.now) self.new }
    {
        let found = waited_for_by(manager, self.crossed).intersection(self.slots);
        if !found.is_empty() {
            return found;
        }
        self.crossed = Slots::empty();
        found
    }
}

impl Ended {
    /// Whether the last commit was counted, told nobody and set nothing off.
    fn is_quiet(&self, told: &Told, off: SetOff) -> bool
        ensures { IsTrue result ↔ IsQuiet self.now told.now.items off }
    {
        self.slots.contains(self.last.slot) && told.as_slice().is_empty() && off.is_nothing()
    }
}

/// Those to be ended beside one of them.
fn beside_one(others: Slots, number: Number) -> Slots
    ensures among { (u : ℕ) → has_slot result u ≡ true → has_slot others u ≡ true }
    ensures alone { number ≡ one → HasNoSlot result }
{
    match number {
        Number::One => Slots::empty(),
        Number::All => others,
    }
}

/// Whether a transaction began.
fn has_begun(next: Result<Option<TxnId>, Refusal>) -> bool
    ensures { result ≡ has_begun next }
{
    matches!(next, Ok(Some(_)))
}

/// Whether the transaction in a slot waits.
fn is_waiting(manager: &Manager, slot: Slot) -> bool
    ensures { result ≡ is_wait (status_of (state_of manager.now) slot) }
{
    match manager.living(slot) {
        Some((_, Status::Waiting { .. })) => true,
        Some((_, Status::Active | Status::Condemned)) | None => false,
    }
}

/// The slots of those for whom the transaction in a slot waits.
fn waited_for(manager: &Manager, slot: Slot) -> Slots
    ensures { (u : ℕ) → has_slot result u ≡ waits_for (state_of manager.now) slot u }
{
    match manager.living(slot) {
        Some((txn, _)) => match manager.waits_for(txn) {
            Ok(slots) => slots,
            Err(_) => unreachable!(),
        },
        None => Slots::empty(),
    }
}

/// The slots of those for whom some of these wait.
fn waited_for_by(manager: &Manager, waiters: Slots) -> Slots
    ensures some { (u : ℕ) → has_slot result u ≡ true → (t : ℕ) × (has_slot waiters t ≡ true) × (waits_for (state_of manager.now) t u ≡ true) }
    ensures all { (t u : ℕ) → has_slot waiters t ≡ true → waits_for (state_of manager.now) t u ≡ true → has_slot result u ≡ true }
{
    let mut found = Slots::empty();
    let mut left = waiters;
    'waiters: while let Some(slot) = left.take_lowest() {
        found = found.union(waited_for(manager, slot));
    }
    found
}

/// Those of these slots that hold a node in a mode that does not go with this one.
fn holding(manager: &Manager, among: Slots, node: NodeId, mode: Mode) -> Slots
    ensures { (u : ℕ) → has_slot result u ≡ (has_slot among u && not (are_compatible mode ((state_of manager.now).held u node))) }
{
    let mut found = among;
    let mut left = among;
    'slots: while let Some(slot) = left.take_lowest() {
        if compatible(mode, manager.mode_at(slot, node)) {
            found.remove(slot);
        }
    }
    found
}

/// The slot of these whose transaction has the lowest age; none of no slots.
fn longest(manager: &Manager, among: Slots) -> Slots
    ensures some { (u : ℕ) → has_slot result u ≡ true → (has_slot among u ≡ true)
        × ((v : ℕ) → has_slot among v ≡ true → age_of (state_of manager.now) u ≤ age_of (state_of manager.now) v) }
    ensures none { HasNoSlot result → HasNoSlot among }
{
    among.law();
    let mut found = Slots::empty();
    if let Some(slot) = oldest(manager, among) {
        found.insert(slot);
    }
    found
}

/// The slot of these whose transaction has the lowest age.
fn oldest(manager: &Manager, among: Slots) -> Option<Slot>
    ensures some { IfSome result (λ u. (has_slot among u ≡ true)
        × ((v : ℕ) → has_slot among v ≡ true → age_of (state_of manager.now) u ≤ age_of (state_of manager.now) v)) }
    ensures none { IfNone result (HasNoSlot among) }
{
    let mut left = among;
    let mut first = left.take_lowest()?;
    'slots: while let Some(slot) = left.take_lowest() {
        if age(manager, slot) < age(manager, first) {
            first = slot;
        }
    }
    Some(first)
}

/// The age of the transaction in a slot; 0 for a free slot.
fn age(manager: &Manager, slot: Slot) -> u64
    ensures { result ≡ age_of (state_of manager.now) slot }
{
    manager.living(slot).map_or(0, |(txn, _)| txn.age)
}

/// How many of the first locks of a transaction are intentions, up to so many. The caller knows that the first `known` are.
pub fn first_intentions(manager: &Manager, txn: TxnId, known: usize, most: usize) -> usize
    ensures { FirstIntentions manager.now txn known most result }
{
    for place in known..most {
        if !is_intention(manager.lock_at(txn, place)) {
            return place;
        }
    }
    most
}

/// Whether there is a lock, and it is an intention.
fn is_intention(lock: Option<LockRow>) -> bool
    ensures { result ≡ is_intention lock }
{
    match lock {
        Some(lock) => matches!(lock.mode, Mode::IS | Mode::IX),
        None => false,
    }
}

/// The slot of the transaction that a command names. One that is settled is not named: it has done nothing.
pub fn acting_slot(command: &Command<'_>) -> Option<Slot>
    ensures { result ≡ acting_in command.now }
{
    match *command {
        Command::Lock { txn, .. }
        | Command::Try { txn, .. }
        | Command::Unlock { txn, .. }
        | Command::Escalate { txn, .. }
        | Command::Cancel { txn }
        | Command::Commit { txn }
        | Command::Renew { txn, .. }
        | Command::Abort { txn }
        | Command::Insert { txn, .. }
        | Command::Delete { txn, .. }
        | Command::Rekey { txn, .. }
        | Command::Move { txn, .. }
        | Command::Drop { txn, .. }
        | Command::IndexBy { txn, .. }
        | Command::Split { txn, .. }
        | Command::Merge { txn, .. } => Some(txn.slot),
        Command::Inner { .. }
        | Command::File { .. }
        | Command::Index { .. }
        | Command::Begin
        | Command::BeginAgain { .. }
        | Command::Join { .. }
        | Command::Settle { .. }
        | Command::Group { .. }
        | Command::Held { .. }
        | Command::Effective { .. }
        | Command::Adopt { .. }
        | Command::Forget { .. } => None,
    }
}
