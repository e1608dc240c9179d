//! The table of waiters, with each call carried out alone: begins are handed on by `Waiting`.

ghost use Rattle.gl_slots.specs.Limit.{most_slots};
ghost use Rattle.std.specs.Prelude.{◌≡◌, ◌==◌, ◌&&◌, ◌||◌, ℕ, [], drop, is_some, not, replicate, slice_get};
ghost use Rattle.gl_slots.specs.Slots.{has_slot};
ghost use Rattle.gl_waiting.specs.Waiters.{goes_on};
ghost use Rattle.gl_catalog.specs.Manager.{IsLawfulManager, state_of};
ghost use Rattle.gl_rows.specs.Rows.{name_of};
ghost use Rattle.gl_waiting.specs.Asking.{Awaits, Begins, BeginsInTurn, BeginsNext, Climbs, GoesOn, HandsOnAfter, HandsOnIf, IsInTurn, KeepsLocks, LocksPath};
ghost use Rattle.gl_waiting.specs.Asking.{RollsBackTo, Serves, ServesRow, TimesOut, TriesRowThere, TriesThere, WithdrawsWaiter, is_done};
ghost use Rattle.gl_waiting.specs.Begins.{earlier, has_word, is_late, without_first};
ghost use Rattle.std.specs.List.{find, list_any};
ghost use Rattle.gl_waiting.specs.Ends.{HasNext, IsNext, earliest_time, next_at};
ghost use Rattle.gl_waiting.specs.Waiters.{first_late};
ghost use Rattle.gl_wakes.specs.Boxes.{verdict_of};
ghost use Rattle.gl_waiting.specs.Waiting.{delivery_in};
ghost use Rattle.gl_waiting.specs.declared.waiter.Place.TheVariants.{Empty as empty};

use crate::begins::{BeginQueue, Begun, QueuedBegin, Turn, begin_command, begun_in, is_too_many};
use crate::delivery::Delivery;
use crate::places::Places;
use crate::set_off::SetOff;
use crate::tries::{Keep, RowTried, Tried};
use crate::waiter::{Came, Next, Outcome, Place, Waiter, outcome_of};
use crate::waiters::continue_by;
use gl_catalog::{Answer, Command, Manager, Reached};
use gl_modes::{Mode, NodeId, Refusal};
use gl_rows::{Row, RowAnswer, RowCall};
use gl_slots::{SLOTS, Slot, Slots};
use gl_table::{Told, TxnId};
use gl_wakes::{Grant, Stop};
use std::alloc::Global;
use std::marker::Model;

/// A registry with a notice box for each slot, and its waiter, if it has one. A slot is due if its waiter's wait may be
/// over: a call that ends waits notes their slots, and `go_on` looks at no others.
#[derive(Drop)]
pub(crate) struct WaiterTable {
    delivery: Delivery,
    places: Places,
    due: Slots,
    begins: BeginQueue,
}

impl Model for WaiterTable {
    ghost use Rattle.gl_waiting.specs.Waiting.{WaitingView};

    ghost Value = { WaitingView };

    ghost use Rattle.gl_waiting.specs.Owned.{table_of, IsAwaited};

    ghost view = { table_of };

    ghost invariant = { IsAwaited };
}

impl WaiterTable {
    /// The registry of a delivery, without waiters.
    pub(crate) fn new(alloc: Global, delivery: Delivery) -> Self
        ensures delivery { delivery_in result ≡ delivery }
        ensures places { result.places ≡ replicate most_slots empty }
        ensures queue { result.queue ≡ [] }
        ensures begun { result.begun ≡ [] }
    {
        WaiterTable {
            delivery,
            places: Places::new(),
            due: Slots::empty(),
            begins: BeginQueue::new(alloc),
        }
    }

    /// The law of every table of waiters.
    pub(crate) fn law(&self)
        ensures { IsLawfulManager self.now.manager }
    {
        self.delivery.law();
    }

    /// The manager, to be asked.
    pub(crate) fn manager(&self) -> &Manager
        ensures { result.now ≡ self.now.manager }
    {
        self.delivery.manager()
    }

    /// The node of a row; `None` if it has none.
    pub(crate) fn node(&self, row: Row) -> Option<NodeId>
        ensures { result ≡ name_of self.now.rows row }
    {
        self.delivery.node(row)
    }

    /// What became of the transaction's wait for this node; `None` if it still waits.
    pub(crate) fn verdict(
        &self,
        txn: TxnId,
        node: NodeId,
        mode: Mode,
    ) -> Option<Result<Grant, Stop>>
        ensures { result ≡ verdict_of (state_of self.now.manager) self.now.boxes txn node mode }
    {
        self.delivery.verdict(txn, node, mode)
    }

    /// Carries out a command, as `Registry::serve`, with its notices put into an empty list.
    #[inline(always)]
    pub(crate) fn serve(&mut self, command: Command<'_>, told: &mut Told) -> (Option<Answer>, Slots)
        requires empty { told.old.items ≡ [] }
        ensures { Serves self.old command.entry result.0 told.new.items result.1 self.new }
    {
        self.delivery.law();
        let (answer, ended) = self.delivery.serve(command, told);
        self.due = self.due.union(ended);
        (answer, ended)
    }

    /// Locks a node with what must be held above it, as `Registry::lock_path`, with the notices put into an empty list: up
    /// to its end, or to a lock that waits or makes victims.
    #[inline(always)]
    pub(crate) fn lock_path(
        &mut self,
        txn: TxnId,
        node: NodeId,
        mode: Mode,
        told: &mut Told,
    ) -> (Result<Reached, Refusal>, Slots)
        requires empty { told.old.items ≡ [] }
        ensures { LocksPath self.old txn (node, mode) result.0 told.new.items result.1 self.new }
    {
        self.delivery.law();
        let (reached, ended) = self.delivery.lock_path(txn, node, mode, told);
        self.due = self.due.union(ended);
        (reached, ended)
    }

    /// Carries out a call about rows, as `Registry::apply`, with its notices put into an empty list.
    #[inline(always)]
    pub(crate) fn serve_row(&mut self, call: RowCall<'_>, told: &mut Told) -> (RowAnswer, Slots)
        requires empty { told.old.items ≡ [] }
        ensures { ServesRow self.old call.entry result.0 told.new.items result.1 self.new }
    {
        self.delivery.law();
        let (answer, ended) = self.delivery.serve_row(call, told);
        self.due = self.due.union(ended);
        (answer, ended)
    }

    /// Rolls back to a savepoint, as `Registry::release_since`, with its notices put into an empty list.
    #[inline(always)]
    pub(crate) fn release_since(
        &mut self,
        txn: TxnId,
        mark: usize,
        told: &mut Told,
    ) -> (Result<usize, Refusal>, Slots)
        requires empty { told.old.items ≡ [] }
        ensures { RollsBackTo self.old txn mark result.0 told.new.items result.1 self.new }
    {
        self.delivery.law();
        let (released, ended) = self.delivery.release_since(txn, mark, told);
        self.due = self.due.union(ended);
        (released, ended)
    }

    /// Commits a transaction and begins another in its slot that keeps its first `keep` locks, as
    /// `Registry::commit_keeping`, with the notices put into an empty list.
    #[inline(always)]
    pub(crate) fn commit_keeping(
        &mut self,
        txn: TxnId,
        keep: usize,
        since: u64,
        told: &mut Told,
    ) -> (Result<Option<TxnId>, Refusal>, Slots)
        requires empty { told.old.items ≡ [] }
        ensures { KeepsLocks self.old txn keep since result.0 told.new.items result.1 self.new }
    {
        self.delivery.law();
        let (next, ended) = self.delivery.commit_keeping(txn, keep, since, told);
        self.due = self.due.union(ended);
        (next, ended)
    }

    /// Tries to lock a node with what must be held above it, as `Delivery::try_path`.
    pub(crate) fn try_path(
        &mut self,
        txn: TxnId,
        node: NodeId,
        mode: Mode,
        keep: Keep,
        told: &mut Told,
    ) -> (Tried, Slots)
        requires empty { told.old.items ≡ [] }
        ensures { TriesThere self.old txn (node, mode) keep result.0 told.new.items result.1 self.new }
    {
        self.delivery.law();
        let (tried, ended) = self.delivery.try_path(txn, node, mode, keep, told);
        self.due = self.due.union(ended);
        (tried, ended)
    }

    /// Tries to lock a row that has these keys, as `Delivery::try_row`.
    pub(crate) fn try_row(
        &mut self,
        txn: TxnId,
        row: Row,
        keys: &[u64],
        mode: Mode,
        told: &mut Told,
    ) -> (RowTried, Slots)
        requires empty { told.old.items ≡ [] }
        ensures { TriesRowThere self.old (record { txn = txn; row = row; keys = keys.entry; mode = mode }) result.0 told.new.items result.1 self.new }
    {
        self.delivery.law();
        let (tried, ended) = self.delivery.try_row(txn, row, keys, mode, told);
        self.due = self.due.union(ended);
        (tried, ended)
    }

    /// Registers the waiter of a request that a command left waiting. Answers that it waits, or, if its wait is over by
    /// then, how; then it is not registered. `None` if the slot of its transaction has a waiter already.
    pub(crate) fn await_request(&mut self, waiter: Waiter) -> Option<Came>
        ensures awaits { Awaits self.old waiter result self.new }
        ensures rest { self.new ≡ record self.old { places = self.new.places } }
    {
        if self.places.has_waiter(waiter.txn.slot) {
            return None;
        }
        match self.delivery.verdict(waiter.txn, waiter.at, waiter.wanted) {
            Some(verdict) => Some(Came::Ended(outcome_of(waiter.at, verdict))),
            None => {
                self.delivery.law();
                self.places.put(waiter.txn.slot, Place::Waits(waiter));
                Some(Came::Waits {
                    at: waiter.at,
                    wanted: waiter.wanted,
                })
            }
        }
    }

    /// Registers the waiter of a request that lacks this node above its own: it requests it with the next `go_on`. `false`
    /// if the slot of its transaction has a waiter already, or there is no such slot.
    pub(crate) fn climb(&mut self, waiter: Waiter) -> bool
        ensures climbs { Climbs self.old waiter result self.new }
        ensures rest { self.new ≡ record self.old { places = self.new.places } }
    {
        let slot = waiter.txn.slot;
        if slot as usize >= SLOTS || self.places.has_waiter(slot) {
            return false;
        }
        self.delivery.law();
        self.due.insert(slot);
        self.places.put(slot, Place::GoesOn(waiter, None));
        true
    }

    /// Removes the waiter of a transaction, whose wait goes on; whether it had one.
    pub(crate) fn withdraw_waiter(&mut self, txn: TxnId) -> bool
        ensures { WithdrawsWaiter self.old txn result self.new }
    {
        if self.places.waiter_of(txn).is_none() {
            return false;
        }
        self.places.put(txn.slot, Place::Empty);
        true
    }

    /// Continues the waiter of the lowest slot whose wait is over, with the notices put into an empty list. Answers its
    /// transaction and what its request came to; `None` if there is no such waiter.
    pub(crate) fn go_on(&mut self, told: &mut Told) -> (Option<(TxnId, Came)>, Slots)
        requires empty { told.old.items ≡ [] }
        ensures { GoesOn self.old result.0 told.new.items result.1 self.new }
    {
        let Some((waiter, next)) = self.next() else {
            self.due = Slots::empty();
            return (None, Slots::empty());
        };
        self.delivery.law();
        let (came, ended) = continue_by(&mut self.delivery, &waiter, next, told);
        self.places.put(waiter.txn.slot, waiter.place(came));
        self.due = due_after(self.due, waiter.txn.slot, came, ended);
        (Some((waiter.txn, came)), ended)
    }

    /// The waiter of the lowest slot whose wait is over, and what it does next. Inlined, so that it is not copied.
    #[inline(always)]
    pub(crate) fn next(&self) -> Option<(Waiter, Next)>
        ensures { IsNext self.now result }
    {
        let mut left = self.due;
        'slots: while let Some(slot) = left.take_lowest() {
            let next = self.next_at(slot);
            if next.is_some() {
                return next;
            }
        }
        None
    }

    /// Whether the wait of a waiter is over.
    pub(crate) fn has_next(&self) -> bool
        ensures { HasNext self.now result }
    {
        let mut left = self.due;
        'slots: while let Some(slot) = left.take_lowest() {
            if self.is_over_at(slot) {
                return true;
            }
        }
        false
    }

    /// Whether the wait of a slot's waiter is over.
    fn is_over_at(&self, slot: Slot) -> bool
        ensures { result ≡ is_some (next_at self.now slot) }
    {
        match self.places.at(slot) {
            Some(Place::Waits(waiter)) => self
                .delivery
                .verdict(waiter.txn, waiter.at, waiter.wanted)
                .is_some(),
            Some(Place::GoesOn(_, _)) => true,
            Some(Place::Empty) | None => false,
        }
    }

    /// The waiter of a slot and what it does next, if its wait is over.
    fn next_at(&self, slot: Slot) -> Option<(Waiter, Next)>
        ensures { result ≡ next_at self.now slot }
    {
        match self.places.at(slot) {
            Some(Place::Waits(waiter)) => {
                let verdict = self.delivery.verdict(waiter.txn, waiter.at, waiter.wanted)?;
                Some((*waiter, waiter.next(verdict)))
            }
            Some(Place::GoesOn(waiter, granted)) => Some((*waiter, waiter.go_on(*granted))),
            Some(Place::Empty) | None => None,
        }
    }

    /// Cancels the wait of a transaction whose time is over, with the notices put into an empty list.
    /// Answers the end; `None` if the transaction has no waiter, or if its wait cannot be cancelled,
    /// since it is over or no command can be counted any more.
    pub(crate) fn time_out(&mut self, txn: TxnId, told: &mut Told) -> (Option<Outcome>, Slots)
        requires empty { told.old.items ≡ [] }
        ensures { TimesOut self.old txn result.0 told.new.items result.1 self.new }
    {
        self.delivery.law();
        let Some(waiter) = self.places.waiter_of(txn) else {
            return (None, Slots::empty());
        };
        let (answer, ended) = self.delivery.serve(Command::Cancel { txn }, told);
        self.due = self.due.union(ended);
        if !is_done(answer) {
            return (None, ended);
        }
        self.places.put(txn.slot, Place::Empty);
        (Some(Outcome::TimedOut(waiter.at)), ended)
    }

    /// The transaction of the lowest slot whose wait should have ended by now.
    pub(crate) fn first_late(&self, now: u64) -> Option<TxnId>
        ensures { result ≡ first_late now self.now.places }
    {
        self.places.first_late(now)
    }

    /// The earliest time at which a wait ends, for a lock or for a slot; `None` if none has one.
    pub(crate) fn earliest_time(&self) -> Option<u64>
        ensures { result ≡ earliest_time self.now }
    {
        earlier(self.places.earliest(), self.begins.earliest())
    }

    /// Begins a transaction, for new work or for work since an earlier begin. It does not ask who waits for a slot.
    pub(crate) fn begin(&mut self, since: Option<u64>) -> (Result<TxnId, Refusal>, Slots)
        ensures { Begins self.old since result.0 result.1 self.new }
    {
        self.delivery.law();
        let mut told = Told::new();
        let (answer, ended) = self.delivery.serve(begin_command(since), &mut told);
        let Some(answer) = answer else { unreachable!() };
        match begun_in(answer) {
            Ok(txn) => {
                self.due = self.due.union(ended);
                (Ok(txn), ended)
            }
            Err(refusal) => (Err(refusal), Slots::empty()),
        }
    }

    /// Begins a transaction if nobody waits for a slot and one is free; otherwise the begin waits for one, after all who
    /// wait already.
    pub(crate) fn begin_in_turn(&mut self, begin: QueuedBegin) -> (Turn, Slots)
        requires turn { IsInTurn self.old }
        ensures { BeginsInTurn self.old begin result.0 result.1 self.new }
    {
        if self.begins.is_empty() {
            let (came, ended) = self.begin(begin.since);
            if !is_too_many(came) {
                return (Turn::Came(came), ended);
            }
        }
        match self.begins.enter(begin) {
            Ok(()) => (Turn::Queued, Slots::empty()),
            Err(_) => (Turn::NoMemory, Slots::empty()),
        }
    }

    /// Hands on begins until nobody waits for a slot, or every slot is taken. The call ended the waits of the slots `own`
    /// before that. Answers what it set off in all.
    #[inline(always)]
    pub(crate) fn hand_on(&mut self, own: Slots) -> SetOff
        ensures hands { HandsOnAfter own self.old result self.new }
        ensures turn { IsInTurn self.new }
    {
        if self.begins.is_empty() {
            return SetOff {
                ended: own,
                went_on: false,
            };
        }
        SetOff {
            ended: own,
            went_on: self.hand_on_some(),
        }
    }

    /// The same if some wait; it answers whether any was handed on. Not inlined: a call while nobody waits for a slot never
    /// gets here.
    #[inline(never)]
    fn hand_on_some(&mut self) -> bool
        ensures hands { HandsOnIf result self.old self.new }
        ensures turn { IsInTurn self.new }
    {
        let mut went_on = false;
        'begins: while self.next_begin() {
            went_on = true;
        }
        went_on
    }

    /// Begins for the first who waits for a slot, and hands that on with its answer. Answers `false` if nobody waits, or
    /// every slot is taken.
    fn next_begin(&mut self) -> bool
        ensures { BeginsNext self.old result self.new }
    {
        let Some(first) = self.begins.first() else {
            return false;
        };
        let (came, _ended) = self.begin(first.since);
        if is_too_many(came) {
            return false;
        }
        self.begins.hand_on(came);
        true
    }

    /// Takes the first of the begins that were handed on, with its answer; `None` if there is none.
    pub(crate) fn take_begun(&mut self) -> Option<Begun>
        ensures taken { result ≡ slice_get self.old.begun 0 }
        ensures rest { self.new ≡ record self.old { begun = drop 1 self.old.begun } }
    {
        self.begins.take_begun()
    }

    /// Takes a begin of this name out of those that wait for a slot; whether there was one.
    pub(crate) fn withdraw_begin(&mut self, word: u64) -> bool
        ensures found { result ≡ list_any (has_word word) self.old.queue }
        ensures rest { self.new ≡ record self.old { queue = without_first (has_word word) self.old.queue } }
    {
        self.begins.withdraw(word)
    }

    /// Takes a begin whose time is at or before now out of those that wait for a slot, the first of them.
    pub(crate) fn take_late_begin(&mut self, now: u64) -> Option<QueuedBegin>
        ensures taken { result ≡ find (is_late now) self.old.queue }
        ensures rest { self.new ≡ record self.old { queue = without_first (is_late now) self.old.queue } }
    {
        self.begins.take_late(now)
    }
}

/// The slots that are due after the waiter of this one came to this, and the waits of these slots ended.
fn due_after(due: Slots, slot: Slot, came: Came, ended: Slots) -> Slots
    ensures { (u : ℕ) → has_slot result u ≡ (has_slot due u && not (u == slot && not (goes_on came)) || has_slot ended u) }
{
    let mut left = due;
    if !came.goes_on() {
        left.remove(slot);
    }
    left.union(ended)
}

/// The earlier of two times, of which each may be none.
fn earlier(one: Option<u64>, other: Option<u64>) -> Option<u64>
    ensures { result ≡ earlier one other }
{
    match (one, other) {
        (Some(one), Some(other)) => Some(one.min(other)),
        (Some(one), None) => Some(one),
        (None, other) => other,
    }
}

/// Whether a command was done.
fn is_done(answer: Option<Answer>) -> bool
    ensures { result ≡ is_done answer }
{
    matches!(answer, Some(Answer::Done))
}
