//! The table of waiters that a latch protects.

ghost use Rattle.gl_slots.specs.Limit.{most_slots};
ghost use Rattle.std.specs.Prelude.{◌≡◌, [], drop, replicate, slice_get};
ghost use Rattle.std.specs.List.{find, list_any};
ghost use Rattle.gl_catalog.specs.Manager.{IsLawfulManager, state_of};
ghost use Rattle.gl_rows.specs.Rows.{name_of};
ghost use Rattle.gl_waiting.specs.Asking.{Awaits, Begins, BeginsInTurn, Climbs, GoesOn, InTurn, IsInTurn, KeepsLocks, LocksPath, RollsBackTo};
ghost use Rattle.gl_waiting.specs.Asking.{Serves, ServesRow, TimesOut, TriesRowThere, TriesThere, WithdrawsWaiter};
ghost use Rattle.gl_waiting.specs.Begins.{has_word, is_late, without_first};
ghost use Rattle.gl_waiting.specs.Ends.{HasNext, IsNext, earliest_time};
ghost use Rattle.gl_waiting.specs.Waiters.{first_late};
ghost use Rattle.gl_wakes.specs.Boxes.{verdict_of};
ghost use Rattle.gl_waiting.specs.Waiting.{delivery_in};
ghost use Rattle.gl_waiting.specs.declared.waiter.Place.TheVariants.{Empty as empty};

use crate::begins::{QueuedBegin, Turn};
use crate::delivery::Delivery;
use crate::set_off::SetOff;
use crate::tries::{Keep, RowTried, Tried};
use crate::waiter::{Came, Next, Outcome, Waiter};
use crate::waiter_table::WaiterTable;
use gl_catalog::{Answer, Command, Manager, Reached};
use gl_modes::{Mode, NodeId, Refusal};
use gl_rows::{Row, RowAnswer, RowCall};
use gl_slots::Slots;
use gl_table::{Told, TxnId};
use gl_wakes::{Grant, Stop};
use std::alloc::Global;
use std::marker::Model;

/// A registry with a notice box for each slot, its waiter, if it has one, and the begins that wait for a slot.
///
/// A waiter whose wait is over goes on when the caller says `go_on`, one command at a time: a path that was granted a node
/// requests the next, a row that was granted is locked again, and a lock for an instant is given back. So the caller
/// continues all of them before it releases its latch, until nobody's wait is over.
///
/// No begin waits while a slot is free: each call that may have freed one hands on the begins that can begin by that, the
/// first first, and the caller takes them with `take_begun`. Handing on needs no memory. What a call set off is answered
/// beside its own answer.
#[derive(Drop)]
pub struct Waiting {
    table: WaiterTable,
}

impl Model for Waiting {
    ghost use Rattle.gl_waiting.specs.Waiting.{WaitingView};

    ghost Value = { WaitingView };

    ghost use Rattle.gl_waiting.specs.Owned.{waiting_of, HandsOnInTurn};

    ghost view = { waiting_of };

    ghost invariant = { HandsOnInTurn };
}

impl Waiting {
    /// The registry of a delivery, without waiters.
    pub fn new(alloc: Global, delivery: Delivery) -> Self
        ensures delivery { delivery_in result ≡ delivery }
        ensures places { result.places ≡ replicate most_slots empty }
        ensures queue { result.queue ≡ [] }
        ensures begun { result.begun ≡ [] }
    {
        Waiting {
            table: WaiterTable::new(alloc, delivery),
        }
    }

    /// The law of every table of waiters.
    pub fn law(&self)
        ensures manager { IsLawfulManager self.now.manager }
        ensures turn { IsInTurn self.now }
    {
        self.table.law();
    }

    /// The manager, to be asked.
    pub fn manager(&self) -> &Manager
        ensures { result.now ≡ self.now.manager }
    {
        self.table.manager()
    }

    /// The node of a row; `None` if it has none.
    pub fn node(&self, row: Row) -> Option<NodeId>
        ensures { result ≡ name_of self.now.rows row }
    {
        self.table.node(row)
    }

    /// What became of the transaction's wait for this node; `None` if it still waits.
    pub fn verdict(&self, txn: TxnId, node: NodeId, mode: Mode) -> Option<Result<Grant, Stop>>
        ensures { result ≡ verdict_of (state_of self.now.manager) self.now.boxes txn node mode }
    {
        self.table.verdict(txn, node, mode)
    }

    /// Carries out a command, as `Registry::serve`, with its notices put into an empty list.
    #[inline(always)]
    pub fn serve(&mut self, command: Command<'_>, told: &mut Told) -> (Option<Answer>, SetOff)
        requires empty { told.old.items ≡ [] }
        ensures { InTurn self.old (λ ended mid. Serves self.old command.entry result.0 told.new.items ended mid) result.1 self.new }
    {
        let (answer, own) = self.table.serve(command, told);
        (answer, self.table.hand_on(own))
    }

    /// Locks a node with what must be held above it, as `Registry::lock_path`, with the notices put into an empty list: up
    /// to its end, or to a lock that waits or makes victims.
    #[inline(always)]
    pub fn lock_path(
        &mut self,
        txn: TxnId,
        node: NodeId,
        mode: Mode,
        told: &mut Told,
    ) -> (Result<Reached, Refusal>, SetOff)
        requires empty { told.old.items ≡ [] }
        ensures { InTurn self.old (λ ended mid. LocksPath self.old txn (node, mode) result.0 told.new.items ended mid) result.1 self.new }
    {
        let (reached, own) = self.table.lock_path(txn, node, mode, told);
        (reached, self.table.hand_on(own))
    }

    /// Carries out a call about rows, as `Registry::apply`, with its notices put into an empty list.
    #[inline(always)]
    pub fn serve_row(&mut self, call: RowCall<'_>, told: &mut Told) -> (RowAnswer, SetOff)
        requires empty { told.old.items ≡ [] }
        ensures { InTurn self.old (λ ended mid. ServesRow self.old call.entry result.0 told.new.items ended mid) result.1 self.new }
    {
        let (answer, own) = self.table.serve_row(call, told);
        (answer, self.table.hand_on(own))
    }

    /// Rolls back to a savepoint, as `Registry::release_since`, with its notices put into an empty list.
    #[inline(always)]
    pub fn release_since(
        &mut self,
        txn: TxnId,
        mark: usize,
        told: &mut Told,
    ) -> (Result<usize, Refusal>, SetOff)
        requires empty { told.old.items ≡ [] }
        ensures { InTurn self.old (λ ended mid. RollsBackTo self.old txn mark result.0 told.new.items ended mid) result.1 self.new }
    {
        let (released, own) = self.table.release_since(txn, mark, told);
        (released, self.table.hand_on(own))
    }

    /// Commits a transaction and begins another in its slot that keeps its first `keep` locks, as
    /// `Registry::commit_keeping`, with its notices put into an empty list.
    #[inline(always)]
    pub fn commit_keeping(
        &mut self,
        txn: TxnId,
        keep: usize,
        since: u64,
        told: &mut Told,
    ) -> (Result<Option<TxnId>, Refusal>, SetOff)
        requires empty { told.old.items ≡ [] }
        ensures { InTurn self.old (λ ended mid. KeepsLocks self.old txn keep since result.0 told.new.items ended mid) result.1 self.new }
    {
        let (next, own) = self.table.commit_keeping(txn, keep, since, told);
        (next, self.table.hand_on(own))
    }

    /// Tries to lock a node with what must be held above it, as `Delivery::try_path`.
    pub fn try_path(
        &mut self,
        txn: TxnId,
        node: NodeId,
        mode: Mode,
        keep: Keep,
        told: &mut Told,
    ) -> (Tried, SetOff)
        requires empty { told.old.items ≡ [] }
        ensures { InTurn self.old (λ ended mid. TriesThere self.old txn (node, mode) keep result.0 told.new.items ended mid) result.1 self.new }
    {
        let (tried, own) = self.table.try_path(txn, node, mode, keep, told);
        (tried, self.table.hand_on(own))
    }

    /// Tries to lock a row that has these keys, as `Delivery::try_row`.
    pub fn try_row(
        &mut self,
        txn: TxnId,
        row: Row,
        keys: &[u64],
        mode: Mode,
        told: &mut Told,
    ) -> (RowTried, SetOff)
        requires empty { told.old.items ≡ [] }
        ensures { InTurn self.old (λ ended mid. TriesRowThere self.old
            (record { txn = txn; row = row; keys = keys.entry; mode = mode }) result.0 told.new.items ended mid)
            result.1 self.new }
    {
        let (tried, own) = self.table.try_row(txn, row, keys, mode, told);
        (tried, self.table.hand_on(own))
    }

    /// Registers the waiter of a request that a command left waiting. Answers that it waits, or, if its wait is over by
    /// then, how; then it is not registered. `None` if the slot of its transaction has a waiter already.
    pub fn await_request(&mut self, waiter: Waiter) -> Option<Came>
        ensures awaits { Awaits self.old waiter result self.new }
        ensures rest { self.new ≡ record self.old { places = self.new.places } }
    {
        self.table.await_request(waiter)
    }

    /// Registers the waiter of a request that lacks this node above its own: it requests it with the next `go_on`. `false`
    /// if the slot of its transaction has a waiter already, or there is no such slot.
    pub fn climb(&mut self, waiter: Waiter) -> bool
        ensures climbs { Climbs self.old waiter result self.new }
        ensures rest { self.new ≡ record self.old { places = self.new.places } }
    {
        self.table.climb(waiter)
    }

    /// Removes the waiter of a transaction, whose wait goes on; whether it had one.
    pub fn withdraw_waiter(&mut self, txn: TxnId) -> bool
        ensures { WithdrawsWaiter self.old txn result self.new }
    {
        self.table.withdraw_waiter(txn)
    }

    /// The waiter of the lowest slot whose wait is over, and what it does next.
    pub fn next(&self) -> Option<(Waiter, Next)>
        ensures { IsNext self.now result }
    {
        self.table.next()
    }

    /// Whether the wait of a waiter is over.
    pub fn has_next(&self) -> bool
        ensures { HasNext self.now result }
    {
        self.table.has_next()
    }

    /// Continues the waiter of the lowest slot whose wait is over, by one command at most, with its notices put into an
    /// empty list. Answers its transaction and what its request came to; `None` if there is no such waiter.
    pub fn go_on(&mut self, told: &mut Told) -> (Option<(TxnId, Came)>, SetOff)
        requires empty { told.old.items ≡ [] }
        ensures { InTurn self.old (λ ended mid. GoesOn self.old result.0 told.new.items ended mid) result.1 self.new }
    {
        let (came, own) = self.table.go_on(told);
        (came, self.table.hand_on(own))
    }

    /// Cancels the wait of a transaction whose time is over, with the notices put into an empty list. Answers the end;
    /// `None` if the transaction has no waiter, or if its wait cannot be cancelled, since it is over or no command can be
    /// counted any more (`WornOut`).
    pub fn time_out(&mut self, txn: TxnId, told: &mut Told) -> (Option<Outcome>, SetOff)
        requires empty { told.old.items ≡ [] }
        ensures { InTurn self.old (λ ended mid. TimesOut self.old txn result.0 told.new.items ended mid) result.1 self.new }
    {
        let (end, own) = self.table.time_out(txn, told);
        (end, self.table.hand_on(own))
    }

    /// The transaction of the lowest slot whose wait should have ended by now.
    pub fn first_late(&self, now: u64) -> Option<TxnId>
        ensures { result ≡ first_late now self.now.places }
    {
        self.table.first_late(now)
    }

    /// The earliest time at which a wait ends, for a lock or for a slot; `None` if none has one.
    pub fn earliest_time(&self) -> Option<u64>
        ensures { result ≡ earliest_time self.now }
    {
        self.table.earliest_time()
    }

    /// Begins a transaction, for new work or for work since an earlier begin. It is refused while others wait for a slot,
    /// since none is free.
    pub fn begin(&mut self, since: Option<u64>) -> (Result<TxnId, Refusal>, Slots)
        ensures { Begins self.old since result.0 result.1 self.new }
    {
        self.table.begin(since)
    }

    /// Begins a transaction if nobody waits for a slot and one is free; otherwise the begin waits for one, after all who
    /// wait already.
    pub fn begin_in_turn(&mut self, begin: QueuedBegin) -> (Turn, Slots)
        ensures { BeginsInTurn self.old begin result.0 result.1 self.new }
    {
        self.table.begin_in_turn(begin)
    }

    /// Takes the first of the begins that were handed on, with its answer; `None` if there is none.
    pub fn take_begun(&mut self) -> Option<(QueuedBegin, Result<TxnId, Refusal>)>
        ensures taken { result ≡ slice_get self.old.begun 0 }
        ensures rest { self.new ≡ record self.old { begun = drop 1 self.old.begun } }
    {
        self.table.take_begun()
    }

    /// Takes a begin of this name out of those that wait for a slot; whether there was one.
    pub fn withdraw_begin(&mut self, word: u64) -> bool
        ensures found { result ≡ list_any (has_word word) self.old.queue }
        ensures rest { self.new ≡ record self.old { queue = without_first (has_word word) self.old.queue } }
    {
        self.table.withdraw_begin(word)
    }

    /// Takes a begin whose time is at or before now out of those that wait for a slot, the first of them.
    pub fn take_late_begin(&mut self, now: u64) -> Option<QueuedBegin>
        ensures taken { result ≡ find (is_late now) self.old.queue }
        ensures rest { self.new ≡ record self.old { queue = without_first (is_late now) self.old.queue } }
    {
        self.table.take_late_begin(now)
    }
}
