//! A manager with its list of notices.

ghost use Rattle.gl_slots.specs.Limit.{most_slots};
ghost use Rattle.std.specs.Prelude.{◌≡◌, ◌≤◌, ◌^◌, IfErr, IfOk, Some, drop, slice_get};
ghost use Rattle.gl_modes.specs.declared.refusal.Refusal.{Refusal as ARefusal};
ghost use Rattle.gl_table.specs.Table.{board_of};
ghost use Rattle.gl_catalog.specs.Manager.{IsLawfulManager, state_of};
ghost use Rattle.gl_rows.specs.Rows.{name_of};
ghost use Rattle.gl_window.specs.Boards.{Ends};
ghost use Rattle.gl_wakes.specs.Boxes.{verdict_of};
ghost use Rattle.gl_c.specs.managers.Carries.{Answers, Replies, command_call};
ghost use Rattle.gl_c.specs.questions.Looks.{looked};
ghost use Rattle.gl_c.specs.locks.Paths.{path_call};
ghost use Rattle.gl_c.specs.locks.Resting.{CountsIntentions, RestsThere, WakesThere, end_call, resting_call};
ghost use Rattle.gl_c.specs.locks.Savepoints.{back_call, keeping_call};
ghost use Rattle.gl_c.specs.managers.Managing.{IsNew};
ghost use Rattle.gl_c.specs.locks.Rows.{named_reply, row_call};
ghost use Rattle.gl_c.specs.locks.Tries.{tried_path_call, tried_row_call};
ghost use Rattle.gl_c.specs.locks.Turns.{begun_reply, found_reply, turn_call, word_reply};
ghost use Rattle.gl_c.specs.locks.Verdicts.{verdict_reply};
ghost use Rattle.gl_c.specs.locks.Waiters.{AwaitsThere, ClimbsThere, LooksNext, WithdrawsThere, late_call, on_call, time_reply, txn_reply};
ghost use Rattle.gl_waiting.specs.Ends.{earliest_time};
ghost use Rattle.gl_waiting.specs.Waiters.{first_late};
ghost use Rattle.gl_waiting.specs.Begins.{has_word, is_late, without_first};
ghost use Rattle.std.specs.List.{find, list_any};
ghost use Rattle.gl_c.specs.watchers.Watching.{OnlyShows};
ghost use Rattle.gl_c.specs.managers.Guarded.{GuardedView, waiting_in};
ghost use Rattle.gl_c.specs.managers.Session.{IsIdle, guarded_of};

use crate::answers::notices::Notices;
use crate::answers::reply::Reply;
use crate::managers::guarded::Guarded;
use crate::numbers::NO_PLACE;
use crate::questions::look::{Query, look};
use gl_catalog::{Command, Manager};
use gl_modes::{Mode, NodeId, Refusal};
use gl_rows::{Row, RowCall};
use gl_slots::Slots;
use gl_table::{Detect, Told, TxnId};
use gl_waiting::{Keep, Number, QueuedBegin, Waiter, Whom};
use gl_waits::Victims;
use gl_window::{WatchFault, Watcher};
use std::alloc::Global;
use std::marker::Model;

/// A manager with all that is protected with it, and a list for notices, which is empty between
/// commands. The list has some six kilobytes, so it is made once.
#[derive(Drop)]
pub(crate) struct Session {
    guarded: Guarded,
    told: Told,
}

impl Model for Session {
    ghost use Rattle.gl_c.specs.managers.Guarded.{GuardedView};

    ghost Value = { GuardedView };

    ghost use Rattle.gl_c.specs.managers.Session.{guarded_of, IsIdle};

    ghost view = { guarded_of };

    ghost invariant = { IsIdle };
}

impl Session {
    /// A session of a new manager, with limits for living transactions, living nodes and bounds of an
    /// index. The only refusal is `NoMemory`.
    pub(crate) fn new(
        alloc: Global,
        detect: Detect,
        victims: Victims,
        most: usize,
        nodes: u32,
        bounds: u32,
    ) -> Result<Self, Refusal>
        requires some { 1 ≤ most }
        requires few { most ≤ most_slots }
        requires low { nodes ≤ 2 ^ 31 }
        ensures made { IfOk result (λ session. IsNew detect victims most nodes bounds session) }
        ensures refused { IfErr result (λ refusal. refusal ≡ ARefusal.NoMemory) }
    {
        let guarded = Guarded::new(alloc, detect, victims, most, nodes, bounds)?;
        Ok(Session {
            guarded,
            told: Told::new(),
        })
    }

    /// Carries out a command, and writes its notices.
    #[inline(always)]
    pub(crate) fn carry_out(&mut self, command: Command<'_>, notices: &mut Notices) -> Reply
        ensures { Replies self.old (command_call command.entry) result notices.new self.new }
    {
        let answer = self.guarded.serve(command, &mut self.told);
        notices.put(self.told.as_slice());
        self.told.clear();
        Reply::of_served(answer)
    }

    /// Locks a node after what must be held above it, and writes the notices. Inlined as `carry_out`
    /// is.
    #[inline(always)]
    pub(crate) fn lock_path(
        &mut self,
        txn: TxnId,
        node: NodeId,
        mode: Mode,
        notices: &mut Notices,
    ) -> Reply
        ensures { Replies self.old (path_call txn (node, mode)) result notices.new self.new }
    {
        let reached = self.guarded.serve_path(txn, node, mode, &mut self.told);
        notices.put(self.told.as_slice());
        self.told.clear();
        Reply::of_path(node, reached)
    }

    /// Rolls back to a savepoint, and writes the notices.
    pub(crate) fn release_since(&mut self, txn: TxnId, mark: usize, notices: &mut Notices) -> Reply
        ensures { Replies self.old (back_call txn mark) result notices.new self.new }
    {
        let released = self.guarded.serve_back(txn, mark, &mut self.told);
        notices.put(self.told.as_slice());
        self.told.clear();
        Reply::of_back(released)
    }

    /// Commits a transaction and begins another in its slot that keeps its first `keep` locks, and
    /// writes the notices.
    pub(crate) fn commit_keeping(
        &mut self,
        txn: TxnId,
        keep: usize,
        since: u64,
        notices: &mut Notices,
    ) -> Reply
        ensures { Replies self.old (keeping_call txn keep since) result notices.new self.new }
    {
        let next = self.guarded.serve_keeping(txn, keep, since, &mut self.told);
        notices.put(self.told.as_slice());
        self.told.clear();
        Reply::of_keeping(next)
    }

    /// The same, and lets the one that begins rest.
    fn rest_keeping(&mut self, txn: TxnId, keep: usize, since: u64, notices: &mut Notices) -> Reply
        ensures { Replies self.old (resting_call txn keep since) result notices.new self.new }
    {
        let next = self.guarded.serve_resting(txn, keep, since, &mut self.told);
        notices.put(self.told.as_slice());
        self.told.clear();
        Reply::of_resting(next, keep)
    }

    /// The same, of the first locks that are intentions, up to so many, of which `known` are known to be.
    pub(crate) fn commit_and_rest(
        &mut self,
        txn: TxnId,
        known: usize,
        most: usize,
        since: u64,
        notices: &mut Notices,
    ) -> Reply
        ensures { RestsThere self.old txn known most since result notices.new self.new }
    {
        let keep = self.guarded.first_intentions(txn, known, most);
        if keep == 0 {
            notices.clear();
            return Reply::with_status(NO_PLACE);
        }
        self.rest_keeping(txn, keep, since, notices)
    }

    /// How many of the first locks of a transaction are intentions, up to so many, of which `known` are known to be.
    pub(crate) fn first_intentions(&self, txn: TxnId, known: usize, most: usize) -> Reply
        ensures { CountsIntentions self.now txn known most result }
    {
        Reply::with_count(self.guarded.first_intentions(txn, known, most) as u64)
    }

    /// Ends those who rest, or one of them, and writes the notices.
    pub(crate) fn end_resting(&mut self, whom: Whom, number: Number, notices: &mut Notices) -> Reply
        ensures { Replies self.old (end_call whom number) result notices.new self.new }
    {
        let ended = self.guarded.end_resting(whom, number, &mut self.told);
        notices.put(self.told.as_slice());
        self.told.clear();
        Reply::of_ended(ended)
    }

    /// Lets a transaction work again that rested.
    pub(crate) fn wake(&mut self, txn: TxnId) -> Reply
        ensures { WakesThere self.old txn result self.new }
    {
        Reply::of_found(self.guarded.wake(txn))
    }

    /// The slots of those who rest.
    pub(crate) fn resting(&self) -> Slots
        ensures { result ≡ self.now.resting }
    {
        self.guarded.resting()
    }

    /// Carries out a call about rows, and writes its notices.
    #[inline(always)]
    pub(crate) fn carry_out_row(&mut self, call: RowCall<'_>, notices: &mut Notices) -> Reply
        ensures { Replies self.old (row_call call.entry) result notices.new self.new }
    {
        let answer = self.guarded.serve_row(call, &mut self.told);
        notices.put(self.told.as_slice());
        self.told.clear();
        Reply::of_row_call(answer)
    }

    /// Tries to lock a node after what must be held above it, and writes the notices.
    pub(crate) fn try_path(
        &mut self,
        txn: TxnId,
        node: NodeId,
        mode: Mode,
        keep: Keep,
        notices: &mut Notices,
    ) -> Reply
        ensures { Replies self.old (tried_path_call keep txn (node, mode)) result notices.new self.new }
    {
        let tried = self.guarded.try_path(txn, node, mode, keep, &mut self.told);
        notices.put(self.told.as_slice());
        self.told.clear();
        Reply::of_tried(tried)
    }

    /// Tries to lock a row, and writes the notices.
    pub(crate) fn try_row(
        &mut self,
        txn: TxnId,
        row: Row,
        keys: &[u64],
        mode: Mode,
        notices: &mut Notices,
    ) -> Reply
        ensures { Replies self.old (tried_row_call (record { txn = txn; row = row; keys = keys.entry; mode = mode })) result notices.new self.new }
    {
        let tried = self.guarded.try_row(txn, row, keys, mode, &mut self.told);
        notices.put(self.told.as_slice());
        self.told.clear();
        Reply::of_tried_row(tried)
    }

    /// Carries out a call about rows that notifies nobody.
    pub(crate) fn ask_row(&mut self, call: RowCall<'_>) -> Reply
        ensures { Answers self.old (row_call call.entry) result self.new }
    {
        let answer = self.guarded.serve_row(call, &mut self.told);
        self.told.clear();
        Reply::of_row_call(answer)
    }

    /// Carries out a command that notifies nobody.
    #[inline(always)]
    pub(crate) fn ask(&mut self, command: Command<'_>) -> Reply
        ensures { Answers self.old (command_call command.entry) result self.new }
    {
        let answer = self.guarded.serve(command, &mut self.told);
        self.told.clear();
        Reply::of_served(answer)
    }

    /// Begins a transaction in turn.
    pub(crate) fn begin_in_turn(&mut self, begin: QueuedBegin) -> Reply
        ensures { Answers self.old (turn_call begin) result self.new }
    {
        Reply::of_turn(self.guarded.begin_in_turn(begin))
    }

    /// Registers the waiter of a request that a call left waiting.
    pub(crate) fn await_request(&mut self, waiter: Waiter) -> Reply
        ensures { AwaitsThere self.old waiter result self.new }
    {
        Reply::of_awaited(self.guarded.await_request(waiter))
    }

    /// Registers the waiter of a request that lacks a node above its own.
    pub(crate) fn climb(&mut self, waiter: Waiter) -> Reply
        ensures { ClimbsThere self.old waiter result self.new }
    {
        Reply::of_found(self.guarded.climb(waiter))
    }

    /// Removes the waiter of a transaction.
    pub(crate) fn withdraw_waiter(&mut self, txn: TxnId) -> Reply
        ensures { WithdrawsThere self.old txn result self.new }
    {
        Reply::of_found(self.guarded.withdraw_waiter(txn))
    }

    /// Continues the waiter of the lowest slot whose wait is over, and writes the notices.
    pub(crate) fn go_on(&mut self, notices: &mut Notices) -> Reply
        ensures { Replies self.old on_call result notices.new self.new }
    {
        let (came, over) = self.guarded.go_on(&mut self.told);
        notices.put(self.told.as_slice());
        self.told.clear();
        Reply::of_gone_on(came, over)
    }

    /// Cancels the wait of a transaction whose time is over, and writes the notices.
    pub(crate) fn time_out(&mut self, txn: TxnId, notices: &mut Notices) -> Reply
        ensures { Replies self.old (late_call txn) result notices.new self.new }
    {
        let end = self.guarded.time_out(txn, &mut self.told);
        notices.put(self.told.as_slice());
        self.told.clear();
        Reply::of_late(end)
    }

    /// What the waiter of the lowest slot does next whose wait is over.
    pub(crate) fn next_waiter(&self) -> Reply
        ensures { LooksNext self.now result }
    {
        Reply::of_next(self.guarded.next())
    }

    /// The transaction of the lowest slot whose wait should have ended by now.
    pub(crate) fn first_late(&self, now: u64) -> Reply
        ensures { result ≡ txn_reply (first_late now self.now.places) }
    {
        Reply::of_txn(self.guarded.first_late(now))
    }

    /// The earliest time at which a wait ends, for a lock or for a slot.
    pub(crate) fn earliest_time(&self) -> Reply
        ensures { result ≡ time_reply (earliest_time (waiting_in self.now)) }
    {
        Reply::of_time(self.guarded.earliest_time())
    }

    /// Takes the first of the begins that were handed on.
    pub(crate) fn take_begun(&mut self) -> Reply
        ensures reply { result ≡ begun_reply (slice_get self.old.begun 0) }
        ensures rest { self.new ≡ record self.old { begun = drop 1 self.old.begun } }
    {
        Reply::of_begun(self.guarded.take_begun())
    }

    /// Takes a begin of this name out of those that wait for a slot.
    pub(crate) fn withdraw_begin(&mut self, word: u64) -> Reply
        ensures reply { result ≡ found_reply (list_any (has_word word) self.old.queue) }
        ensures rest { self.new ≡ record self.old { queue = without_first (has_word word) self.old.queue } }
    {
        Reply::of_found(self.guarded.withdraw_begin(word))
    }

    /// Takes the first begin whose time is over out of those that wait for a slot.
    pub(crate) fn take_late_begin(&mut self, now: u64) -> Reply
        ensures reply { result ≡ word_reply (find (is_late now) self.old.queue) }
        ensures rest { self.new ≡ record self.old { queue = without_first (is_late now) self.old.queue } }
    {
        Reply::of_word(self.guarded.take_late_begin(now))
    }

    /// The node of a row.
    pub(crate) fn row_node(&self, row: Row) -> Reply
        ensures { result ≡ named_reply (name_of self.now.rows row) }
    {
        match self.guarded.node(row) {
            Some(node) => Reply::with_node(node),
            None => Reply::refused(Refusal::NoSuchNode),
        }
    }

    /// Answers a question.
    pub(crate) fn look(&self, query: Query) -> Reply
        ensures looked { result ≡ looked self.now.manager query }
        ensures law { IsLawfulManager self.now.manager }
    {
        let manager = self.guarded.manager();
        manager.law();
        look(manager, query)
    }

    /// The snapshot of this moment.
    pub(crate) fn board(&self) -> gl_waits::Board
        ensures { result ≡ board_of (state_of self.now.manager) }
    {
        self.guarded.manager().board()
    }

    /// What became of the transaction's wait for a node.
    pub(crate) fn verdict(&self, txn: TxnId, node: NodeId, mode: Mode) -> Reply
        ensures { result ≡ verdict_reply (verdict_of (state_of self.now.manager) self.now.boxes txn node mode) }
    {
        Reply::of_verdict(self.guarded.verdict(txn, node, mode))
    }

    /// The slots whose wait the last accepted command may have ended.
    pub(crate) fn ended(&self) -> Slots
        ensures { result ≡ self.now.ended }
    {
        self.guarded.ended()
    }

    /// A watcher that starts with the present snapshot.
    pub(crate) fn watch(&mut self, alloc: Global) -> Result<Watcher, WatchFault>
        ensures kept { OnlyShows self.old self.new }
        ensures watcher { IfOk result (λ watcher. (self.new.shown ≡ Some watcher) × Ends watcher.list (board_of (state_of self.old.manager))) }
    {
        self.guarded.watch(alloc)
    }

    /// The manager, for questions.
    pub(crate) fn manager(&self) -> &Manager
        ensures { result.now ≡ self.now.manager }
    {
        self.guarded.manager()
    }
}
