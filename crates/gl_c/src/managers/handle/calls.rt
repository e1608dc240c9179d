//! The session at the place of a manager: put there, removed, and used.

ghost use Rattle.std.specs.Prelude.{◌≡◌, [], IfSome, None, Some, is_some};
ghost use Rattle.std.specs.Option.{option_map};
ghost use Rattle.gl_c.specs.Boards.{Shows};
ghost use Rattle.gl_c.specs.managers.Carries.{Asks, Carries, command_call};
ghost use Rattle.gl_c.specs.managers.Handle.{guarded_in};
ghost use Rattle.gl_c.specs.questions.Counts.{Counting};
ghost use Rattle.gl_c.specs.questions.Deadlocks.{Recalls};
ghost use Rattle.gl_c.specs.answers.Finding.{FindsEnded, FindsIn};
ghost use Rattle.gl_graph.specs.Refusals.{first_refusal};
ghost use Rattle.gl_header.specs.Header.{holds};
ghost use Rattle.gl_model.specs.Calls.{group_tests, living_tests};
ghost use Rattle.gl_model.specs.State.{members, waits_for};
ghost use Rattle.gl_catalog.specs.Manager.{IsLawfulManager, state_of};
ghost use Rattle.gl_c.specs.questions.Looks.{Looks};
ghost use Rattle.gl_c.specs.questions.Visits.{AsksClear, AsksNext, FindsNext};
ghost use Rattle.gl_c.specs.locks.Paths.{path_call};
ghost use Rattle.gl_c.specs.locks.Resting.{CountsIntentionsIn, FindsResting, RestsIn, WakesIn, end_call};
ghost use Rattle.gl_c.specs.locks.Savepoints.{back_call, keeping_call};
ghost use Rattle.gl_c.specs.answers.Notices.{Tells};
ghost use Rattle.gl_c.specs.Numbers.{no_manager};
ghost use Rattle.gl_c.specs.answers.Replies.{status_reply};
ghost use Rattle.gl_c.specs.locks.Rows.{FindsRow, row_call};
ghost use Rattle.gl_c.specs.locks.Tries.{tried_path_call, tried_row_call};
ghost use Rattle.gl_c.specs.locks.Turns.{TakesBegun, TakesLate, Withdraws, turn_call};
ghost use Rattle.gl_c.specs.locks.Verdicts.{Judges};
ghost use Rattle.gl_c.specs.locks.Waiters.{AwaitsIn, ClimbsIn, FindsTime, FindsWaitLate, NextIn, WithdrawsIn, late_call, on_call};
ghost use Rattle.gl_c.specs.watchers.Watching.{Attends};

use super::Handle;
use crate::answers::found::{Found, holders, waits_for};
use crate::answers::notices::Notices;
use crate::answers::reply::Reply;
use crate::boards::board::Board;
use crate::crossing::hand_over;
use crate::managers::handle::held::Held;
use crate::managers::session::Session;
use crate::numbers::{DONE, NO_MANAGER};
use crate::questions::counts::Counts;
use crate::questions::deadlock::Deadlock;
use crate::questions::look::Query;
use crate::questions::visits::{is_clear_reply, next_copy_reply};
use gl_catalog::{Command, Manager};
use gl_modes::{Mode, NodeId};
use gl_rows::{Row, RowCall};
use gl_table::TxnId;
use gl_waiting::{Keep, Number, QueuedBegin, Waiter, Whom};
use gl_window::{WatchFault, Watcher};
use std::alloc::Global;
use std::mem::replace;

/// The reply if there is no manager; there are no notices.
fn declined(told: &mut Notices) -> Reply
    ensures replied { result ≡ status_reply no_manager }
    ensures tells { Tells told.new [] }
{
    told.clear();
    Reply::with_status(NO_MANAGER)
}

impl Handle {
    fn none(alloc: Global) -> Handle
        ensures { guarded_in result ≡ None }
    {
        Handle {
            is_open: false,
            held: Held::none(alloc),
            alloc,
        }
    }

    /// The place of this session.
    pub(crate) fn of(alloc: Global, session: Box<Session, Global>) -> Handle
        ensures { guarded_in result ≡ Some session.value }
    {
        Handle {
            is_open: true,
            held: Held::of(hand_over(session)),
            alloc,
        }
    }

    /// What memory is asked of.
    pub(crate) fn alloc(&self) -> Global {
        self.alloc
    }

    /// Whether there is a session.
    pub(crate) fn has_session(&self) -> bool
        ensures { result ≡ is_some (guarded_in self.now) }
    {
        self.is_open
    }

    /// Removes the session, if there is one.
    pub(crate) fn take(&mut self) -> Option<Box<Session, Global>>
        ensures taken { option_map (λ session. session.value) result ≡ guarded_in self.old }
        ensures none { guarded_in self.new ≡ None }
    {
        let alloc = self.alloc;
        let Handle { is_open, held, .. } = replace(self, Handle::none(alloc));
        if is_open {
            Some(held.into_session())
        } else {
            None
        }
    }

    /// Carries out a command, and writes its notices. Inlined, as all below it, so that a call for one
    /// kind of command makes no choice.
    #[inline(always)]
    pub(crate) fn carry_out(&mut self, command: Command<'_>, told: &mut Notices) -> Reply
        ensures { Carries (guarded_in self.old) (command_call command.entry) result told.new (guarded_in self.new) }
    {
        let alloc = self.alloc;
        let Some(mut session) = self.take() else {
            return declined(told);
        };
        let reply = session.carry_out(command, told);
        *self = Handle::of(alloc, session);
        reply
    }

    /// Locks a node after what must be held above it, and writes the notices. Inlined, so that the
    /// reply is copied once.
    #[inline(always)]
    pub(crate) fn lock_path(
        &mut self,
        txn: TxnId,
        node: NodeId,
        mode: Mode,
        told: &mut Notices,
    ) -> Reply
        ensures { Carries (guarded_in self.old) (path_call txn (node, mode)) result told.new (guarded_in self.new) }
    {
        let alloc = self.alloc;
        let Some(mut session) = self.take() else {
            return declined(told);
        };
        let reply = session.lock_path(txn, node, mode, told);
        *self = Handle::of(alloc, session);
        reply
    }

    /// Rolls back to a savepoint, and writes the notices.
    pub(crate) fn release_since(&mut self, txn: TxnId, mark: usize, told: &mut Notices) -> Reply
        ensures { Carries (guarded_in self.old) (back_call txn mark) result told.new (guarded_in self.new) }
    {
        let alloc = self.alloc;
        let Some(mut session) = self.take() else {
            return declined(told);
        };
        let reply = session.release_since(txn, mark, told);
        *self = Handle::of(alloc, session);
        reply
    }

    /// Commits a transaction and begins another in its slot that keeps its first `keep` locks, and
    /// writes the notices.
    pub(crate) fn commit_keeping(
        &mut self,
        txn: TxnId,
        keep: usize,
        since: u64,
        told: &mut Notices,
    ) -> Reply
        ensures { Carries (guarded_in self.old) (keeping_call txn keep since) result told.new (guarded_in self.new) }
    {
        let alloc = self.alloc;
        let Some(mut session) = self.take() else {
            return declined(told);
        };
        let reply = session.commit_keeping(txn, keep, since, told);
        *self = Handle::of(alloc, session);
        reply
    }

    /// The same, of the first locks that are intentions, and lets the one that begins rest.
    pub(crate) fn commit_and_rest(
        &mut self,
        txn: TxnId,
        known: usize,
        most: usize,
        since: u64,
        told: &mut Notices,
    ) -> Reply
        ensures { RestsIn (guarded_in self.old) txn known most since result told.new (guarded_in self.new) }
    {
        let alloc = self.alloc;
        let Some(mut session) = self.take() else {
            return declined(told);
        };
        let reply = session.commit_and_rest(txn, known, most, since, told);
        *self = Handle::of(alloc, session);
        reply
    }

    /// How many of the first locks of a transaction are intentions.
    pub(crate) fn first_intentions(&mut self, txn: TxnId, known: usize, most: usize) -> Reply
        ensures { CountsIntentionsIn (guarded_in self.old) txn known most result (guarded_in self.new) }
    {
        let alloc = self.alloc;
        let Some(session) = self.take() else {
            return Reply::with_status(NO_MANAGER);
        };
        let reply = session.first_intentions(txn, known, most);
        *self = Handle::of(alloc, session);
        reply
    }

    /// Ends those who rest, or one of them, and writes the notices.
    pub(crate) fn end_resting(&mut self, whom: Whom, number: Number, told: &mut Notices) -> Reply
        ensures { Carries (guarded_in self.old) (end_call whom number) result told.new (guarded_in self.new) }
    {
        let alloc = self.alloc;
        let Some(mut session) = self.take() else {
            return declined(told);
        };
        let reply = session.end_resting(whom, number, told);
        *self = Handle::of(alloc, session);
        reply
    }

    /// Lets a transaction work again that rested.
    pub(crate) fn wake(&mut self, txn: TxnId) -> Reply
        ensures { WakesIn (guarded_in self.old) txn result (guarded_in self.new) }
    {
        let alloc = self.alloc;
        let Some(mut session) = self.take() else {
            return Reply::with_status(NO_MANAGER);
        };
        let reply = session.wake(txn);
        *self = Handle::of(alloc, session);
        reply
    }

    /// Carries out a call about rows, and writes its notices.
    #[inline(always)]
    pub(crate) fn carry_out_row(&mut self, call: RowCall<'_>, told: &mut Notices) -> Reply
        ensures { Carries (guarded_in self.old) (row_call call.entry) result told.new (guarded_in self.new) }
    {
        let alloc = self.alloc;
        let Some(mut session) = self.take() else {
            return declined(told);
        };
        let reply = session.carry_out_row(call, told);
        *self = Handle::of(alloc, session);
        reply
    }

    /// Tries to lock a node after what must be held above it, and writes the notices.
    pub(crate) fn try_path(
        &mut self,
        txn: TxnId,
        node: NodeId,
        mode: Mode,
        keep: Keep,
        told: &mut Notices,
    ) -> Reply
        ensures { Carries (guarded_in self.old) (tried_path_call keep txn (node, mode)) result told.new (guarded_in self.new) }
    {
        let alloc = self.alloc;
        let Some(mut session) = self.take() else {
            return declined(told);
        };
        let reply = session.try_path(txn, node, mode, keep, told);
        *self = Handle::of(alloc, session);
        reply
    }

    /// Tries to lock a row, and writes the notices.
    pub(crate) fn try_row(
        &mut self,
        txn: TxnId,
        row: Row,
        keys: &[u64],
        mode: Mode,
        told: &mut Notices,
    ) -> Reply
        ensures { Carries (guarded_in self.old) (tried_row_call (record { txn = txn; row = row; keys = keys.entry; mode = mode })) result told.new
            (guarded_in self.new) }
    {
        let alloc = self.alloc;
        let Some(mut session) = self.take() else {
            return declined(told);
        };
        let reply = session.try_row(txn, row, keys, mode, told);
        *self = Handle::of(alloc, session);
        reply
    }

    /// Carries out a call about rows that notifies nobody.
    pub(crate) fn ask_row(&mut self, call: RowCall<'_>) -> Reply
        ensures { Asks (guarded_in self.old) (row_call call.entry) result (guarded_in self.new) }
    {
        let alloc = self.alloc;
        let Some(mut session) = self.take() else {
            return Reply::with_status(NO_MANAGER);
        };
        let reply = session.ask_row(call);
        *self = Handle::of(alloc, session);
        reply
    }

    /// Carries out a command that notifies nobody.
    #[inline(always)]
    pub(crate) fn ask(&mut self, command: Command<'_>) -> Reply
        ensures { Asks (guarded_in self.old) (command_call command.entry) result (guarded_in self.new) }
    {
        let alloc = self.alloc;
        let Some(mut session) = self.take() else {
            return Reply::with_status(NO_MANAGER);
        };
        let reply = session.ask(command);
        *self = Handle::of(alloc, session);
        reply
    }

    /// Answers a question.
    pub(crate) fn look(&mut self, query: Query) -> Reply
        ensures looks { Looks (guarded_in self.old) query result (guarded_in self.new) }
        ensures law { IfSome (guarded_in self.old) (λ g. IsLawfulManager g.manager) }
    {
        let alloc = self.alloc;
        let Some(session) = self.take() else {
            return Reply::with_status(NO_MANAGER);
        };
        let reply = session.look(query);
        *self = Handle::of(alloc, session);
        reply
    }

    /// Begins a transaction in turn.
    pub(crate) fn begin_in_turn(&mut self, begin: QueuedBegin) -> Reply
        ensures { Asks (guarded_in self.old) (turn_call begin) result (guarded_in self.new) }
    {
        let alloc = self.alloc;
        let Some(mut session) = self.take() else {
            return Reply::with_status(NO_MANAGER);
        };
        let reply = session.begin_in_turn(begin);
        *self = Handle::of(alloc, session);
        reply
    }

    /// Registers the waiter of a request that a call left waiting.
    pub(crate) fn await_request(&mut self, waiter: Waiter) -> Reply
        ensures { AwaitsIn (guarded_in self.old) waiter result (guarded_in self.new) }
    {
        let alloc = self.alloc;
        let Some(mut session) = self.take() else {
            return Reply::with_status(NO_MANAGER);
        };
        let reply = session.await_request(waiter);
        *self = Handle::of(alloc, session);
        reply
    }

    /// Registers the waiter of a request that lacks a node above its own.
    pub(crate) fn climb(&mut self, waiter: Waiter) -> Reply
        ensures { ClimbsIn (guarded_in self.old) waiter result (guarded_in self.new) }
    {
        let alloc = self.alloc;
        let Some(mut session) = self.take() else {
            return Reply::with_status(NO_MANAGER);
        };
        let reply = session.climb(waiter);
        *self = Handle::of(alloc, session);
        reply
    }

    /// Removes the waiter of a transaction.
    pub(crate) fn withdraw_waiter(&mut self, txn: TxnId) -> Reply
        ensures { WithdrawsIn (guarded_in self.old) txn result (guarded_in self.new) }
    {
        let alloc = self.alloc;
        let Some(mut session) = self.take() else {
            return Reply::with_status(NO_MANAGER);
        };
        let reply = session.withdraw_waiter(txn);
        *self = Handle::of(alloc, session);
        reply
    }

    /// Continues the waiter of the lowest slot whose wait is over, and writes the notices.
    pub(crate) fn go_on(&mut self, told: &mut Notices) -> Reply
        ensures { Carries (guarded_in self.old) on_call result told.new (guarded_in self.new) }
    {
        let alloc = self.alloc;
        let Some(mut session) = self.take() else {
            return declined(told);
        };
        let reply = session.go_on(told);
        *self = Handle::of(alloc, session);
        reply
    }

    /// Cancels the wait of a transaction whose time is over, and writes the notices.
    pub(crate) fn time_out(&mut self, txn: TxnId, told: &mut Notices) -> Reply
        ensures { Carries (guarded_in self.old) (late_call txn) result told.new (guarded_in self.new) }
    {
        let alloc = self.alloc;
        let Some(mut session) = self.take() else {
            return declined(told);
        };
        let reply = session.time_out(txn, told);
        *self = Handle::of(alloc, session);
        reply
    }

    /// What the waiter of the lowest slot does next whose wait is over.
    pub(crate) fn next_waiter(&mut self) -> Reply
        ensures { NextIn (guarded_in self.old) result (guarded_in self.new) }
    {
        let alloc = self.alloc;
        let Some(session) = self.take() else {
            return Reply::with_status(NO_MANAGER);
        };
        let reply = session.next_waiter();
        *self = Handle::of(alloc, session);
        reply
    }

    /// The transaction of the lowest slot whose wait should have ended by now.
    pub(crate) fn first_late(&mut self, now: u64) -> Reply
        ensures { FindsWaitLate (guarded_in self.old) now result (guarded_in self.new) }
    {
        let alloc = self.alloc;
        let Some(session) = self.take() else {
            return Reply::with_status(NO_MANAGER);
        };
        let reply = session.first_late(now);
        *self = Handle::of(alloc, session);
        reply
    }

    /// The earliest time at which a wait ends, for a lock or for a slot.
    pub(crate) fn earliest_time(&mut self) -> Reply
        ensures { FindsTime (guarded_in self.old) result (guarded_in self.new) }
    {
        let alloc = self.alloc;
        let Some(session) = self.take() else {
            return Reply::with_status(NO_MANAGER);
        };
        let reply = session.earliest_time();
        *self = Handle::of(alloc, session);
        reply
    }

    /// Takes the first of the begins that were handed on.
    pub(crate) fn take_begun(&mut self) -> Reply
        ensures { TakesBegun (guarded_in self.old) result (guarded_in self.new) }
    {
        let alloc = self.alloc;
        let Some(mut session) = self.take() else {
            return Reply::with_status(NO_MANAGER);
        };
        let reply = session.take_begun();
        *self = Handle::of(alloc, session);
        reply
    }

    /// Takes a begin of this name out of those that wait for a slot.
    pub(crate) fn withdraw_begin(&mut self, word: u64) -> Reply
        ensures { Withdraws (guarded_in self.old) word result (guarded_in self.new) }
    {
        let alloc = self.alloc;
        let Some(mut session) = self.take() else {
            return Reply::with_status(NO_MANAGER);
        };
        let reply = session.withdraw_begin(word);
        *self = Handle::of(alloc, session);
        reply
    }

    /// Takes the first begin whose time is over out of those that wait for a slot.
    pub(crate) fn take_late_begin(&mut self, now: u64) -> Reply
        ensures { TakesLate (guarded_in self.old) now result (guarded_in self.new) }
    {
        let alloc = self.alloc;
        let Some(mut session) = self.take() else {
            return Reply::with_status(NO_MANAGER);
        };
        let reply = session.take_late_begin(now);
        *self = Handle::of(alloc, session);
        reply
    }

    /// The node of a row.
    pub(crate) fn row_node(&mut self, row: Row) -> Reply
        ensures { FindsRow (guarded_in self.old) row result (guarded_in self.new) }
    {
        let alloc = self.alloc;
        let Some(session) = self.take() else {
            return Reply::with_status(NO_MANAGER);
        };
        let reply = session.row_node(row);
        *self = Handle::of(alloc, session);
        reply
    }

    /// Writes the snapshot of this moment.
    pub(crate) fn show(&mut self, board: &mut Board) -> Reply
        ensures { Shows (guarded_in self.old) result board.old board.new (guarded_in self.new) }
    {
        let alloc = self.alloc;
        let Some(session) = self.take() else {
            return Reply::with_status(NO_MANAGER);
        };
        board.put(session.board());
        *self = Handle::of(alloc, session);
        Reply::with_status(DONE)
    }

    /// What became of the transaction's wait for a node.
    pub(crate) fn verdict(&mut self, txn: TxnId, node: NodeId, mode: Mode) -> Reply
        ensures { Judges (guarded_in self.old) txn node mode result (guarded_in self.new) }
    {
        let alloc = self.alloc;
        let Some(session) = self.take() else {
            return Reply::with_status(NO_MANAGER);
        };
        let reply = session.verdict(txn, node, mode);
        *self = Handle::of(alloc, session);
        reply
    }

    /// The slots whose wait the last accepted command may have ended.
    pub(crate) fn ended(&mut self) -> Found
        ensures { FindsEnded (guarded_in self.old) result (guarded_in self.new) }
    {
        let alloc = self.alloc;
        let Some(session) = self.take() else {
            return Found::none(NO_MANAGER);
        };
        let found = Found::of(session.ended().bits());
        *self = Handle::of(alloc, session);
        found
    }

    /// The slots of those who rest.
    pub(crate) fn resting(&mut self) -> Found
        ensures { FindsResting (guarded_in self.old) result (guarded_in self.new) }
    {
        let alloc = self.alloc;
        let Some(session) = self.take() else {
            return Found::none(NO_MANAGER);
        };
        let found = Found::of(session.resting().bits());
        *self = Handle::of(alloc, session);
        found
    }

    /// A watcher that starts with the present snapshot; `None` if there is no manager.
    pub(crate) fn watch(&mut self) -> Option<Result<Watcher, WatchFault>>
        ensures { Attends (guarded_in self.old) result (guarded_in self.new) }
    {
        let alloc = self.alloc;
        let Some(mut session) = self.take() else {
            return None;
        };
        let watcher = session.watch(alloc);
        *self = Handle::of(alloc, session);
        Some(watcher)
    }

    /// The slots of the transactions that hold a node.
    pub(crate) fn holders(&mut self, node: NodeId) -> Found
        ensures { FindsIn (guarded_in self.old) (λ s. first_refusal (group_tests s node)) (λ s u. holds (members s node) u) result (guarded_in self.new) }
    {
        let alloc = self.alloc;
        let Some(session) = self.take() else {
            return Found::none(NO_MANAGER);
        };
        let found = holders(session.manager(), node);
        *self = Handle::of(alloc, session);
        found
    }

    /// The slots for which a transaction waits.
    pub(crate) fn waits_for(&mut self, txn: TxnId) -> Found
        ensures { FindsIn (guarded_in self.old) (λ s. first_refusal (living_tests s txn)) (λ s u. waits_for s txn.slot u) result (guarded_in self.new) }
    {
        let alloc = self.alloc;
        let Some(session) = self.take() else {
            return Found::none(NO_MANAGER);
        };
        let found = waits_for(session.manager(), txn);
        *self = Handle::of(alloc, session);
        found
    }

    /// What a visit of a part is to copy next to this manager.
    pub(crate) fn next_copy(&mut self, node: NodeId, part: &mut Handle, in_part: NodeId) -> Reply
        ensures { AsksNext (guarded_in self.old) node (guarded_in part.old) in_part result (guarded_in self.new) (guarded_in part.new) }
    {
        let alloc = self.alloc;
        let Some(session) = self.take() else {
            return Reply::with_status(NO_MANAGER);
        };
        let reply = part.next_copy_to(session.manager(), node, in_part);
        *self = Handle::of(alloc, session);
        reply
    }

    /// What a visit of this part is to copy next to a main manager.
    fn next_copy_to(&mut self, main: &Manager, in_main: NodeId, in_part: NodeId) -> Reply
        ensures { FindsNext (state_of main.now) in_main (guarded_in self.old) in_part result (guarded_in self.new) }
    {
        let alloc = self.alloc;
        let Some(session) = self.take() else {
            return Reply::with_status(NO_MANAGER);
        };
        let reply = next_copy_reply(main, in_main, session.manager(), in_part);
        *self = Handle::of(alloc, session);
        reply
    }

    /// Whether a node is clear.
    pub(crate) fn is_clear(&mut self, node: NodeId) -> Reply
        ensures { AsksClear (guarded_in self.old) node result (guarded_in self.new) }
    {
        let alloc = self.alloc;
        let Some(session) = self.take() else {
            return Reply::with_status(NO_MANAGER);
        };
        let reply = is_clear_reply(session.manager(), node);
        *self = Handle::of(alloc, session);
        reply
    }

    /// Writes the last deadlock.
    pub(crate) fn recall(&mut self, deadlock: &mut Deadlock) -> Reply
        ensures { Recalls (guarded_in self.old) result deadlock.old deadlock.new (guarded_in self.new) }
    {
        let alloc = self.alloc;
        let Some(session) = self.take() else {
            return Reply::with_status(NO_MANAGER);
        };
        let reply = deadlock.recall(session.manager());
        *self = Handle::of(alloc, session);
        reply
    }

    /// Writes what the manager has done.
    pub(crate) fn count(&mut self, counts: &mut Counts) -> Reply
        ensures { Counting (guarded_in self.old) result counts.old counts.new (guarded_in self.new) }
    {
        let alloc = self.alloc;
        let Some(session) = self.take() else {
            return Reply::with_status(NO_MANAGER);
        };
        let manager = session.manager();
        *counts = Counts::of(manager.accepted(), manager.counters());
        *self = Handle::of(alloc, session);
        Reply::with_status(DONE)
    }
}
