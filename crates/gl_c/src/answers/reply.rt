//! Replies to C.

ghost use Rattle.std.specs.Prelude.{◌≡◌};
ghost use Rattle.gl_steps.specs.declared.command.Answer.TheVariants as answer;
ghost use Rattle.gl_c.specs.locks.Resting.{ended_reply, resting_reply};
ghost use Rattle.gl_c.specs.locks.Paths.{path_reply, reached_reply, reply_at};
ghost use Rattle.gl_c.specs.answers.Replies.{count_reply, refused_at, refused_reply, reply_of, served_reply, status_reply};
ghost use Rattle.gl_c.specs.locks.Rows.{call_reply, row_lock_status};
ghost use Rattle.gl_c.specs.locks.Savepoints.{back_reply, keeping_reply};
ghost use Rattle.gl_c.specs.locks.Tries.{tried_reply, tried_row_reply};
ghost use Rattle.gl_c.specs.locks.Turns.{begun_reply, found_reply, turn_reply, word_reply};
ghost use Rattle.gl_c.specs.locks.Verdicts.{verdict_reply};
ghost use Rattle.gl_c.specs.Numbers.{mode_number};
ghost use Rattle.gl_c.specs.locks.Waiters.{awaited_reply, came_reply, late_reply, next_by, next_reply, on_reply, outcome_reply, time_reply, txn_reply};
ghost use Rattle.gl_waiting.specs.Asking.{begin_said};

use crate::names::{Node, Txn};
use crate::numbers::{
    DONE, GONE, IN_USE, MOVED, NO_PLACE, NOT_ROWS, ON_THE_WAY, OTHER_KEYS, ROWS_BY_NUMBER,
    TIMED_OUT, VICTIM, WAITING, effect_number, mode_number,
};
use gl_catalog::{Answer, Reached};
use gl_modes::{Mode, NodeId, Refusal};
use gl_rows::RowAnswer;
use gl_table::{Locked, TxnId};
use gl_waiting::{Came, Ended, Next, Outcome, QueuedBegin, RowTried, Tried, Turn, Waiter};
use gl_wakes::{Grant, Stop};

/// The answer of a call: a status, what the call answers, and zero in all other fields.
#[repr(C)]
#[derive(Clone, Copy)]
pub struct Reply {
    /// Zero if it was done, the number of a refusal, 1 to 23, or one of the numbers above.
    pub status: u32,
    /// The number of a mode.
    pub mode: u32,
    /// The node that was made or asked about, or that the refusal names.
    pub node: Node,
    /// The transaction that began or was asked about.
    pub txn: Txn,
    /// How many children an escalation released.
    pub released: u32,
    /// How many held children an escalation kept.
    pub kept: u32,
    /// The number that was asked about.
    pub count: u64,
    /// The number of the mode in which the transaction waits for a listed node.
    pub wanted: u32,
}

impl Reply {
    /// A status alone.
    pub(crate) fn with_status(status: u32) -> Reply
        ensures { result ≡ status_reply status }
    {
        Reply {
            status,
            mode: 0,
            node: Node::of(NodeId::NONE),
            txn: Txn::of(TxnId::NONE),
            released: 0,
            kept: 0,
            count: 0,
            wanted: 0,
        }
    }

    /// A status, and the node that it is about.
    fn about(status: u32, node: NodeId) -> Reply
        ensures { result ≡ reply_at node (status_reply status) }
    {
        Reply {
            node: Node::of(node),
            ..Reply::with_status(status)
        }
    }

    /// The reply for an answer.
    pub(crate) fn of(answer: Answer) -> Reply
        ensures { result ≡ reply_of answer }
    {
        match answer {
            Answer::Done => Reply::with_status(DONE),
            Answer::Node(node) => Reply::with_node(node),
            Answer::Begun(txn) => Reply {
                txn: Txn::of(txn),
                ..Reply::with_status(DONE)
            },
            Answer::Granted(mode) | Answer::Mode(mode) => Reply::with_mode(mode),
            Answer::Waiting => Reply::with_status(WAITING),
            Answer::Victim => Reply::with_status(VICTIM),
            Answer::Escalated(escalated) => Reply {
                mode: mode_number(escalated.mode),
                released: escalated.released,
                kept: escalated.kept,
                ..Reply::with_status(DONE)
            },
            Answer::Effect(effect) => Reply {
                mode: effect_number(effect),
                ..Reply::with_status(DONE)
            },
            Answer::Refused(refusal) => Reply::refused(refusal),
        }
    }

    /// The reply for a command; `None` is one that would insert, delete or change a record of a file of
    /// rows. Inlined, so that a call for one kind of command makes no choice.
    #[inline(always)]
    pub(crate) fn of_served(answer: Option<Answer>) -> Reply
        ensures { result ≡ served_reply answer }
    {
        match answer {
            Some(answer) => Reply::of(answer),
            None => Reply::with_status(ROWS_BY_NUMBER),
        }
    }

    /// The reply for a verdict.
    pub(crate) fn of_verdict(verdict: Option<Result<Grant, Stop>>) -> Reply
        ensures { result ≡ verdict_reply verdict }
    {
        match verdict {
            None => Reply::with_status(WAITING),
            Some(Ok(grant)) => Reply::with_mode(grant.mode),
            Some(Err(Stop::Refused(refusal))) => Reply::refused(refusal),
            Some(Err(Stop::Victim)) => Reply::with_status(VICTIM),
            Some(Err(Stop::Moved)) => Reply::with_status(MOVED),
            Some(Err(Stop::Gone)) => Reply::with_status(GONE),
        }
    }

    /// The reply for a path to a node. Inlined, so that the reply is copied once.
    #[inline(always)]
    pub(crate) fn of_path(node: NodeId, reached: Result<Reached, Refusal>) -> Reply
        ensures { result ≡ path_reply node reached }
    {
        match reached {
            Ok(Reached { node: at, locked }) => Reply::of_reached(node, at, locked),
            Err(refusal) => Reply::refused(refusal),
        }
    }

    /// The reply for the last request of a path to a node.
    fn of_reached(node: NodeId, at: NodeId, locked: Locked) -> Reply
        ensures { result ≡ reached_reply node at locked }
    {
        match locked {
            Locked::Granted(mode) if at == node => Reply::with_mode(mode),
            Locked::Granted(_) => Reply::about(ON_THE_WAY, at),
            Locked::Waiting => Reply::about(WAITING, at),
            Locked::Victim => Reply::about(VICTIM, at),
        }
    }

    /// The reply for a transaction that rolls back to a savepoint.
    pub(crate) fn of_back(released: Result<usize, Refusal>) -> Reply
        ensures { result ≡ back_reply released }
    {
        match released {
            Ok(released) => Reply::with_count(released as u64),
            Err(refusal) => Reply::refused(refusal),
        }
    }

    /// The reply for a commit that keeps locks: the transaction that began, if one did.
    pub(crate) fn of_keeping(next: Result<Option<TxnId>, Refusal>) -> Reply
        ensures { result ≡ keeping_reply next }
    {
        match next {
            Ok(Some(txn)) => Reply::of(Answer::Begun(txn)),
            Ok(None) => Reply::of(Answer::Done),
            Err(refusal) => Reply::refused(refusal),
        }
    }

    /// The same of one that rests, with the number of locks that it keeps.
    pub(crate) fn of_resting(next: Result<Option<TxnId>, Refusal>, keep: usize) -> Reply
        ensures { result ≡ resting_reply keep next }
    {
        match next {
            Ok(Some(txn)) => Reply {
                count: keep as u64,
                ..Reply::of(Answer::Begun(txn))
            },
            _ => Reply::of_keeping(next),
        }
    }

    /// The reply for a call about rows; if it is a lock that is not refused, with the row's node.
    /// Inlined for the same reason.
    #[inline(always)]
    pub(crate) fn of_row_call(answer: RowAnswer) -> Reply
        ensures { result ≡ call_reply answer }
    {
        match answer {
            RowAnswer::Locked(x) => Reply::of_row_lock(x.locked, x.own_keys).at(x.node),
            RowAnswer::Answered(answer) => Reply::of(answer),
            RowAnswer::NotRows => Reply::with_status(NOT_ROWS),
        }
    }

    /// The reply for those who rested and were to be ended; `None` if nobody was.
    pub(crate) fn of_ended(ended: Option<Ended>) -> Reply
        ensures { result ≡ ended_reply ended }
    {
        match ended {
            Some(ended) => Reply {
                txn: Txn::of(ended.last),
                ..Reply::of_served(ended.answer)
            },
            None => Reply::with_status(NO_PLACE),
        }
    }

    /// The reply for the lock of a row's node, without the node.
    fn of_row_lock(locked: Locked, own_keys: bool) -> Reply
        ensures { result ≡ row_lock_status locked own_keys }
    {
        match locked {
            Locked::Granted(mode) if own_keys => Reply::with_mode(mode),
            Locked::Granted(mode) => Reply {
                status: OTHER_KEYS,
                ..Reply::with_mode(mode)
            },
            Locked::Waiting => Reply::with_status(WAITING),
            Locked::Victim => Reply::with_status(VICTIM),
        }
    }

    /// The reply for a tried path.
    pub(crate) fn of_tried(tried: Tried) -> Reply
        ensures { result ≡ tried_reply tried }
    {
        match tried {
            Tried::Granted(mode) => Reply::with_mode(mode),
            Tried::WouldBlock(node) => Reply::refused(Refusal::WouldBlock).at(node),
            Tried::Refused(refusal) => Reply::refused(refusal),
        }
    }

    /// The reply for a tried row.
    pub(crate) fn of_tried_row(tried: RowTried) -> Reply
        ensures { result ≡ tried_row_reply tried }
    {
        match tried {
            RowTried::Granted { node, mode } => {
                Reply::of_row_lock(Locked::Granted(mode), true).at(node)
            }
            RowTried::OtherKeys { node, mode } => {
                Reply::of_row_lock(Locked::Granted(mode), false).at(node)
            }
            RowTried::WouldBlock(node) => Reply::refused(Refusal::WouldBlock).at(node),
            RowTried::Refused(refusal) => Reply::refused(refusal),
            RowTried::NotRows => Reply::with_status(NOT_ROWS),
        }
    }

    /// The reply for a begin in turn.
    pub(crate) fn of_turn(turn: Turn) -> Reply
        ensures { result ≡ turn_reply turn }
    {
        match turn {
            Turn::Came(came) => Reply::of_begin(came),
            Turn::Queued => Reply::with_status(WAITING),
            Turn::NoMemory => Reply::refused(Refusal::NoMemory),
        }
    }

    /// The reply for a begin.
    fn of_begin(came: Result<TxnId, Refusal>) -> Reply
        ensures { result ≡ reply_of (begin_said came) }
    {
        match came {
            Ok(txn) => Reply::of(Answer::Begun(txn)),
            Err(refusal) => Reply::refused(refusal),
        }
    }

    /// The reply for a begin that was handed on, with its name.
    pub(crate) fn of_begun(begun: Option<(QueuedBegin, Result<TxnId, Refusal>)>) -> Reply
        ensures { result ≡ begun_reply begun }
    {
        match begun {
            Some((begin, came)) => Reply {
                count: begin.word,
                ..Reply::of_begin(came)
            },
            None => Reply::with_status(NO_PLACE),
        }
    }

    /// The reply for the end of a wait; if it was not granted, with the node for which it waited.
    fn of_outcome(outcome: Outcome) -> Reply
        ensures { result ≡ outcome_reply outcome }
    {
        match outcome {
            Outcome::Granted(mode) => Reply::with_mode(mode),
            Outcome::RowGranted { node, mode } => {
                Reply::of_row_lock(Locked::Granted(mode), true).at(node)
            }
            Outcome::OtherKeys { node, mode } => {
                Reply::of_row_lock(Locked::Granted(mode), false).at(node)
            }
            Outcome::Victim(node) => Reply::about(VICTIM, node),
            Outcome::Moved(node) => Reply::about(MOVED, node),
            Outcome::Gone(node) => Reply::about(GONE, node),
            Outcome::Refused(refusal) => Reply::refused(refusal),
            Outcome::NotRows => Reply::with_status(NOT_ROWS),
            Outcome::TimedOut(node) => Reply::about(TIMED_OUT, node),
        }
    }

    /// The reply for what a request came to.
    fn of_came(came: Came) -> Reply
        ensures { result ≡ came_reply came }
    {
        match came {
            Came::Ended(outcome) => Reply::of_outcome(outcome),
            Came::Waits { at, wanted } => Reply {
                mode: mode_number(wanted),
                ..Reply::about(WAITING, at)
            },
            Came::Holds { at, mode } => Reply {
                mode: mode_number(mode),
                ..Reply::about(ON_THE_WAY, at)
            },
            Came::Lacks { at, wanted } => Reply {
                mode: mode_number(wanted),
                ..Reply::about(ON_THE_WAY, at)
            },
        }
    }

    /// The reply to who awaits a request; `None` if its slot has a waiter already.
    pub(crate) fn of_awaited(came: Option<Came>) -> Reply
        ensures { result ≡ awaited_reply came }
    {
        match came {
            Some(came) => Reply::of_came(came),
            None => Reply::with_status(IN_USE),
        }
    }

    /// The reply for a waiter that went on, and whether the wait of one is over after that; `None` if there
    /// was none.
    pub(crate) fn of_gone_on(came: Option<(TxnId, Came)>, over: bool) -> Reply
        ensures { result ≡ on_reply came over }
    {
        match came {
            Some((txn, came)) => Reply {
                txn: Txn::of(txn),
                count: if over { 1 } else { 0 },
                ..Reply::of_came(came)
            },
            None => Reply::with_status(NO_PLACE),
        }
    }

    /// The reply for a wait that was cancelled since its time is over; `None` if none was.
    pub(crate) fn of_late(end: Option<Outcome>) -> Reply
        ensures { result ≡ late_reply end }
    {
        match end {
            Some(outcome) => Reply::of_outcome(outcome),
            None => Reply::with_status(NO_PLACE),
        }
    }

    /// The reply for what a waiter does next: a number for it, its node, and its mode.
    fn of_waiter(waiter: Waiter, next: Next) -> Reply
        ensures { result ≡ next_by waiter next }
    {
        match next {
            Next::End(_) => Reply::with_count(0),
            Next::GiveBack(_) => Reply::with_count(1).at(waiter.request.node()),
            Next::GoOn { node, mode } => Reply::in_mode(2, mode).at(node),
            Next::LockAgain { mode, .. } => Reply::in_mode(3, mode).at(waiter.at),
            Next::LockRow { mode, .. } => Reply::in_mode(4, mode).at(waiter.at),
        }
    }

    /// A number and a mode.
    fn in_mode(count: u64, mode: Mode) -> Reply
        ensures { result ≡ record (count_reply count) { mode = mode_number mode } }
    {
        Reply {
            mode: mode_number(mode),
            ..Reply::with_count(count)
        }
    }

    /// The same with its transaction; `None` if no wait is over.
    pub(crate) fn of_next(next: Option<(Waiter, Next)>) -> Reply
        ensures { result ≡ next_reply next }
    {
        match next {
            Some((waiter, next)) => Reply {
                txn: Txn::of(waiter.txn),
                ..Reply::of_waiter(waiter, next)
            },
            None => Reply::with_status(NO_PLACE),
        }
    }

    /// The reply with a transaction; `None` if there is none.
    pub(crate) fn of_txn(txn: Option<TxnId>) -> Reply
        ensures { result ≡ txn_reply txn }
    {
        match txn {
            Some(txn) => Reply {
                txn: Txn::of(txn),
                ..Reply::with_status(DONE)
            },
            None => Reply::with_status(NO_PLACE),
        }
    }

    /// The reply with the earliest time at which a wait ends.
    pub(crate) fn of_time(time: Option<u64>) -> Reply
        ensures { result ≡ time_reply time }
    {
        match time {
            Some(time) => Reply::with_count(time),
            None => Reply::with_status(NO_PLACE),
        }
    }

    /// The reply whether a begin waited for a slot.
    pub(crate) fn of_found(found: bool) -> Reply
        ensures { result ≡ found_reply found }
    {
        Reply::with_status(if found { DONE } else { NO_PLACE })
    }

    /// The name of a begin.
    pub(crate) fn of_word(begin: Option<QueuedBegin>) -> Reply
        ensures { result ≡ word_reply begin }
    {
        match begin {
            Some(begin) => Reply::with_count(begin.word),
            None => Reply::with_status(NO_PLACE),
        }
    }

    /// The same reply, with this node.
    fn at(self, node: NodeId) -> Reply
        ensures { result ≡ reply_at node self }
    {
        Reply {
            node: Node::of(node),
            ..self
        }
    }

    /// A number that was asked about.
    pub(crate) fn with_count(count: u64) -> Reply
        ensures { result ≡ count_reply count }
    {
        Reply {
            count,
            ..Reply::with_status(DONE)
        }
    }

    /// A node that was made or asked about.
    pub(crate) fn with_node(node: NodeId) -> Reply
        ensures { result ≡ reply_of (answer.Node node) }
    {
        Reply::about(DONE, node)
    }

    /// A mode that was asked about.
    pub(crate) fn with_mode(mode: Mode) -> Reply
        ensures { result ≡ reply_of (answer.Mode mode) }
    {
        Reply {
            mode: mode_number(mode),
            ..Reply::with_status(DONE)
        }
    }

    /// The number of a refusal, and the node that it names.
    pub(crate) fn refused(refusal: Refusal) -> Reply
        ensures { result ≡ refused_reply refusal }
    {
        Reply {
            node: refused_at(refusal),
            ..Reply::with_status(u32::from(refusal.number()))
        }
    }
}

/// The node that a refusal names, if it names one.
fn refused_at(refusal: Refusal) -> Node
    ensures { result ≡ refused_at refusal }
{
    match refusal {
        Refusal::NeedParents { node } | Refusal::HeldChild { node } | Refusal::Cycle { node } => {
            Node::of(node)
        }
        _ => Node::of(NodeId::NONE),
    }
}
