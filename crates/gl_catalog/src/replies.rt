//! The answers to commands, made from what calls return. A call's notices are in a list of their
//! own.

ghost use Rattle.std.specs.Prelude.{◌≡◌, []};
ghost use Rattle.gl_steps.specs.Step.{answer_of_lock};
ghost use Rattle.gl_catalog.specs.Replies.{asking, began, doing, made, read_effect, read_mode, rising, said, took};

use gl_modes::{Mode, NodeId, Refusal};
use gl_steps::{Answer, Escalated};
use gl_table::{Effect, Locked, TxnId};

/// The answer to a command that makes a node.
pub fn node_answer(outcome: Result<NodeId, Refusal>) -> Answer
    ensures { result ≡ (said made outcome).0 }
{
    match outcome {
        Ok(node) => Answer::Node(node),
        Err(refusal) => Answer::Refused(refusal),
    }
}

/// The answer to a begin.
pub(crate) fn begun_answer(outcome: Result<TxnId, Refusal>) -> Answer
    ensures { result ≡ (said began outcome).0 }
{
    match outcome {
        Ok(txn) => Answer::Begun(txn),
        Err(refusal) => Answer::Refused(refusal),
    }
}

/// The answer to a lock that was not refused.
pub fn answer_of_lock(locked: Locked) -> Answer
    ensures { result ≡ answer_of_lock locked }
{
    match locked {
        Locked::Granted(mode) => Answer::Granted(mode),
        Locked::Waiting => Answer::Waiting,
        Locked::Victim => Answer::Victim,
    }
}

/// The answer to a lock.
pub(crate) fn lock_answer(outcome: Result<Locked, Refusal>) -> Answer
    ensures { result ≡ (said (asking []) outcome).0 }
{
    match outcome {
        Ok(locked) => answer_of_lock(locked),
        Err(refusal) => Answer::Refused(refusal),
    }
}

/// The answer to a try.
pub(crate) fn try_answer(outcome: Result<Mode, Refusal>) -> Answer
    ensures { result ≡ (said took outcome).0 }
{
    match outcome {
        Ok(mode) => Answer::Granted(mode),
        Err(refusal) => Answer::Refused(refusal),
    }
}

/// The answer to a command that is done or refused.
pub fn done_answer(outcome: Result<(), Refusal>) -> Answer
    ensures { result ≡ (said (doing []) outcome).0 }
{
    match outcome {
        Ok(()) => Answer::Done,
        Err(refusal) => Answer::Refused(refusal),
    }
}

/// The answer to an escalation.
pub fn escalate_answer(outcome: Result<Escalated, Refusal>) -> Answer
    ensures { result ≡ (said (rising []) outcome).0 }
{
    match outcome {
        Ok(escalated) => Answer::Escalated(escalated),
        Err(refusal) => Answer::Refused(refusal),
    }
}

/// The answer to a query for a mode.
pub(crate) fn mode_answer(outcome: Result<Mode, Refusal>) -> Answer
    ensures { result ≡ (said read_mode outcome).0 }
{
    match outcome {
        Ok(mode) => Answer::Mode(mode),
        Err(refusal) => Answer::Refused(refusal),
    }
}

/// The answer to a query for an effective mode.
pub(crate) fn effect_answer(outcome: Result<Effect, Refusal>) -> Answer
    ensures { result ≡ (said read_effect outcome).0 }
{
    match outcome {
        Ok(effect) => Answer::Effect(effect),
        Err(refusal) => Answer::Refused(refusal),
    }
}
