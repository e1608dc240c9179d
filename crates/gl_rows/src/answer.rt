//! The answers to calls about rows.

ghost use Rattle.std.specs.Prelude.{◌≡◌};
ghost use Rattle.gl_rows.specs.Answers.{done_said, lock_said};

use gl_catalog::Answer;
use gl_modes::{NodeId, Refusal};
use gl_table::Locked;

/// The outcome of a row's lock.
#[derive(Clone, Copy, PartialEq, Eq, Debug)]
pub struct RowLocked {
    /// The row's node.
    pub node: NodeId,
    /// The outcome of that node's lock.
    pub locked: Locked,
    /// Whether the given keys are the node's own. If not, the row's keys are others than the caller
    /// assumed, and the caller must read them again.
    pub own_keys: bool,
}

/// Why a call about rows is refused.
#[derive(Clone, Copy, PartialEq, Eq, Debug)]
pub enum RowRefusal {
    /// The file is no file of rows.
    NotRows,
    /// The manager's refusal.
    Refused(Refusal),
}

impl From<Refusal> for RowRefusal {
    ghost use Rattle.std.specs.Prelude.{◌≡◌};
    ghost use Rattle.gl_rows.specs.declared.answer.RowRefusal.TheVariants as no;

    ghost from_gives = { λ r e. e ≡ no.Refused r };

    fn from(refusal: Refusal) -> RowRefusal {
        RowRefusal::Refused(refusal)
    }
}

/// The answer to a call about rows.
#[derive(Clone, Copy, PartialEq, Eq, Debug)]
pub enum RowAnswer {
    /// A row's lock is granted or waits, or its requester was chosen as victim.
    Locked(RowLocked),
    /// The answer of the call's command: for any other call, and for a refused lock.
    Answered(Answer),
    /// The file is no file of rows. Nothing has changed.
    NotRows,
}

/// The answer to a row's lock.
pub(crate) fn lock_answer(outcome: Result<RowLocked, RowRefusal>) -> RowAnswer
    ensures { result ≡ lock_said outcome }
{
    match outcome {
        Ok(locked) => RowAnswer::Locked(locked),
        Err(RowRefusal::Refused(refusal)) => RowAnswer::Answered(Answer::Refused(refusal)),
        Err(RowRefusal::NotRows) => RowAnswer::NotRows,
    }
}

/// The answer to any other call about a row.
pub(crate) fn done_row(outcome: Result<(), RowRefusal>) -> RowAnswer
    ensures { result ≡ done_said outcome }
{
    match outcome {
        Ok(()) => RowAnswer::Answered(Answer::Done),
        Err(RowRefusal::Refused(refusal)) => RowAnswer::Answered(Answer::Refused(refusal)),
        Err(RowRefusal::NotRows) => RowAnswer::NotRows,
    }
}
