//! Tries: locks that are granted at once, or refused.

ghost use Rattle.std.specs.Prelude.{◌≡◌, ◌⊎◌, ◌++◌, ◌∷◌, [], true};
ghost use Rattle.gl_model.specs.State.{is_write};
ghost use Rattle.gl_catalog.specs.Paths.{intention, next_ask};
ghost use Rattle.gl_catalog.specs.Replies.{said, took};
ghost use Rattle.gl_waiting.specs.Tries.{LowersTo, climbs_down, gives_back, parent_missing, tried_as};
ghost use Rattle.gl_waiting.specs.RowTries.{IsAtOnce, is_released, lock_of_tried, refused_at, row_refused};

use arrayvec::ArrayVec;
use gl_catalog::Answer;
use gl_modes::{Mode, NodeId, Refusal, covers};
use gl_rows::{RowAnswer, RowLocked, RowRefusal};
use gl_table::Locked;

/// How many nodes above it a tried path remembers.
const MOST_ABOVE: usize = 16;

/// The nodes above that a tried path knows to be wanted, upwards.
pub(crate) type Above = ArrayVec<NodeId, MOST_ABOVE>;

/// What a tried path keeps of what it acquired when it is refused.
#[derive(Clone, Copy, PartialEq, Eq, Debug)]
pub enum Keep {
    /// Nothing: it rolls back to what the transaction held before.
    Nothing,
    /// All that it acquired.
    Path,
}

/// What a tried path came to.
#[derive(Clone, Copy, PartialEq, Eq, Debug)]
pub enum Tried {
    /// The node is held, in this mode.
    Granted(Mode),
    /// This node, the path's own or one above it, cannot be granted at once.
    WouldBlock(NodeId),
    /// The path was refused otherwise.
    Refused(Refusal),
}

/// What is tried next on a path of which these nodes above are known.
pub(crate) fn next_ask(node: NodeId, mode: Mode, above: &Above) -> (NodeId, Mode)
    ensures { result ≡ next_ask (node, mode) above.now.items }
{
    match above.last() {
        Some(parent) => (*parent, intention(mode)),
        None => (node, mode),
    }
}

/// Remembers one node more. If there is no room, those below it are forgotten, to be found again.
pub(crate) fn remember(above: &mut Above, parent: NodeId)
    ensures { (above.new.items ≡ above.old.items ++ parent ∷ []) ⊎ (above.new.items ≡ parent ∷ []) }
{
    if above.is_full() {
        above.clear();
    }
    above.push(parent);
}

/// Whether a path to this node goes on after a try of that one: it was granted above.
pub(crate) fn climbs_down(node: NodeId, asked: NodeId, tried: Result<Mode, Refusal>) -> bool
    ensures { result ≡ climbs_down node asked (said took tried).0 }
{
    tried.is_ok() && asked != node
}

/// Descends from a node above that was granted. A writer still wants those below it; a reader may need fewer, and climbs
/// anew.
pub(crate) fn go_down(mode: Mode, above: &mut Above)
    ensures { LowersTo (is_write mode) above.old.items above.new.items }
{
    if covers(mode, Mode::IX) {
        above.pop();
    } else {
        above.clear();
    }
}

/// The intention that a mode wants on parents: `IX` to write, `IS` to read.
pub fn intention(mode: Mode) -> Mode
    ensures { result ≡ intention mode }
{
    if covers(mode, Mode::IX) {
        Mode::IX
    } else {
        Mode::IS
    }
}

/// The parent for lack of which a try was refused.
pub(crate) fn parent_missing(tried: Result<Mode, Refusal>) -> Option<NodeId>
    ensures { result ≡ parent_missing tried }
{
    match tried {
        Err(Refusal::NeedParents { node }) => Some(node),
        _ => None,
    }
}

/// What a path came to whose last try, of this node, came to this.
pub(crate) fn tried_as(node: NodeId, tried: Result<Mode, Refusal>) -> Tried
    ensures { result ≡ tried_as node tried }
{
    match tried {
        Ok(mode) => Tried::Granted(mode),
        Err(Refusal::WouldBlock) => Tried::WouldBlock(node),
        Err(refusal) => Tried::Refused(refusal),
    }
}

/// Whether a path that came to this rolls back.
pub(crate) fn gives_back(keep: Keep, tried: Tried) -> bool
    ensures { result ≡ gives_back keep tried }
{
    match tried {
        Tried::Granted(_) => false,
        _ => keep == Keep::Nothing,
    }
}

/// What a tried row came to.
#[derive(Clone, Copy, PartialEq, Eq, Debug)]
pub enum RowTried {
    /// The row is held by this node, in this mode, and has the keys of the try.
    Granted { node: NodeId, mode: Mode },
    /// The row is held by this node, in this mode, and the caller must look at its keys again.
    OtherKeys { node: NodeId, mode: Mode },
    /// The row's node, which is this, cannot be granted at once.
    WouldBlock(NodeId),
    /// The try was refused otherwise.
    Refused(Refusal),
    /// The file of the row is no file of rows.
    NotRows,
}

/// What a tried row came to whose lock came to this, without a wait.
pub(crate) fn row_tried_as(locked: Result<RowLocked, RowRefusal>) -> RowTried
    requires { IsAtOnce locked }
    ensures { lock_of_tried result ≡ locked }
{
    match locked {
        Ok(
            RowLocked {
                node,
                locked: Locked::Granted(mode),
                own_keys,
            },
        ) => {
            if own_keys {
                RowTried::Granted { node, mode }
            } else {
                RowTried::OtherKeys { node, mode }
            }
        }
        Ok(_) => unreachable!(),
        Err(refusal) => row_refused(refusal),
    }
}

/// What a row came to that was refused.
pub(crate) fn row_refused(refusal: RowRefusal) -> RowTried
    ensures { result ≡ row_refused refusal }
{
    match refusal {
        RowRefusal::Refused(refusal) => RowTried::Refused(refusal),
        RowRefusal::NotRows => RowTried::NotRows,
    }
}

/// What a row came to whose node, which is this, was refused to a try.
pub(crate) fn refused_at(node: NodeId, refusal: Refusal) -> RowTried
    ensures { result ≡ refused_at node refusal }
{
    match refusal {
        Refusal::WouldBlock => RowTried::WouldBlock(node),
        _ => RowTried::Refused(refusal),
    }
}

/// Whether a row was released.
pub(crate) fn is_released(answer: RowAnswer) -> bool
    ensures { result ≡ is_released answer }
{
    matches!(answer, RowAnswer::Answered(Answer::Done))
}
