//! The two sides of `left_right`, with the rule of what is published.
ghost use Rattle.std.specs.Prelude.{◌≡◌, [], ◌≤◌, ◌^◌, ◌<◌, drop, fold, IfOk, None, Some};
ghost use Rattle.std.specs.Arc.{arc_value};
ghost use Rattle.left_right.specs.Sides.{view};
ghost use Rattle.gl_window.specs.Boards.{Fine, last_epoch};
ghost use Rattle.gl_window.specs.Rules.{head_of};
ghost use Rattle.gl_shared.specs.Sides.{IsIdle, shown_by};
ghost use Rattle.gl_shared.specs.State.{GainsIf};
ghost use Rattle.gl_shared.specs.Ties.{tie_of, turn_of, turned};

use crate::rule::{Publish, Published, Ties};
use crate::shown::{Next, Shown, Tie};
use gl_waits::Board;
use gl_window::{Head, Line};
use left_right::reader::Reader;
use left_right::writer::Writer;
use std::alloc::{AllocError, Global};
use std::sync::{Arc, Wait};

pub type BoardWriter = Writer<Shown, Next, Option<Tie>, Published>;

pub type BoardReader = Reader<Shown, Option<Tie>, Published>;

/// The side that publishes.
pub enum Side {
    Open(BoardWriter),
    /// Publishes nothing more, and keeps showing this list.
    Closed(Line),
}

impl Side {
    /// Ends publishing.
    pub(crate) fn end<R: Wait>(self, rt: &R) {
        match self {
            Side::Open(writer) => drop(writer.take(rt)),
            Side::Closed(line) => drop(line),
        }
    }
}

// Publishes what is pending, retrying until that is done.
fn publish_all<R: Wait>(rt: &R, writer: BoardWriter) -> BoardWriter
    requires same { (fold (λ turn next. turned next) (turn_of writer.desk.shown.value)
        (drop writer.behind writer.log.items)).tie ≡ tie_of writer.desk.shown.value.line }
    ensures rest { drop result.behind result.log.items ≡ [] }
    ensures turn { turn_of result.desk.shown.value ≡ fold (λ turn next. turned next) (turn_of writer.desk.shown.value) (drop writer.behind writer.log.items) }
    ensures tie { tie_of result.desk.shown.value.line ≡ tie_of writer.desk.shown.value.line }
    ensures view { view result.desk.place ≡ Some (tie_of writer.desk.shown.value.line) }
{
    let mut writer = writer;
    for _ in rt.forever() {
        let (after, done) = writer.publish_as::<Publish, R>(rt);
        if done.is_ok() {
            return after;
        }
        writer = after;
    }
    unreachable!()
}

/// Publishes a snapshot at the end of the list, and says whether it was added. If anything but that
/// list is shown, which cannot be if `left_right` keeps its contract, the side is closed.
pub fn publish<R: Wait>(
    rt: &R,
    mut writer: BoardWriter,
    head: &Arc<Head>,
    board: Arc<Board>,
) -> (Side, bool)
    requires rest { drop writer.behind writer.log.items ≡ [] }
    requires head { arc_value head.now ≡ head_of writer.desk.shown.value.line.book }
    requires rises { last_epoch 0 writer.desk.shown.value.line.list ≤ (arc_value board).epoch }
    requires fine { Fine writer.desk.shown.value.line.detect (arc_value board) }
    ensures rest { IsIdle result.0 }
    ensures tie { tie_of (shown_by result.0) ≡ tie_of writer.desk.shown.value.line }
    ensures list { GainsIf result.1 writer.desk.shown.value.line.list (arc_value board) (shown_by result.0).list }
{
    let Ok(before) = writer.published().line.again() else {
        return (Side::Open(writer), false);
    };
    let (Ok(line), Ok(copy), Ok(head)) = (
        before.again(),
        Arc::try_clone(&board),
        Arc::try_clone(head),
    ) else {
        return (Side::Open(writer), false);
    };
    let next = Next {
        line,
        board: copy,
        head,
    };
    match writer.append(next) {
        Ok(()) => {}
        Err(_) => return (Side::Open(writer), false),
    }
    let writer = publish_all(rt, writer);
    let shown = writer.published();
    if shown.is_added && before.is_followed(&shown.line) {
        return (Side::Open(writer), true);
    }
    writer.take(rt);
    (Side::Closed(before), false)
}

/// A writer that shows this list, and is tied to its book.
pub fn open<R: Wait>(
    rt: &R,
    alloc: Global,
    line: &Line,
    readers: usize,
) -> Result<BoardWriter, AllocError>
    requires { (0 < readers) × (readers < 2 ^ 32) }
    ensures { IfOk result (λ w. (drop w.behind w.log.items ≡ []) × (w.desk.shown.value.line.list ≡ line.now.list)
        × (tie_of w.desk.shown.value.line ≡ tie_of line.now) × (view w.desk.place ≡ Some (tie_of line.now))) }
{
    let first = unpublished(line)?;
    let second = unpublished(line)?;
    let writer: BoardWriter = Writer::new(alloc, first, second, readers)?;
    let writer = publish_all(rt, writer);
    if line.is_same(&writer.published().line) {
        return Ok(writer);
    }
    writer.take(rt);
    Err(AllocError)
}

/// A list to which no snapshot was added yet.
fn unpublished(line: &Line) -> Result<Shown, AllocError>
    ensures { IfOk result (λ shown. (shown.line ≡ line.now) × (shown.board ≡ None)) }
{
    Ok(Shown {
        line: line.again()?,
        board: None,
        is_added: false,
    })
}
