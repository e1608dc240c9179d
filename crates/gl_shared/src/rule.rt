//! The rule of what is published: a reader that is tied to a book finds lists of that book.
ghost use Rattle.gl_shared.specs.Ties.{Kept, Publishes, Looks, turn_of, turned};

use crate::shown::{Next, Shown, Tie, Turn};
use atomic_table::{Join, Split};
use crossbeam_utils::rule::{Outcome, Protocol};
use left_right::Absorb;
use std::alloc::AllocError;
use std::sync::Arc;

/// One operation is one snapshot. The first copy adds it to the book; the second, which no reader uses,
/// keeps the list before it.
impl Absorb<Next> for Shown {
    type State = Turn;

    ghost state = { turn_of };

    ghost applied = { λ turn next. turned next };

    fn absorb_first(&mut self, operation: &Next, _other: &Shown) -> Result<(), AllocError> {
        let board = Arc::try_clone(&operation.board)?;
        let last = Arc::try_clone(&operation.board)?;
        match operation.line.add(&operation.head, last) {
            Some(line) => {
                *self = Shown {
                    line,
                    board: Some(board),
                    is_added: true,
                };
                Ok(())
            }
            None => Err(AllocError),
        }
    }

    fn absorb_second(&mut self, operation: Next, _other: &Shown) -> Result<(), Next> {
        let Next {
            line,
            board,
            head: _,
        } = operation;
        *self = Shown {
            line,
            board: Some(board),
            is_added: false,
        };
        Ok(())
    }
}

pub struct Published;

impl Protocol<Shown, Option<Tie>> for Published {
    ghost use Rattle.std.specs.Prelude.{None};

    ghost holds = { Kept };

    ghost first = { None };
}

/// A step of the writer.
pub struct Publish;

impl Outcome<Shown, Option<Tie>> for Publish {
    ghost then = { Publishes };
}

/// A step of a watcher.
pub struct Enter;

impl Outcome<Shown, Option<Tie>> for Enter {
    ghost then = { Looks };
}

/// The writer ties a new watcher to its book.
pub struct Ties;

impl Split<Option<Tie>> for Ties {
    ghost left = { λ v. v };

    ghost right = { λ v. v };
}

impl Join<Option<Tie>> for Ties {
    ghost use Rattle.std.specs.Prelude.{None};

    ghost both = { λ v w. w };

    ghost spent = { None };
}
