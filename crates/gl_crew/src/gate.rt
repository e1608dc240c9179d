//! The gate that the sessions of a crew pass in each round.

use std::sync::Wait;

/// A point in a round.
#[derive(Clone, Copy, Debug, PartialEq, Eq)]
pub enum Point {
    /// The record is locked.
    Locked,
    /// The commit is answered.
    Committed,
}

/// What each session of a crew passes twice in a round: after the lock on the record, and after the
/// commit. Several threads may call it at once.
pub trait Gate {
    /// Whether the session continues. Sessions and rounds are counted from 1.
    fn pass<R: Wait>(&self, rt: &R, session: u32, round: u32, at: Point) -> bool;
}

/// A gate that every session passes.
pub(crate) struct Open;

impl Gate for Open {
    fn pass<R: Wait>(&self, _rt: &R, _session: u32, _round: u32, _at: Point) -> bool {
        true
    }
}
