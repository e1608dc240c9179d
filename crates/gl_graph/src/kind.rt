//! The kinds of nodes.

/// What a node is: an inner node (a database, an area), a file, an index of a file, an interval of an
/// index, or a record of a file.
#[derive(Clone, Copy, PartialEq, Eq, Debug)]
pub enum Kind {
    Inner,
    File,
    Index,
    Interval,
    Rec,
}
