//! Waits-for snapshots in C's memory, and the calls that search them.

pub(crate) mod board;
mod searches;
