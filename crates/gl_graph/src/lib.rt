//! The lock graph of inner nodes, files, indexes, intervals of indexes and records. It has no cycle,
//! whatever is made, moved or removed.
#![tactic(auto)]

mod bounds;
mod found;
mod graph;
mod keying;
mod kind;
pub mod laws;
mod node;
mod store;

pub use found::add_missing;
pub use graph::Graph;
pub use kind::Kind;
