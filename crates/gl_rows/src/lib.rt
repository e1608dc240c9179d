//! Rows by the engine's own numbers, each with a node of the lock graph while it is locked. And the
//! laws of rows, with or without a node.
#![tactic(auto)]

mod answer;
mod call;
pub mod laws;
mod names;
mod registry;
mod row;
mod rows;
mod sets;

pub use answer::{RowAnswer, RowLocked, RowRefusal};
pub use call::RowCall;
pub use registry::Registry;
pub use row::Row;
