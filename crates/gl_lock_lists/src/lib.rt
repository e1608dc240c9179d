//! The nodes that one transaction holds or waits for, in the order of its requests.
#![tactic(auto)]

mod list;
mod node_map;
mod rows;

pub use list::{Entry, LockList};
pub use node_map::NodeMap;
