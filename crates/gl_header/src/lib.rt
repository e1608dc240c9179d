//! The header of one node: its holders with their modes, and its queue; and the headers of all nodes,
//! by the nodes' keys.
//!
//! A newcomer queues last if anybody waits, whatever they wait for, and grants from the front stop at
//! the first waiter that is incompatible.
#![tactic(auto)]

mod changes;
mod entries;
mod group;
mod header;
mod headers;
mod places;

pub use changes::GrantList;
pub use group::Group;
pub use header::{Asked, Header, Try};
pub use headers::{Headers, Prepared};
