//! Lock modes, the ids of nodes, and the reasons why a call is refused.
#![tactic(auto)]

mod laws;
mod mode;
mod node;
mod refusal;

pub use laws::mode_laws;
pub use mode::{Mode, compatible, covers, sup};
pub use node::{MOST_PARENTS, NodeId};
pub use refusal::Refusal;
