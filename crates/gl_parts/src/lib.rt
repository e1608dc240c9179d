//! Several managers that work as one: the laws of that, and what is decided of visits and requests.
#![tactic(auto)]

mod joining;
pub mod laws;
mod passing;
mod resting;
mod visits;

pub use joining::join_board;
pub use passing::{
    AfterIndex, Mark, Marked, Target, after_index, first_lack, intention, may_clear, passes,
};
pub use resting::{may_rest, takes_up};
pub use visits::{ToCopy, Way, is_clear, next_copy, own_copy, way_for};
