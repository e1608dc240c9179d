//! How waits end in a table that threads share: the notices that a command leaves in boxes, the
//! outcome of a wait by them, and the slots that a command wakes.
#![tactic(auto)]

mod boxes;
mod grant;

pub use boxes::{Boxes, Slot};
pub use grant::{Grant, Stop};
