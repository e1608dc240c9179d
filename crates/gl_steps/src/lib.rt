//! The commands of the lock manager, what each does to the state of the model, and the laws of
//! every step and every run.
#![tactic(auto)]

mod accepted;
mod command;
pub mod laws;

pub use accepted::{is_accepted, is_refused, leaves_waiting};
pub use command::{Answer, Command, Escalated, Reply};
