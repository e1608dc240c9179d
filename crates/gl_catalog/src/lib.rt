//! The manager: a table that carries out commands, counts them, and locks along paths.
#![tactic(auto)]

mod counters;
pub mod laws;
mod manager;
pub mod replies;
mod run;

pub use counters::Counters;
pub use gl_steps::{Answer, Command, Escalated, Reply};
pub use manager::{Manager, Reached};
pub use run::run_commands;
