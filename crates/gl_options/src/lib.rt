//! The words of the program: what they ask for, as `clap` reads them.
//!
//! `specs/` defines their meaning. The contract of [`asked`] is that its answer is what they ask for;
//! [`plan`] is the plan of that.
#![tactic(auto)]

mod requests;
mod words;

pub use requests::{Asked, Choices, Plan};
pub use words::{asked, plan};
