//! Crews: sessions that share a table, each in its own thread.
//!
//! Each session does a number of rounds of seven commands, and [`crew_with`] answers how many commands
//! were accepted. [`crew_over`] lets them do other work, over a table of the caller's, and returns
//! that. `specs/` defines what a crew counts and what it locks.
#![tactic(auto)]

mod crews;
mod fault;
mod field;
mod gate;
mod lookout;
mod over;
mod places;
mod rounds;
mod work;

pub use crews::{crew, crew_choosing, crew_with};
pub use fault::CrewFault;
pub use field::Field;
pub use gate::{Gate, Point};
pub use over::{Ended, crew_over};
pub use rounds::RecordRounds;
pub use work::Work;
