//! Scripts for the lock manager, from the bytes read to the bytes written.
//!
//! A script has a command on each line. [`run`] answers each line as soon as it is read;
//! [`run_choosing`] does so with a choice of victims, and optionally with listings, schema changes,
//! savepoints and the lines of a trace. `specs/` defines what the lines mean and what is printed for
//! them; the contract of both is that what is written is the report of what is read. [`picture`] draws
//! the final state of a script.
#![tactic(auto)]

mod answers;
mod desk;
mod drawing;
mod interpreter;
mod laws;
mod listings;
mod naming;
mod register;
mod request;
mod savepoints;
mod script;
mod sink;

pub use answers::put_number;
pub use drawing::{Part, PictureFault, Shown, complain_of_picture, draw_script, picture};
pub use gl_options::Choices;
pub use laws::each_is_said;
pub use script::{RunFault, run, run_choosing};
pub use sink::{Sink, flush, new_sink, put, send};
