//! The program: with given words and streams it runs a script or a crew.
//!
//! [`program`] does what its words ask for: it runs a script of `gl_interpreter`, or a crew of
//! `gl_crew`. `specs/` defines how it ends. What other users of scripts call is re-exported from there.
#![tactic(auto)]

mod entry;

pub use entry::{ToolFault, complain, program};
pub use gl_crew::{CrewFault, Gate, Point, crew, crew_choosing, crew_with};
pub use gl_interpreter::{
    PictureFault, RunFault, Shown, complain_of_picture, draw_script, picture, run, run_choosing,
};
pub use gl_options::{Asked, Choices, Plan, asked, plan};
