//! What the program can do.

ghost use Rattle.std.specs.Prelude.{◌≡◌};
ghost use Rattle.gl_options.specs.Planned.{plain, plan_of};

use gl_model::Detect;
use gl_waits::Victims;

/// The choices for a script: how deadlocks are detected and victims chosen, and whether there are
/// listings, schema changes, savepoints and the lines of a trace.
#[derive(Clone, Copy, Debug, PartialEq, Eq)]
pub struct Choices {
    pub detect: Detect,
    pub victims: Victims,
    pub listings: bool,
    pub schema: bool,
    pub savepoints: bool,
    pub trace: bool,
}

impl Choices {
    /// The choices if only the way of detection is given: the victim is the youngest, and there are no
    /// listings, schema changes, savepoints or lines of a trace.
    pub fn plain(detect: Detect) -> Choices
        ensures { result ≡ plain detect }
    {
        Choices {
            detect,
            victims: Victims::Youngest,
            listings: false,
            schema: false,
            savepoints: false,
            trace: false,
        }
    }
}

/// All that the words of the program ask for.
#[derive(Clone, Copy, Debug, PartialEq, Eq)]
pub enum Asked {
    /// Run the script that the reader gives.
    Script(Choices),
    /// Run `sessions` sessions, 1 to 128, of `rounds` rounds each, 1 to 100,000.
    Crew {
        sessions: u32,
        rounds: u32,
        detect: Detect,
        victims: Victims,
    },
}

impl Asked {
    /// The plan of this: all except how victims are chosen and which optional lines there are.
    pub fn plan(self) -> Plan
        ensures { result ≡ plan_of self }
    {
        match self {
            Asked::Script(choices) => Plan::Script(choices.detect),
            Asked::Crew {
                sessions,
                rounds,
                detect,
                ..
            } => Plan::Crew {
                sessions,
                rounds,
                detect,
            },
        }
    }
}

/// The plan that the words of the program ask for.
#[derive(Clone, Copy, Debug, PartialEq, Eq)]
pub enum Plan {
    /// Run the script that the reader gives, with this way of detection.
    Script(Detect),
    /// Run `sessions` sessions, 1 to 128, of `rounds` rounds each, 1 to 100,000, with this way of
    /// detection.
    Crew {
        sessions: u32,
        rounds: u32,
        detect: Detect,
    },
}
