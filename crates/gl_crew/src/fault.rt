//! Why a crew stops.

ghost use Rattle.std.specs.Prelude.{◌≡◌};
ghost use Rattle.gl_crew.specs.Crews.{first_fault};

use gl_modes::Refusal;

/// Why a crew did not do all its rounds.
#[derive(Clone, Copy, Debug, PartialEq, Eq)]
pub enum CrewFault {
    /// A session was refused, or its lock ended without a grant, reported as `TxnCondemned`; or there
    /// was no memory to begin with.
    Refused(Refusal),
    /// The gate stopped a session.
    Gate,
}

impl From<Refusal> for CrewFault {
    fn from(refusal: Refusal) -> CrewFault {
        CrewFault::Refused(refusal)
    }
}

/// The first fault of a list, if there is one.
pub(crate) fn first_fault(faults: &[Option<CrewFault>]) -> Option<CrewFault>
    ensures { result ≡ first_fault faults.now }
{
    for fault in faults {
        if fault.is_some() {
            return *fault;
        }
    }
    None
}
