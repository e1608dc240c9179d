//! Which commands are accepted.

ghost use Rattle.std.specs.Prelude.{◌≡◌};
ghost use Rattle.gl_steps.specs.Served.{accepts, is_refused, leaves_waiting};

use crate::command::{Answer, Command};

/// Whether a command with this answer was accepted: it is no query, and was not refused.
pub fn is_accepted(command: &Command<'_>, answer: &Answer) -> bool
    ensures { result ≡ accepts command.now answer.now }
{
    let asks = matches!(
        command,
        Command::Group { .. } | Command::Held { .. } | Command::Effective { .. }
    );
    !asks && !is_refused(answer)
}

/// Whether the answer refuses.
pub fn is_refused(answer: &Answer) -> bool
    ensures { result ≡ is_refused answer.now }
{
    matches!(answer, Answer::Refused(_))
}

/// Whether the answer leaves its requester waiting.
pub fn leaves_waiting(answer: &Answer) -> bool
    ensures { result ≡ leaves_waiting answer.now }
{
    matches!(answer, Answer::Waiting)
}
