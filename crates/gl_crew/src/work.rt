//! What the sessions of a crew do.

use crate::fault::CrewFault;
use gl_shared::{Naming, Session};
use std::sync::Wait;

/// What each session of a crew does, round by round. Several threads may call it at once.
pub trait Work {
    ghost use Rattle.std.specs.Prelude.{◌≡◌, ◌+◌, ℕ, IfOk};

    /// How many commands of a round that ends well are accepted.
    ghost commands: { ℕ };

    /// Does one round. Sessions and rounds are counted from 1.
    ///
    /// # Errors
    ///
    /// Why this session does no further round. It must leave no transaction.
    fn round<N: Naming, R: Wait>(
        &self,
        rt: &R,
        session: &mut Session<'_, N>,
        number: u32,
        round: u32,
    ) -> Result<(), CrewFault>
        ensures { IfOk result (λ _. session.new.share ≡ session.old.share + commands) };
}
