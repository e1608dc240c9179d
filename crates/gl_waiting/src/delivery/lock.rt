//! One lock, as a command of its own.

ghost use Rattle.std.specs.Prelude.{◌≡◌, []};
ghost use Rattle.gl_catalog.specs.Manager.{state_of};
ghost use Rattle.gl_catalog.specs.Paths.{lock_of};
ghost use Rattle.gl_rows.specs.Serving.{Applies};
ghost use Rattle.gl_waiting.specs.Delivering.{Carries, IsLockAnswer, lock_said};
ghost use Rattle.gl_waiting.specs.Going.{IsRunOf};

use crate::delivery::Delivery;
use gl_catalog::{Answer, Command};
use gl_modes::{Mode, NodeId, Refusal};
use gl_slots::Slots;
use gl_table::{Locked, Told, TxnId};

impl Delivery {
    /// Requests a mode on a node, with the notices put into an empty list.
    pub fn lock(
        &mut self,
        txn: TxnId,
        node: NodeId,
        mode: Mode,
        told: &mut Told,
    ) -> (Result<Locked, Refusal>, Slots)
        requires empty { told.old.items ≡ [] }
        ensures applies { Applies self.old.manager (lock_of txn (node, mode)) (lock_said result.0) told.new.items self.new.manager }
        ensures rows { self.new.rows ≡ self.old.rows }
        ensures carries { Carries self.old (lock_of txn (node, mode)) told.new.items result.1 self.new }
        ensures run { IsRunOf (lock_of txn (node, mode)) (state_of self.old.manager) (state_of self.new.manager) }
    {
        let (answer, ended) = self.serve(Command::Lock { txn, node, mode }, told);
        let Some(answer) = answer else { unreachable!() };
        (locked_in(answer), ended)
    }
}

/// What a lock came to that was answered so.
fn locked_in(answer: Answer) -> Result<Locked, Refusal>
    requires { IsLockAnswer answer }
    ensures { lock_said result ≡ answer }
{
    match answer {
        Answer::Granted(mode) => Ok(Locked::Granted(mode)),
        Answer::Waiting => Ok(Locked::Waiting),
        Answer::Victim => Ok(Locked::Victim),
        Answer::Refused(refusal) => Err(refusal),
        _ => unreachable!(),
    }
}
