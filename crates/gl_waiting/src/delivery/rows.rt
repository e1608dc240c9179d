//! Calls about rows.

ghost use Rattle.std.specs.Prelude.{◌≡◌, []};
ghost use Rattle.gl_rows.specs.Answers.{lock_said};
ghost use Rattle.gl_catalog.specs.Manager.{state_of};
ghost use Rattle.gl_catalog.specs.Paths.{lock_of};
ghost use Rattle.gl_rows.specs.Releasing.{no_node};
ghost use Rattle.gl_rows.specs.Applying.{AppliesCall, CarriesOut, answer_in, naming, own_command};
ghost use Rattle.gl_waiting.specs.Delivering.{Carries, registry_in};
ghost use Rattle.gl_waiting.specs.Going.{IsRunOf};
ghost use Rattle.gl_waiting.specs.RowLocks.{IsRowLockAnswer, LocksRowAs, row_lock};

use super::Delivery;
use gl_catalog::Answer;
use gl_modes::Mode;
use gl_rows::{Row, RowAnswer, RowCall, RowLocked, RowRefusal};
use gl_slots::Slots;
use gl_table::{Told, TxnId};

impl Delivery {
    /// Carries out a call about rows, as `Registry::apply`, with its notices put into an empty list.
    #[inline(always)]
    pub fn serve_row(&mut self, call: RowCall<'_>, told: &mut Told) -> (RowAnswer, Slots)
        requires empty { told.old.items ≡ [] }
        ensures applies { AppliesCall (registry_in self.old) call.entry result.0 told.new.items (registry_in self.new) }
        ensures own { CarriesOut self.old.manager (own_command (naming call.entry self.old.rows self.new.rows) call.entry) (answer_in result.0)
            told.new.items self.new.manager }
        ensures carries { Carries self.old (own_command (naming call.entry self.old.rows self.new.rows) call.entry) told.new.items result.1 self.new }
        ensures run { IsRunOf (own_command (naming call.entry self.old.rows self.new.rows) call.entry) (state_of self.old.manager) (state_of self.new.manager) }
    {
        self.registry.law();
        let before = self.registry.manager().accepted();
        let answer = self.registry.apply(call, told);
        if self.registry.manager().accepted() == before {
            return (answer, Slots::empty());
        }
        let own = call.command();
        let ended = self.boxes.deliver(&own, told);
        (answer, ended)
    }

    /// Locks a row that has these keys, as `RowCall::Lock`, with the notices put into an empty list.
    pub fn lock_row(
        &mut self,
        txn: TxnId,
        row: Row,
        keys: &[u64],
        mode: Mode,
        told: &mut Told,
    ) -> (Result<RowLocked, RowRefusal>, Slots)
        requires empty { told.old.items ≡ [] }
        ensures locks { LocksRowAs self.old (record { txn = txn; row = row; keys = keys.entry; mode = mode }) result.0 told.new.items self.new }
        ensures carries { Carries self.old (own_command self.new.rows (row_lock (record { txn = txn; row = row; keys = keys.entry; mode = mode })))
            told.new.items result.1 self.new }
        ensures run { IsRunOf (lock_of txn (no_node, mode)) (state_of self.old.manager) (state_of self.new.manager) }
    {
        let call = RowCall::Lock {
            txn,
            row,
            keys,
            mode,
        };
        let (answer, ended) = self.serve_row(call, told);
        (row_locked_in(answer), ended)
    }
}

/// What a row's lock came to that was answered so.
fn row_locked_in(answer: RowAnswer) -> Result<RowLocked, RowRefusal>
    requires { IsRowLockAnswer answer }
    ensures { lock_said result ≡ answer }
{
    match answer {
        RowAnswer::Locked(locked) => Ok(locked),
        RowAnswer::NotRows => Err(RowRefusal::NotRows),
        RowAnswer::Answered(Answer::Refused(refusal)) => Err(RowRefusal::Refused(refusal)),
        RowAnswer::Answered(_) => unreachable!(),
    }
}
