//! Waits are cancelled, and deadlocks settled.

ghost use Rattle.std.specs.Prelude.{◌≡◌, [], IfOk, OnErr, OnOk, true};
ghost use Rattle.gl_graph.specs.Refusals.{first_refusal};
ghost use Rattle.gl_model.specs.Calls.{KeepsAll, RefusesOnly, cancelled, cancel_tests, living_tests};
ghost use Rattle.gl_model.specs.Deadlocks.{SettlesKeeping};
ghost use Rattle.gl_model.specs.State.{is_waiting_at, Settled, waits_for};
ghost use Rattle.gl_table.specs.Table.{KeepsOrders, state_of};
ghost use Rattle.gl_model.specs.Tellings.{told, told_but};
ghost use Rattle.gl_waits.specs.Waits.{IsOnNoCycle};

use super::Table;
use gl_model::{Status, Told, TxnId};
use gl_modes::{NodeId, Refusal};

impl Table {
    /// As `cancel`, with the notices put into an empty list.
    pub fn cancel_telling(&mut self, t: TxnId, notices: &mut Told) -> Result<(), Refusal>
        requires empty { notices.old.items ≡ [] }
        ensures told { OnOk result (notices.new.items ≡ told_but t.slot (state_of self.old) (state_of self.new)) }
        ensures state { OnOk result (state_of self.new ≡ cancelled (state_of self.old) t.slot) }
        ensures deadlock { self.new.deadlock ≡ self.old.deadlock }
        ensures orders { OnOk result (KeepsOrders self.old self.new) }
        ensures refuses { RefusesOnly (first_refusal (cancel_tests (state_of self.old) t)) result }
        ensures kept { OnErr result (KeepsAll self.old self.new notices.old notices.new) }
    {
        let node = self.check_waiting(t)?;
        self.locks.withdraw(t.slot, node, Status::Active, notices);
        Ok(())
    }

    /// As `settle`, with the notices put into an empty list.
    pub fn settle_telling(&mut self, t: TxnId, notices: &mut Told) -> Result<(), Refusal>
        requires empty { notices.old.items ≡ [] }
        ensures told { OnOk result (notices.new.items ≡ told (state_of self.old) (state_of self.new)) }
        ensures state { OnOk result (Settled (state_of self.old).victims (state_of self.old) t.slot (state_of self.new)) }
        ensures deadlock { OnOk result (SettlesKeeping (state_of self.old).victims (state_of self.old) t.slot self.old.deadlock
            (state_of self.new) self.new.deadlock) }
        ensures orders { OnOk result (KeepsOrders self.old self.new) }
        ensures idle { IsOnNoCycle (waits_for (state_of self.old)) t.slot → OnOk result ((notices.new.items ≡ []) × (state_of self.new ≡ state_of self.old)) }
        ensures refuses { RefusesOnly (first_refusal (living_tests (state_of self.old) t)) result }
        ensures kept { OnErr result (KeepsAll self.old self.new notices.old notices.new) }
    {
        self.check_txn(t)?;
        self.locks
            .settle(self.victims, t.slot, &mut self.deadlock, notices);
        Ok(())
    }

    /// The node that the transaction waits for, if its wait can be cancelled.
    fn check_waiting(&self, t: TxnId) -> Result<NodeId, Refusal>
        ensures waits { IfOk result (λ n. is_waiting_at (state_of self.now) t.slot n ≡ true) }
        ensures refuses { RefusesOnly (first_refusal (cancel_tests (state_of self.now) t)) result }
    {
        match self.status(t) {
            Some(Status::Waiting { node, .. }) => Ok(node),
            Some(Status::Active) => Err(Refusal::NotWaiting),
            Some(Status::Condemned) => Err(Refusal::TxnCondemned),
            None => Err(Refusal::NoSuchTxn),
        }
    }
}
