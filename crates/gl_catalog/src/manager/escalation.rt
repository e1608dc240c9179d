//! Escalation: a lock on a node in place of locks on its children.

ghost use Rattle.std.specs.Prelude.{◌≡◌, ◌+◌, ◌∷◌, [], IfOk, OnErr, OnOk};
ghost use Rattle.gl_graph.specs.Refusals.{first_refusal, verdict};
ghost use Rattle.gl_steps.specs.declared.command.Command.TheVariants as command;
ghost use Rattle.gl_table.specs.Table.{KeepsOrders};
ghost use Rattle.gl_catalog.specs.Completes.{Completes};
ghost use Rattle.gl_catalog.specs.Deadlocks.{KeepsAccepted};
ghost use Rattle.gl_catalog.specs.Counters.{counted};
ghost use Rattle.gl_catalog.specs.Manager.{state_of};
ghost use Rattle.gl_steps.specs.Promises.{KeepsCaller, StepLeavesOthers};
ghost use Rattle.gl_catalog.specs.Replies.{CallSteps, rising, rose, said};
ghost use Rattle.gl_steps.specs.Tests.{escalate_asks, worn};

use super::Manager;
use super::counting::raise_passes;
use gl_graph::Kind;
use gl_modes::{Mode, NodeId, Refusal};
use gl_steps::Escalated;
use gl_table::{Told, TxnId};

impl Manager {
    /// Raises the lock of a node, to X if the transaction holds a child of it in IX, SIX or X, else
    /// to S, and releases the children that the raised lock covers: a held child of which no child
    /// is held, and which is not in X, or in X with X on each of its parents. The waiters of each
    /// released child are granted from the front. Answers what was done, and the notices of grants,
    /// by rising slot. The transaction's effective mode is lowered on no node; other transactions
    /// keep what `apply` leaves them.
    ///
    /// Refused, in this order, with `WornOut`, `NoSuchTxn`, `TxnWaiting`, `TxnCondemned`,
    /// `NoSuchNode`, `BadParents` (a record), `NotHeld` and `WouldBlock` (the raised mode is not
    /// granted at once). Allocates no memory, and scans all that the transaction holds.
    pub fn escalate(&mut self, t: TxnId, n: NodeId) -> Result<(Escalated, Told), Refusal>
        ensures step { CallSteps (state_of self.old) (command.Escalate t n) rose result (state_of self.new) }
        ensures deadlock { OnOk result (KeepsAccepted (command.Escalate t n) self.old self.new) }
        ensures caller { KeepsCaller (command.Escalate t n) (state_of self.old) (state_of self.new) }
        ensures others { StepLeavesOthers (state_of self.old) (command.Escalate t n) (said rose result) (state_of self.new) }
        ensures counted { OnOk result (self.new.accepted ≡ self.old.accepted + 1) }
        ensures counters { self.new.counters ≡ counted (state_of self.old) (command.Escalate t n) (said rose result).0 (said rose result).1
            (state_of self.new) self.old.counters }
        ensures orders { OnOk result (KeepsOrders self.old.table self.new.table) }
        ensures err { OnErr result (self.new ≡ self.old) }
    {
        let mut told = Told::new();
        let escalated = self.escalate_telling(t, n, &mut told)?;
        Ok((escalated, told))
    }

    /// As `escalate`, with the notices put into an empty list.
    pub fn escalate_telling(
        &mut self,
        t: TxnId,
        n: NodeId,
        told: &mut Told,
    ) -> Result<Escalated, Refusal>
        requires empty { told.old.items ≡ [] }
        ensures step { CallSteps (state_of self.old) (command.Escalate t n) (rising told.new.items) result (state_of self.new) }
        ensures completes { IfOk result (λ x. Completes (command.Escalate t n) self.old (rising told.new.items x) self.new) }
        ensures untold { OnErr result (told.new ≡ told.old) }
        ensures err { OnErr result (self.new ≡ self.old) }
    {
        self.check_escalate(t, n)?;
        let asked = if self.table.writes_below(t, n) {
            Mode::X
        } else {
            Mode::S
        };
        let held = self.held_by(t, n);
        let mode = self.table.try_lock(t, n, asked)?;
        let (released, kept) = self.table.shed_telling(t, n, told);
        self.table.law();
        self.accepted += 1;
        let passes = raise_passes(&self.table, n, held, self.table.mode_at(t.slot, n));
        self.counters.add_escalation(passes, released);
        self.counters.add_notices(told.as_slice());
        Ok(Escalated {
            mode,
            released,
            kept,
        })
    }

    /// The tests of `escalate`, except whether the raised mode is granted at once.
    fn check_escalate(&self, t: TxnId, n: NodeId) -> Result<(), Refusal>
        ensures { result ≡ verdict (first_refusal (worn (state_of self.now) ∷ escalate_asks (state_of self.now) t n)) }
    {
        self.check_count()?;
        self.check_active(t)?;
        match self.table.graph().kind(n) {
            Some(Kind::Rec) => return Err(Refusal::BadParents),
            Some(_) => {}
            None => return Err(Refusal::NoSuchNode),
        }
        if self.mode(t, n) == Mode::NL {
            Err(Refusal::NotHeld)
        } else {
            Ok(())
        }
    }
}
