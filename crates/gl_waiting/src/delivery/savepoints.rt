//! Rollbacks to savepoints, and commits that keep the locks from before one.

ghost use Rattle.std.specs.Prelude.{◌≡◌, ◌≤◌, [], OnErr, OnOk};
ghost use Rattle.gl_catalog.specs.Manager.{state_of};
ghost use Rattle.gl_rows.specs.Releasing.{CommitsAndKeeps, GoesBackTo};
ghost use Rattle.gl_steps.specs.declared.command.Command.TheVariants as command;
ghost use Rattle.gl_waiting.specs.Delivering.{Carries, ComesToNothing, Delivered, unlocking};
ghost use Rattle.gl_waiting.specs.Going.{IsRunOf};

use super::Delivery;
use gl_catalog::Command;
use gl_modes::{NodeId, Refusal};
use gl_slots::Slots;
use gl_table::{Told, TxnId};

impl Delivery {
    /// Rolls back to a savepoint, as `Registry::release_since`, with the notices put into an empty list.
    #[inline(always)]
    pub fn release_since(
        &mut self,
        txn: TxnId,
        mark: usize,
        told: &mut Told,
    ) -> (Result<usize, Refusal>, Slots)
        requires empty { told.old.items ≡ [] }
        ensures back { GoesBackTo txn mark self.old.manager self.old.rows result.0 told.new.items self.new.manager self.new.rows }
        ensures delivered { OnOk result.0 (Delivered self.old (unlocking txn) told.new.items result.1 self.new) }
        ensures refused { OnErr result.0 (ComesToNothing self.old told.new.items result.1 self.new) }
        ensures counted { self.old.manager.accepted ≤ self.new.manager.accepted }
        ensures run { IsRunOf (unlocking txn) (state_of self.old.manager) (state_of self.new.manager) }
    {
        self.registry.law();
        let released = match self.registry.release_since(txn, mark, told) {
            Ok(released) => released,
            Err(refusal) => return (Err(refusal), Slots::empty()),
        };
        let asked = Command::Unlock {
            txn,
            node: NodeId::NONE,
        };
        let ended = self.boxes.deliver(&asked, told);
        (Ok(released), ended)
    }

    /// Commits a transaction and begins another in its slot that keeps its first `keep` locks, as
    /// `Registry::commit_keeping`, with the notices put into an empty list.
    #[inline(always)]
    pub fn commit_keeping(
        &mut self,
        txn: TxnId,
        keep: usize,
        since: u64,
        told: &mut Told,
    ) -> (Result<Option<TxnId>, Refusal>, Slots)
        requires empty { told.old.items ≡ [] }
        ensures keeps { CommitsAndKeeps txn keep since self.old.manager self.old.rows result.0 told.new.items self.new.manager self.new.rows }
        ensures carries { Carries self.old (command.Commit txn) told.new.items result.1 self.new }
        ensures run { IsRunOf (command.Commit txn) (state_of self.old.manager) (state_of self.new.manager) }
    {
        self.registry.law();
        let next = match self.registry.commit_keeping(txn, keep, since, told) {
            Ok(next) => next,
            Err(refusal) => return (Err(refusal), Slots::empty()),
        };
        let ended = self.boxes.deliver(&Command::Commit { txn }, told);
        (Ok(next), ended)
    }
}
