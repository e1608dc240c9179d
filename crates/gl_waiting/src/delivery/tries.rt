//! Tries of paths.

ghost use Rattle.std.specs.Prelude.{◌≡◌, ◌⊎◌, ◌<◌, ◌≤◌, [], OnErr, IfOk, Some};
ghost use Rattle.gl_slots.specs.Slots.{HasNoSlot};
ghost use Rattle.gl_modes.specs.declared.refusal.Refusal.{Refusal as ARefusal};
ghost use Rattle.gl_graph.specs.Refusals.{first_refusal};
ghost use Rattle.gl_catalog.specs.Manager.{state_of};
ghost use Rattle.gl_catalog.specs.Paths.{KeepsBelow, KeepsPath, path_tests};
ghost use Rattle.gl_catalog.specs.Replies.{CallSteps, said, took};
ghost use Rattle.gl_wakes.specs.Wakes.{HasEnded};
ghost use Rattle.gl_waiting.specs.Going.{IsRunOf};
ghost use Rattle.gl_waiting.specs.declared.tries.Tried.TheVariants.{Refused as refused};
ghost use Rattle.gl_waiting.specs.Tries.{AnswersTry, HasManager, HoldsAsTried, IsTried, TriesOnce, TriesPath, try_of};

use super::Delivery;
use crate::tries::{
    Above, Keep, Tried, climbs_down, gives_back, go_down, next_ask, parent_missing, remember,
    tried_as,
};
use gl_catalog::{Answer, Command};
use gl_modes::{Mode, NodeId, Refusal};
use gl_slots::Slots;
use gl_table::{Told, TxnId};

impl Delivery {
    /// Tries to lock a node with what must be held above it: to write, by `IX` each parent that is not held in `IX` or
    /// greater; to read, by `IS` the first parent, if none is held in `IS` or greater; and the same above each of these.
    /// The highest comes first. Each lock on the way is granted at once, or the path is refused. A try tells nobody and
    /// ends nobody's wait.
    ///
    /// A path that is refused keeps what it acquired, or rolls back to what the transaction held before, as
    /// `release_since`: a mode that it raised stays raised, and the notices of the rollback are put into an empty list. The
    /// rollback is refused only if a command can no longer be counted for each lock; then all stays. Answers also the
    /// slots whose wait the rollback may have ended.
    ///
    /// Refused, in this order, with `WornOut`, `NoSuchTxn`, `TxnWaiting`, `TxnCondemned`, `NoSuchNode` and `BadMode` before
    /// anything is locked; with `WornOut` and `NoMemory` also on the way.
    pub fn try_path(
        &mut self,
        txn: TxnId,
        node: NodeId,
        mode: Mode,
        keep: Keep,
        told: &mut Told,
    ) -> (Tried, Slots)
        requires empty { told.old.items ≡ [] }
        ensures tries { IsTried keep txn (node, mode) self.old result.0 told.new.items result.1 self.new }
        ensures held { HoldsAsTried txn (node, mode) result.0 (state_of self.new.manager) }
        ensures tests { (r : ARefusal) → first_refusal (path_tests (state_of self.old.manager) txn node mode) ≡ Some r
            → (result.0 ≡ refused r) × (self.new ≡ self.old) }
        ensures run { IsRunOf (try_of txn (node, mode)) (state_of self.old.manager) (state_of self.new.manager) }
        ensures ended { HasEnded (state_of self.old.manager) (state_of self.new.manager) result.1 }
        ensures counted { HasNoSlot result.1 ⊎ (self.old.manager.accepted < self.new.manager.accepted) }
        ensures low { self.old.manager.accepted ≤ self.new.manager.accepted }
    {
        self.law();
        let mark = self.manager().lock_count(txn).unwrap_or(0);
        let before = self.manager().accepted();
        let tried = self.try_up(txn, node, mode, told);
        let after = self.manager().accepted();
        if after == before || !gives_back(keep, tried) {
            return (tried, Slots::empty());
        }
        self.law();
        let (_released, ended) = self.release_since(txn, mark, told);
        (tried, ended)
    }

    /// Makes the tries of a path, to its end.
    fn try_up(&mut self, txn: TxnId, node: NodeId, mode: Mode, told: &mut Told) -> Tried
        requires empty { told.old.items ≡ [] }
        ensures path { TriesPath txn (node, mode) self.old.manager result self.new.manager }
        ensures manager { HasManager self.old self.new.manager self.new }
        ensures untold { told.new.items ≡ [] }
    {
        let mut above = Above::new();
        'path: loop {
            let (asked, tried) = self.try_first(txn, node, mode, &mut above, told);
            // A grant is counted, so that the path ends when the count does, if not before.
            let _counted = self.manager().accepted();
            if !climbs_down(node, asked, tried) {
                return tried_as(asked, tried);
            }
            go_down(mode, &mut above);
        }
    }

    /// Makes the try that comes first on the way to a lock of this node, of which these nodes above are known. A try that
    /// is refused for lack of a parent names it, and the climb continues from there.
    fn try_first(
        &mut self,
        txn: TxnId,
        node: NodeId,
        mode: Mode,
        above: &mut Above,
        told: &mut Told,
    ) -> (NodeId, Result<Mode, Refusal>)
        requires empty { told.old.items ≡ [] }
        requires kept { KeepsPath (state_of self.old.manager) txn (node, mode) above.old.items }
        ensures tries { TriesOnce txn (node, mode) self.old.manager result.0 result.1 self.new.manager }
        ensures manager { HasManager self.old self.new.manager self.new }
        ensures below { IfOk result.1 (λ m. KeepsBelow (state_of self.new.manager) txn (node, mode) above.new.items) }
        ensures untold { told.new.items ≡ [] }
    {
        self.law();
        // A way up has fewer steps than there are nodes.
        'up: for _step in 0..self.manager().graph().len() {
            let (asked, wanted) = next_ask(node, mode, above);
            let tried = self.try_at(txn, asked, wanted, told);
            let Some(parent) = parent_missing(tried) else {
                return (asked, tried);
            };
            remember(above, parent);
        }
        let (asked, wanted) = next_ask(node, mode, above);
        (asked, self.try_at(txn, asked, wanted, told))
    }

    /// Tries to lock one node.
    pub(super) fn try_at(
        &mut self,
        txn: TxnId,
        node: NodeId,
        mode: Mode,
        told: &mut Told,
    ) -> Result<Mode, Refusal>
        requires empty { told.old.items ≡ [] }
        ensures step { CallSteps (state_of self.old.manager) (try_of txn (node, mode)) took result (state_of self.new.manager) }
        ensures refused { OnErr result (self.new ≡ self.old) }
        ensures manager { HasManager self.old self.new.manager self.new }
        ensures untold { told.new.items ≡ [] }
    {
        taken(self.registry.serve(Command::Try { txn, node, mode }, told))
    }
}

/// What a try came to that was answered so.
fn taken(answer: Option<Answer>) -> Result<Mode, Refusal>
    requires { AnswersTry answer }
    ensures { answer ≡ Some (said took result).0 }
{
    match answer {
        Some(Answer::Granted(granted)) => Ok(granted),
        Some(Answer::Refused(refusal)) => Err(refusal),
        _ => unreachable!(),
    }
}
