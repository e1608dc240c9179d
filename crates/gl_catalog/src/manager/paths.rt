//! Paths: a node is locked with the locks that it needs above it.

ghost use Rattle.std.specs.Prelude.{◌≡◌, ◌⊎◌, ◌++◌, ◌∷◌, [], Err, IfErr, None, OnErr, Some, true};
ghost use Rattle.gl_modes.specs.declared.refusal.Refusal.{Refusal as ARefusal};
ghost use Rattle.gl_graph.specs.Refusals.{first_refusal};
ghost use Rattle.gl_catalog.specs.Counters.{grants};
ghost use Rattle.gl_catalog.specs.Manager.{state_of};
ghost use Rattle.gl_catalog.specs.Replies.{said};
ghost use Rattle.gl_catalog.specs.Paths.{
  AsksOnce,
  KeepsBelow,
  KeepsPath,
  LeavesAllBut,
  LocksPath,
  goes_on,
  intention,
  missing_parent,
  next_ask,
  parent_wanted,
  path_tests,
  reaching,
};
ghost use Rattle.gl_steps.specs.Tests.{worn};

use super::Manager;
use arrayvec::ArrayVec;
use gl_modes::{Mode, NodeId, Refusal, covers};
use gl_table::{Locked, Told, TxnId};

/// The most nodes above that a path keeps.
const MOST_KEPT: usize = 8;

/// The nodes above that are known to be needed, upwards.
type Above = ArrayVec<NodeId, MOST_KEPT>;

/// The last request of a path, and its answer.
#[derive(Clone, Copy, PartialEq, Eq, Debug)]
pub struct Reached {
    /// The requested node: the path's own, or one above it.
    pub node: NodeId,
    pub locked: Locked,
}

impl Manager {
    /// Locks a node with what must be held above it: to write, in `IX` each parent that is not held
    /// in `IX` or greater; to read, in `IS` the first parent, if none is held in `IS` or greater;
    /// and the same above each of these. The highest is locked first, and the node in its mode
    /// last. Each request is a lock, and is counted as one.
    ///
    /// The path ends with the request for the node; or with the first request above it that waits,
    /// that condemns its transaction, or whose grant told others, who must hear of it before more
    /// is requested. The answer says which. Once that node is granted, and they have heard, the
    /// caller calls again for the rest of the path. What was locked stays locked.
    ///
    /// Another living transaction keeps its effective mode on each record, unless the list tells it
    /// of a grant, which may raise it; and if it reads a node, the records below that node stay,
    /// with their keys. Each request changes the counters and the last deadlock as its lock does.
    ///
    /// Refused, in this order, with `WornOut`, `NoSuchTxn`, `TxnWaiting`, `TxnCondemned`,
    /// `NoSuchNode` and `BadMode` before anything is locked; with `WornOut` and `NoMemory` also
    /// later. Allocates memory for locks alone.
    pub fn lock_path_telling(
        &mut self,
        t: TxnId,
        node: NodeId,
        mode: Mode,
        told: &mut Told,
    ) -> Result<Reached, Refusal>
        requires empty { told.old.items ≡ [] }
        ensures path { LocksPath t (node, mode) self.old told.new.items result self.new }
        ensures tests { (r : ARefusal) → first_refusal (path_tests (state_of self.old) t node mode) ≡ Some r → (result ≡ Err r) × (self.new ≡ self.old) }
        ensures others { LeavesAllBut t (state_of self.old) (said (reaching told.new.items) result) (state_of self.new) }
        ensures rule { IfErr result (λ refusal. missing_parent refusal ≡ None) }
        ensures untold { OnErr result (told.new.items ≡ []) }
    {
        self.law();
        let mut above = Above::new();
        if self.table.lock_count(t) == Some(0) {
            self.climb(t, node, mode, &mut above); // Looking costs less than a refused lock.
        }
        'path: loop {
            let reached = self.lock_first(t, node, mode, &mut above, told)?;
            // Each grant is counted, so the path ends when the count is full, if not before.
            let _counted = self.accepted();
            if !leads_on(node, reached, told) {
                return Ok(reached);
            }
            self.go_down(t, node, mode, &mut above);
        }
    }

    /// Makes the first request on the path to a lock of this node, of which these nodes above are
    /// known. After a grant a node may need another parent, so more may be found.
    fn lock_first(
        &mut self,
        t: TxnId,
        node: NodeId,
        mode: Mode,
        above: &mut Above,
        told: &mut Told,
    ) -> Result<Reached, Refusal>
        requires empty { told.old.items ≡ [] }
        requires kept { KeepsPath (state_of self.old) t (node, mode) above.old.items }
        ensures asks { AsksOnce t (node, mode) self.old told.new.items result self.new }
        ensures untold { OnErr result (told.new.items ≡ []) }
        ensures below { grants (said (reaching told.new.items) result).0 ≡ true → KeepsBelow (state_of self.new) t (node, mode) above.new.items }
    {
        self.law();
        'first: loop {
            let (asked, wanted) = next_ask(node, mode, above);
            match self.lock_telling(t, asked, wanted, told) {
                Ok(locked) => {
                    return Ok(Reached {
                        node: asked,
                        locked,
                    });
                }
                Err(refusal) => {
                    let Some(parent) = missing_parent(refusal) else {
                        return Err(refusal);
                    };
                    keep(above, parent);
                    self.climb(t, node, mode, above);
                }
            }
        }
    }

    /// Climbs from the next request to the first. Nothing is requested.
    fn climb(&self, t: TxnId, node: NodeId, mode: Mode, above: &mut Above)
        ensures kept { KeepsPath (state_of self.now) t (node, mode) above.old.items → KeepsPath (state_of self.now) t (node, mode) above.new.items }
        ensures first { parent_wanted (state_of self.now) t (next_ask (node, mode) above.new.items) ≡ None }
    {
        self.law();
        // A path to the root has fewer steps than there are nodes.
        'up: for _step in 0..self.graph().len() {
            let (asked, wanted) = next_ask(node, mode, above);
            match self.parent_wanted(t, asked, wanted) {
                Some(parent) => keep(above, parent),
                None => return,
            }
        }
    }

    /// Steps down from a granted node. A writer still needs the nodes below it; a reader may need
    /// fewer, and climbs anew.
    fn go_down(&self, t: TxnId, node: NodeId, mode: Mode, above: &mut Above)
        requires { KeepsBelow (state_of self.now) t (node, mode) above.old.items }
        ensures { KeepsPath (state_of self.now) t (node, mode) above.new.items }
    {
        if !covers(mode, Mode::IX) {
            above.clear();
            self.climb(t, node, mode, above);
            return;
        }
        above.pop();
    }

    /// The parent for lack of which a lock would be refused.
    fn parent_wanted(&self, t: TxnId, node: NodeId, mode: Mode) -> Option<NodeId>
        ensures { worn (state_of self.now) ≡ None → result ≡ parent_wanted (state_of self.now) t (node, mode) }
    {
        match self.table.check_lock(t, node, mode) {
            Ok(()) => None,
            Err(refusal) => missing_parent(refusal),
        }
    }
}

/// The next request of a path of which these nodes above are known.
fn next_ask(node: NodeId, mode: Mode, above: &Above) -> (NodeId, Mode)
    ensures { result ≡ next_ask (node, mode) above.now.items }
{
    match above.last() {
        Some(parent) => (*parent, intention(mode)),
        None => (node, mode),
    }
}

/// Keeps one more node. If there is no room, those below it are dropped, to be found again.
fn keep(above: &mut Above, parent: NodeId)
    ensures { (above.new.items ≡ above.old.items ++ parent ∷ []) ⊎ (above.new.items ≡ parent ∷ []) }
{
    if above.is_full() {
        above.clear();
    }
    above.push(parent);
}

/// The intention that a mode needs on parents.
fn intention(mode: Mode) -> Mode
    ensures { result ≡ intention mode }
{
    if covers(mode, Mode::IX) {
        Mode::IX
    } else {
        Mode::IS
    }
}

/// The parent for lack of which a lock is refused.
fn missing_parent(refusal: Refusal) -> Option<NodeId>
    ensures { result ≡ missing_parent refusal }
{
    match refusal {
        Refusal::NeedParents { node } => Some(node),
        _ => None,
    }
}

/// Whether a path to this node continues: the request was granted above it, and told nobody.
fn leads_on(node: NodeId, reached: Reached, told: &Told) -> bool
    ensures { result ≡ goes_on node reached.node (reaching told.now.items reached) }
{
    matches!(reached.locked, Locked::Granted(_)) && told.is_empty() && reached.node != node
}
