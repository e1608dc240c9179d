//! The rule of the lock graph, tested on the locks held on the parents alone.

ghost use Rattle.std.specs.Prelude.{◌≡◌, ◌||◌, None, if◌then◌else◌};
ghost use Rattle.std.specs.List.{list_any};
ghost use Rattle.gl_modes.specs.declared.mode.Mode.TheVariants.{IS};
ghost use Rattle.gl_modes.specs.Modes.{is_at_least};
ghost use Rattle.gl_graph.specs.Refusals.{verdict};
ghost use Rattle.gl_model.specs.State.{no_parents};
ghost use Rattle.gl_lock_lists.specs.Lists.{mode_of};
ghost use Rattle.gl_model.specs.Calls.{first_not_ix, first_of_all, rule_refusal};

use gl_lock_lists::LockList;
use gl_modes::{Mode, NodeId, Refusal, covers};

/// Whether the rule of the graph permits this transaction this mode on a node with these parents:
/// to write, IX or greater on each; to read, IS or greater on one, and nothing for a root. Refused
/// with `NeedParents`, to write for the first parent that lacks it, to read for the first of all.
#[inline(always)]
#[tactic(auto, using(crate::proofs::calls::Queries::rule_steps))]
pub(crate) fn check_rule(list: &LockList, parents: &[NodeId], mode: Mode) -> Result<(), Refusal>
    ensures { result ≡ verdict (rule_refusal (mode_of list.now) parents.now mode) }
{
    if covers(mode, Mode::IX) {
        check_writable(list, parents)
    } else {
        check_readable(list, parents)
    }
}

/// Whether each of these is held in IX or greater.
#[inline]
#[tactic(auto, using(crate::proofs::calls::Queries::writable_steps))]
pub(crate) fn check_writable(list: &LockList, parents: &[NodeId]) -> Result<(), Refusal>
    ensures { result ≡ verdict (first_not_ix (mode_of list.now) parents.now) }
{
    for parent in parents {
        if !covers(list.mode(*parent), Mode::IX) {
            return Err(Refusal::NeedParents { node: *parent });
        }
    }
    Ok(())
}

/// Whether one of these is held in IS or greater, if there are any.
fn check_readable(list: &LockList, parents: &[NodeId]) -> Result<(), Refusal>
    ensures { result ≡ verdict (if no_parents parents.now || list_any (λ p. is_at_least (mode_of list.now p) IS) parents.now then None
        else first_of_all parents.now) }
{
    match parents.first() {
        Some(first) => {
            if reads_some(list, parents) {
                Ok(())
            } else {
                Err(Refusal::NeedParents { node: *first })
            }
        }
        None => Ok(()),
    }
}

/// Whether one of these is held in IS or greater.
fn reads_some(list: &LockList, nodes: &[NodeId]) -> bool
    ensures { result ≡ list_any (λ p. is_at_least (mode_of list.now p) IS) nodes.now }
{
    nodes.iter().any(|n| covers(list.mode(*n), Mode::IS))
}
