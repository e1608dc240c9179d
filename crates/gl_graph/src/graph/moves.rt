//! Moving inner nodes, files and indexes.

ghost use Rattle.std.specs.Prelude.{◌≡◌, ◌⊎◌, IfErr, IfOk, None, OnErr, OnOk, Some, true};
ghost use Rattle.std.specs.List.{list_all};
ghost use Rattle.gl_modes.specs.declared.refusal.Refusal.{Refusal};
ghost use Rattle.gl_graph.specs.Shapes.{is_movable_shape, least_parents};
ghost use Rattle.gl_graph.specs.Graph.{is_live, node_count, shape_of};
ghost use Rattle.gl_graph.specs.Routes.{is_at_or_below};
ghost use Rattle.gl_graph.specs.Lawful.{AreInnerParents};
ghost use Rattle.gl_graph.specs.Changes.{with_parents};
ghost use Rattle.gl_graph.specs.Refusals.{first_cycle};
ghost use Rattle.gl_graph.specs.View.{graph_of};

use super::Graph;
use crate::found::add_missing;
use crate::store::{count_down, count_up, write_parents};
use gl_modes::{NodeId, Refusal};
use indexmap::IndexSet;
use std::alloc::AllocError;

impl Graph {
    /// Gives an inner node, a file or an index other parents: living, different inner nodes, at most
    /// 8, and at least one for a file or an index. Without parents an inner node is a root.
    ///
    /// Refused with `Cycle`, naming the first new parent that is the node or has a path to it, and
    /// with `NoMemory`, also if the search for such a path lacks memory.
    pub fn set_parents(&mut self, n: NodeId, parents: &[NodeId]) -> Result<(), Refusal>
        requires node { is_movable_shape (shape_of (graph_of self.old) n) ≡ true }
        requires parents { AreInnerParents (graph_of self.old) (least_parents (shape_of (graph_of self.old) n)) parents.now }
        ensures moved { OnOk result (graph_of self.new ≡ with_parents (graph_of self.old) n parents.now) }
        ensures clear { OnOk result (first_cycle (graph_of self.old) n parents.now ≡ None) }
        ensures refused { IfErr result (λ r. (r ≡ Refusal.NoMemory) ⊎ (first_cycle (graph_of self.old) n parents.now ≡ Some r)) }
        ensures err { OnErr result (self.new ≡ self.old) }
    {
        self.check_cycles(n, parents)?;
        let Ok(fresh) = Vec::from_slice(self.alloc, parents) else {
            return Err(Refusal::NoMemory);
        };
        let old = write_parents(&mut self.nodes, n.key, fresh);
        count_down(&mut self.nodes, old.as_slice());
        count_up(&mut self.nodes, parents);
        Ok(())
    }

    /// Tests that no new parent is the node or has a path to it.
    fn check_cycles(&self, n: NodeId, parents: &[NodeId]) -> Result<(), Refusal>
        requires { list_all (is_live (graph_of self.now)) parents.now ≡ true }
        ensures clear { OnOk result (first_cycle (graph_of self.now) n parents.now ≡ None) }
        ensures refused { IfErr result (λ r. (r ≡ Refusal.NoMemory) ⊎ (first_cycle (graph_of self.now) n parents.now ≡ Some r)) }
    {
        for parent in parents {
            match self.climbs(*parent, n) {
                Ok(true) => return Err(Refusal::Cycle { node: *parent }),
                Ok(false) => {}
                Err(AllocError) => return Err(Refusal::NoMemory),
            }
        }
        Ok(())
    }

    /// Whether the node is the target or has a path to it. The set of found nodes is also the queue of
    /// the search, so that each node above is visited once.
    fn climbs(&self, from: NodeId, target: NodeId) -> Result<bool, AllocError>
        requires { is_live (graph_of self.now) from ≡ true }
        ensures { IfOk result (λ b. b ≡ is_at_or_below (node_count (graph_of self.now)) (graph_of self.now) target from) }
    {
        let mut found = IndexSet::new(self.alloc);
        found.insert(from)?;
        let mut at = 0;
        while let Some(&node) = found.as_slice().get(at) {
            add_missing(&mut found, self.parents(node))?;
            at += 1;
        }
        Ok(found.contains(&target))
    }
}
