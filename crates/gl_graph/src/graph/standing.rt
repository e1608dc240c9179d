//! A node's kind and parents: one look-up for all that a lock needs of it.

ghost use Rattle.std.specs.Prelude.{◌≡◌, IfSome};
ghost use Rattle.std.specs.Option.{option_map};
ghost use Rattle.gl_graph.specs.Graph.{parents_of, shape_of};
ghost use Rattle.gl_graph.specs.Shapes.{kind_in};
ghost use Rattle.gl_graph.specs.View.{graph_of};

use super::Graph;
use crate::kind::Kind;
use gl_modes::NodeId;

impl Graph {
    /// The kind and the parents of the node, by one look-up; `None` if the id names none.
    #[inline]
    pub fn kind_and_parents(&self, n: NodeId) -> Option<(Kind, &[NodeId])>
        ensures kind { option_map (λ p. p.0) result ≡ kind_in (shape_of (graph_of self.now) n) }
        ensures parents { IfSome result (λ p. p.1.now ≡ parents_of (graph_of self.now) n) }
    {
        match self.node(n) {
            Some(node) => Some((node.body.kind(), node.body.parents())),
            None => None,
        }
    }
}
