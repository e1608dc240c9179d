//! The nodes found by a search up the graph. Their list is also the queue of the search, so that each
//! is visited once.

ghost use Rattle.std.specs.Prelude.{◌≡◌, OnOk};
ghost use Rattle.gl_graph.specs.Seen.{with_all};

use gl_modes::NodeId;
use indexmap::IndexSet;
use std::alloc::AllocError;

/// Appends those of `more` that were not found yet.
pub fn add_missing(found: &mut IndexSet<NodeId>, more: &[NodeId]) -> Result<(), AllocError>
    ensures { OnOk result (found.new.keys ≡ with_all found.old.keys more.now) }
{
    for n in more {
        found.insert(*n)?;
    }
    Ok(())
}
