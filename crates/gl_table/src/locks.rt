//! The locks over the graph of their nodes, with the law that they keep from call to call.

ghost use Rattle.std.specs.Prelude.{ℕ};
ghost use Rattle.gl_model.specs.Lawful.{IsOrderly};
ghost use Rattle.gl_table.specs.inside.Ledger.{Agrees, AreSound, CountsHeld, state_in};

use crate::ledger::Ledger;
use gl_graph::Graph;
use gl_header::GrantList;

mod back;
mod end;
mod reads;
mod release;
mod settle;
mod shed;

/// The lock graph, and the ledger of its locks and waits. The ghost fields say the law: holders and
/// waiters live, on living nodes; the ledger's parts are in order; each list has the modes of its
/// slot, and exact counts of held children. Each method keeps it; only steps of the ledger break it
/// meanwhile.
#[derive(Drop)]
pub(crate) struct Locks {
    pub(crate) graph: Graph,
    pub(crate) ledger: Ledger,
    /// The waiters that the last release granted. Each release fills it anew; it is kept, since to
    /// make one would write all of it.
    pub(crate) granted: GrantList,
    ghost orderly: { IsOrderly (state_in graph ledger) },
    ghost sound: { AreSound ledger },
    ghost agree: { (u : ℕ) → Agrees (state_in graph ledger) ledger.lists.items u },
    ghost count: { (u : ℕ) → CountsHeld (state_in graph ledger) ledger.lists.items u },
}
