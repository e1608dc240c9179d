//! The table of locks.

ghost use Rattle.gl_slots.specs.Limit.{most_slots};
ghost use Rattle.std.specs.Prelude.{◌≡◌, ◌≤◌, ◌<◌, ◌+◌, ◌^◌, ◌&&◌, ◌↔◌, ℕ, [], IfErr, IfOk, IfSome, IsNone, None, OnErr, OnOk, Some, if◌then◌else◌};
ghost use Rattle.gl_modes.specs.declared.refusal.Refusal.{Refusal as ARefusal};
ghost use Rattle.gl_graph.specs.View.{graph_of};
ghost use Rattle.gl_model.specs.Deadlocks.{no_deadlock};
ghost use Rattle.gl_model.specs.Lawful.{HasNoConflict, IsLawful};
ghost use Rattle.gl_header.specs.Headers.{AreHeaders};
ghost use Rattle.gl_model.specs.State.{choosing, empty_state, lives, status_of, with_limits, HasNoCycle};
ghost use Rattle.gl_table.specs.Table.{ListsAgree, StandOnce, state_of};
ghost use Rattle.gl_model.specs.declared.answers.Detect.TheVariants.{AtBlock};

use crate::ledger::Ledger;
use crate::locks::Locks;
use gl_graph::Graph;
use gl_header::GrantList;
use gl_model::{Deadlock, Detect, Status, TxnId};
use gl_modes::Refusal;
use gl_waits::Victims;
use std::alloc::{AllocError, Global};
use std::marker::Model;

mod answering;
mod begin;
mod checks;
mod cuts;
mod listing;
mod lock;
mod moves;
mod nodes;
mod queries;
mod records;
mod release;
mod shed;
mod waits;

/// The table of locks: the locks over their graph, and what is done about deadlocks.
#[derive(Drop)]
pub struct Table {
    locks: Locks,
    detect: Detect,
    victims: Victims,
    begins: u64,
    deadlock: Deadlock,
}

impl Model for Table {
    ghost use Rattle.gl_table.specs.Table.{TableView};

    ghost Value = { TableView };

    ghost use Rattle.gl_table.specs.inside.Sound.{view_of, IsSound};

    ghost view = { view_of };

    ghost invariant = { IsSound };
}

impl Table {
    /// A table without nodes and transactions, for at most `most` transactions at once, which
    /// chooses victims by `Youngest`. The only refusal is `NoMemory`.
    pub fn new(alloc: Global, detect: Detect, most: usize) -> Result<Self, Refusal>
        requires some { 1 ≤ most }
        requires few { most ≤ most_slots }
        ensures made { IfOk result (λ table. state_of table ≡ empty_state detect most) }
        ensures deadlock { IfOk result (λ table. table.deadlock ≡ no_deadlock) }
        ensures refused { IfErr result (λ refusal. refusal ≡ ARefusal.NoMemory) }
    {
        Table::choosing(alloc, detect, Victims::Youngest, most)
    }

    /// As `new`, with this choice of victims.
    pub fn choosing(
        alloc: Global,
        detect: Detect,
        victims: Victims,
        most: usize,
    ) -> Result<Self, Refusal>
        requires some { 1 ≤ most }
        requires few { most ≤ most_slots }
        ensures made { IfOk result (λ table. state_of table ≡ choosing victims (empty_state detect most)) }
        ensures deadlock { IfOk result (λ table. table.deadlock ≡ no_deadlock) }
        ensures refused { IfErr result (λ refusal. refusal ≡ ARefusal.NoMemory) }
    {
        Table::over(Graph::new(alloc), alloc, detect, victims, most)
    }

    /// As `choosing`, with other limits: `nodes` may live at once, at most 2^31, and an index may
    /// have `bounds` bounds. The defaults are 65,536 and 256.
    pub fn with_limits(
        alloc: Global,
        detect: Detect,
        victims: Victims,
        most: usize,
        nodes: u32,
        bounds: u32,
    ) -> Result<Self, Refusal>
        requires some { 1 ≤ most }
        requires few { most ≤ most_slots }
        requires low { nodes ≤ 2 ^ 31 }
        ensures made { IfOk result (λ table. state_of table ≡ with_limits nodes bounds (choosing victims (empty_state detect most))) }
        ensures deadlock { IfOk result (λ table. table.deadlock ≡ no_deadlock) }
        ensures refused { IfErr result (λ refusal. refusal ≡ ARefusal.NoMemory) }
    {
        let graph = Graph::with_limits(alloc, nodes, bounds);
        Table::over(graph, alloc, detect, victims, most)
    }

    /// A table over a graph without nodes.
    fn over(
        graph: Graph,
        alloc: Global,
        detect: Detect,
        victims: Victims,
        most: usize,
    ) -> Result<Self, Refusal>
        requires some { 1 ≤ most }
        requires few { most ≤ most_slots }
        requires empty { (birth : ℕ) → (graph_of graph).at birth ≡ None }
        requires births { graph.births ≡ 0 }
        requires low { graph.most ≤ 2 ^ 31 }
        ensures made { IfOk result (λ table. state_of table ≡ with_limits graph.most graph.most_bounds (choosing victims (empty_state detect most))) }
        ensures deadlock { IfOk result (λ table. table.deadlock ≡ no_deadlock) }
        ensures refused { IfErr result (λ refusal. refusal ≡ ARefusal.NoMemory) }
    {
        match Ledger::new(alloc, most) {
            Ok(ledger) => Ok(Table {
                locks: Locks {
                    graph,
                    ledger,
                    granted: GrantList::new(),
                },
                detect,
                victims,
                begins: 0,
                deadlock: Deadlock::none(),
            }),
            Err(AllocError) => Err(Refusal::NoMemory),
        }
    }

    /// The law of every table: its state is lawful; a node has a header exactly if a transaction
    /// holds it or waits for it, with the supremum of the grants as its group mode; the lists
    /// agree; no node has two headers or is twice in a list; no two transactions conflict; and with
    /// detection at block nobody is on a cycle of waits.
    pub fn law(&self)
        ensures lawful { IsLawful (state_of self.now) }
        ensures headers { AreHeaders self.now.headers }
        ensures lists { ListsAgree self.now }
        ensures unique { StandOnce self.now }
        ensures no_conflict { HasNoConflict (state_of self.now) }
        ensures no_cycle { self.now.detect ≡ AtBlock → HasNoCycle (state_of self.now) }
        ensures few { (state_of self.now).most ≤ most_slots }
    {
        self.locks.ledger.headers.law();
    }

    /// How deadlocks are detected.
    pub fn detect(&self) -> Detect
        ensures { result ≡ self.now.detect }
    {
        self.detect
    }

    /// How victims are chosen.
    pub fn victims(&self) -> Victims
        ensures { result ≡ self.now.victims }
    {
        self.victims
    }

    /// The deadlock of the last victim, as it was when that was condemned; `None` if none ever was.
    /// Allocates no memory.
    pub fn last_deadlock(&self) -> Option<&Deadlock>
        ensures some { IfSome result (λ deadlock. deadlock.now ≡ self.now.deadlock) }
        ensures none { IsNone result ↔ (self.now.deadlock.cycle.items ≡ []) }
    {
        if self.deadlock.cycle.is_empty() {
            None
        } else {
            Some(&self.deadlock)
        }
    }

    /// The lock graph.
    pub fn graph(&self) -> &Graph
        ensures { result.now ≡ self.now.graph }
    {
        &self.locks.graph
    }

    /// Whether a transaction is active, waits or is condemned; `None` if it does not live.
    pub fn status(&self, t: TxnId) -> Option<Status>
        ensures { result ≡ (if lives (state_of self.now) t then status_of (state_of self.now) t.slot else None) }
    {
        match self.locks.ledger.txn_entry(t.slot) {
            Some(txn_entry) if txn_entry.age == t.age => Some(txn_entry.status),
            _ => None,
        }
    }
}
