//! The lock manager: a table, the count of accepted commands, and counters.

ghost use Rattle.gl_slots.specs.Limit.{most_slots};
ghost use Rattle.std.specs.Prelude.{◌≡◌, ◌≤◌, ◌^◌, ◌&&◌, ◌↔◌, [], IfErr, IfOk, IfSome, IsNone, None, Some, if◌then◌else◌};
ghost use Rattle.gl_modes.specs.declared.refusal.Refusal.{Refusal as ARefusal};
ghost use Rattle.gl_header.specs.Header.{holds};
ghost use Rattle.gl_table.specs.Table.{board_of};
ghost use Rattle.gl_model.specs.Calls.{held_children, is_idle};
ghost use Rattle.gl_model.specs.Deadlocks.{no_deadlock};
ghost use Rattle.gl_model.specs.State.{choosing, empty_state, lives, members, status_of, with_limits};
ghost use Rattle.gl_catalog.specs.Counters.{no_counts};
ghost use Rattle.gl_catalog.specs.Manager.{IsLawfulManager, state_of};
ghost use Rattle.gl_catalog.specs.Replies.{wait_of};

use crate::counters::Counters;
use gl_graph::Graph;
use gl_modes::{Mode, NodeId, Refusal};
use gl_table::{Deadlock, Detect, Status, Table, TxnId};
use gl_waits::{Board, Victims};
use std::alloc::Global;
use std::marker::Model;

mod apply;
mod checks;
mod counting;
mod escalation;
mod listing;
mod locks;
mod moves;
mod nodes;
mod paths;
mod records;
mod savepoints;
mod schema;
mod splits;

pub use paths::Reached;

/// The lock manager of one thread: the table of locks, how many commands it has accepted, and
/// counters.
#[derive(Drop)]
pub struct Manager {
    table: Table,
    accepted: u64,
    counters: Counters,
}

impl Model for Manager {
    ghost use Rattle.gl_catalog.specs.Manager.{ManagerView};

    ghost Value = { ManagerView };

    ghost use Rattle.gl_catalog.specs.Sound.{view_of, IsSound};

    ghost view = { view_of };

    ghost invariant = { IsSound };
}

impl Manager {
    /// A manager without nodes and transactions, for at most `most` transactions at once, which
    /// chooses victims by `Youngest`. The only refusal is `NoMemory`.
    pub fn new(alloc: Global, detect: Detect, most: usize) -> Result<Self, Refusal>
        requires some { 1 ≤ most }
        requires few { most ≤ most_slots }
        ensures made { IfOk result (λ manager. state_of manager ≡ empty_state detect most) }
        ensures deadlock { IfOk result (λ manager. manager.table.deadlock ≡ no_deadlock) }
        ensures uncounted { IfOk result (λ manager. manager.counters ≡ no_counts) }
        ensures refused { IfErr result (λ refusal. refusal ≡ ARefusal.NoMemory) }
    {
        Manager::choosing(alloc, detect, Victims::Youngest, most)
    }

    /// As `new`, with this choice of victims.
    pub fn choosing(
        alloc: Global,
        detect: Detect,
        victims: Victims,
        most: usize,
    ) -> Result<Self, Refusal>
        requires some { 1 ≤ most }
        requires few { most ≤ most_slots }
        ensures made { IfOk result (λ manager. state_of manager ≡ choosing victims (empty_state detect most)) }
        ensures deadlock { IfOk result (λ manager. manager.table.deadlock ≡ no_deadlock) }
        ensures uncounted { IfOk result (λ manager. manager.counters ≡ no_counts) }
        ensures refused { IfErr result (λ refusal. refusal ≡ ARefusal.NoMemory) }
    {
        let table = Table::choosing(alloc, detect, victims, most)?;
        Ok(Manager::over(table))
    }

    /// As `choosing`, with other limits: `nodes` may live at once, at most 2^31, and an index may
    /// have `bounds` bounds. The defaults are 65,536 and 256.
    pub fn with_limits(
        alloc: Global,
        detect: Detect,
        victims: Victims,
        most: usize,
        nodes: u32,
        bounds: u32,
    ) -> Result<Self, Refusal>
        requires some { 1 ≤ most }
        requires few { most ≤ most_slots }
        requires low { nodes ≤ 2 ^ 31 }
        ensures made { IfOk result (λ manager. state_of manager ≡ with_limits nodes bounds (choosing victims (empty_state detect most))) }
        ensures deadlock { IfOk result (λ manager. manager.table.deadlock ≡ no_deadlock) }
        ensures uncounted { IfOk result (λ manager. manager.counters ≡ no_counts) }
        ensures refused { IfErr result (λ refusal. refusal ≡ ARefusal.NoMemory) }
    {
        let table = Table::with_limits(alloc, detect, victims, most, nodes, bounds)?;
        Ok(Manager::over(table))
    }

    /// A manager of this table, with nothing counted yet.
    fn over(table: Table) -> Self
        ensures table { result.table ≡ table }
        ensures accepted { result.accepted ≡ 0 }
        ensures uncounted { result.counters ≡ no_counts }
    {
        table.law();
        Manager {
            table,
            accepted: 0,
            counters: Counters::default(),
        }
    }

    /// The law of every manager, after any commands.
    pub fn law(&self)
        ensures { IsLawfulManager self.now }
    {
        let _ = &self.accepted;
    }

    /// How many commands were accepted: those that are no query and were not refused.
    pub fn accepted(&self) -> u64
        ensures { result ≡ self.now.accepted }
    {
        self.accepted
    }

    /// The waits-for snapshot of this moment; its epoch is the count of accepted commands. A board
    /// has three kilobytes, so it is made where the caller keeps it, and not inlined.
    #[inline(never)]
    pub fn board(&self) -> Board
        ensures { result ≡ board_of (state_of self.now) }
    {
        self.table.board(self.accepted)
    }

    /// How deadlocks are detected.
    pub fn detect(&self) -> Detect
        ensures { result ≡ self.now.table.detect }
    {
        self.table.detect()
    }

    /// How victims are chosen.
    pub fn victims(&self) -> Victims
        ensures { result ≡ self.now.table.victims }
    {
        self.table.victims()
    }

    /// The deadlock of the last victim, as it was when that was condemned; `None` if none ever was.
    /// Allocates no memory.
    pub fn last_deadlock(&self) -> Option<&Deadlock>
        ensures some { IfSome result (λ deadlock. deadlock.now ≡ self.now.table.deadlock) }
        ensures none { IsNone result ↔ (self.now.table.deadlock.cycle.items ≡ []) }
    {
        self.table.last_deadlock()
    }

    /// The lock graph.
    pub fn graph(&self) -> &Graph
        ensures { result.now ≡ self.now.table.graph }
    {
        self.table.graph()
    }

    /// The node that a transaction waits for, and the wanted mode; `None` if it does not live or
    /// does not wait. Allocates no memory.
    pub fn waiting(&self, t: TxnId) -> Option<(NodeId, Mode)>
        ensures { result ≡ (if lives (state_of self.now) t then wait_of (status_of (state_of self.now) t.slot) else None) }
    {
        match self.table.status(t) {
            Some(Status::Waiting { node, wanted }) => Some((node, wanted)),
            _ => None,
        }
    }

    /// The mode in which a transaction holds a node, `NL` for none; `None` if it does not live.
    /// Allocates no memory.
    pub fn mode_on(&self, t: TxnId, n: NodeId) -> Option<Mode>
        ensures { result ≡ (if lives (state_of self.now) t then Some ((state_of self.now).held t.slot n) else None) }
    {
        self.table.mode(t, n)
    }

    /// Whether no transaction holds the node or waits for it. Allocates no memory.
    pub fn is_idle(&self, n: NodeId) -> bool
        ensures { result ≡ is_idle (state_of self.now) n }
    {
        self.table.is_idle(n)
    }

    /// How many children of a node a transaction holds; `None` if it does not live or does not hold
    /// the node. Allocates no memory.
    pub fn children(&self, t: TxnId, n: NodeId) -> Option<u32>
        ensures { result ≡ (if lives (state_of self.now) t && holds (members (state_of self.now) n) t.slot
            then Some (held_children (state_of self.now) t.slot n) else None) }
    {
        self.table.children(t, n)
    }
}
