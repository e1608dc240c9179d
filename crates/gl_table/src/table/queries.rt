//! Queries, which change nothing.

ghost use Rattle.std.specs.Prelude.{◌≡◌, ◌&&◌, IfOk, None, Some, if◌then◌else◌, not};
ghost use Rattle.std.specs.List.{list_any};
ghost use Rattle.gl_graph.specs.Graph.{is_child, nodes};
ghost use Rattle.gl_graph.specs.Refusals.{Refuses, first_refusal};
ghost use Rattle.gl_header.specs.Header.{group_of, holds, is_empty};
ghost use Rattle.gl_model.specs.Calls.{answered, group_tests, held_children, held_tests, is_idle};
ghost use Rattle.gl_table.specs.Table.{board_of, state_of};
ghost use Rattle.gl_model.specs.Lawful.{effective};
ghost use Rattle.gl_model.specs.State.{is_write, lives, members};

use super::Table;
use crate::boards::board;
use crate::effective::effective;
use gl_model::{Effect, TxnId};
use gl_modes::{Mode, NodeId, Refusal};
use gl_waits::Board;

impl Table {
    /// The mode in which a transaction holds a node, `NL` for none. Refused, in this order, with
    /// `NoSuchTxn` and `NoSuchNode`.
    pub fn held(&self, t: TxnId, n: NodeId) -> Result<Mode, Refusal>
        ensures { result ≡ answered (first_refusal (held_tests (state_of self.now) t n)) ((state_of self.now).held t.slot n) }
    {
        self.check_txn(t)?;
        self.check_node(n)?;
        Ok(self.locks.mode(t.slot, n))
    }

    /// The group mode of a node, which is the supremum of the modes in which it is held. Refused
    /// with `NoSuchNode`.
    pub fn group(&self, n: NodeId) -> Result<Mode, Refusal>
        ensures { result ≡ answered (first_refusal (group_tests (state_of self.now) n)) (group_of (state_of self.now).most (members (state_of self.now) n)) }
    {
        self.check_node(n)?;
        Ok(self.locks.ledger.headers.group(n))
    }

    /// The mode in which a transaction holds a node, `NL` for none; `None` if it does not live.
    pub fn mode(&self, t: TxnId, n: NodeId) -> Option<Mode>
        ensures { result ≡ (if lives (state_of self.now) t then Some ((state_of self.now).held t.slot n) else None) }
    {
        match self.status(t) {
            Some(_) => Some(self.locks.mode(t.slot, n)),
            None => None,
        }
    }

    /// Whether no transaction holds the node or waits for it.
    pub fn is_idle(&self, n: NodeId) -> bool
        ensures { result ≡ is_idle (state_of self.now) n }
    {
        self.locks.ledger.headers.law();
        self.locks.ledger.headers.is_idle(n)
    }

    /// Whether a transaction waits for the node.
    pub fn is_awaited(&self, n: NodeId) -> bool
        ensures { result ≡ not (is_empty ((state_of self.now).queue n)) }
    {
        !self.locks.ledger.headers.queue(n).is_empty()
    }

    /// How many children of a node a transaction holds; `None` if it does not live or does not hold
    /// the node.
    pub fn children(&self, t: TxnId, n: NodeId) -> Option<u32>
        ensures { result ≡ (if lives (state_of self.now) t && holds (members (state_of self.now) n) t.slot
            then Some (held_children (state_of self.now) t.slot n) else None) }
    {
        match self.status(t) {
            Some(_) => self.locks.children(t.slot, n),
            None => None,
        }
    }

    /// Whether a transaction holds some child of a node in `IX`, `SIX` or `X`; `false` if it does
    /// not live. Allocates no memory.
    pub fn writes_below(&self, t: TxnId, n: NodeId) -> bool
        ensures { result ≡ (lives (state_of self.now) t
            && list_any (λ c. is_child (state_of self.now).graph n c && is_write ((state_of self.now).held t.slot c)) (nodes (state_of self.now).graph)) }
    {
        match self.status(t) {
            Some(_) => self.locks.writes_below(t.slot, n),
            None => false,
        }
    }

    /// What a transaction may do to a node by all its locks together: each ancestor is looked at
    /// once for each of the two modes. Refused, in this order, with `NoSuchTxn`, `NoSuchNode` and
    /// `NoMemory`.
    pub fn effective(&self, t: TxnId, n: NodeId) -> Result<Effect, Refusal>
        ensures effect { IfOk result (λ effect. effect ≡ effective (state_of self.now) t.slot n) }
        ensures refuses { Refuses (first_refusal (held_tests (state_of self.now) t n)) result }
    {
        self.check_txn(t)?;
        self.check_node(n)?;
        match self.locks.effective(t.slot, n) {
            Ok(effect) => Ok(effect),
            Err(_) => Err(Refusal::NoMemory),
        }
    }

    /// The waits-for snapshot of this moment, under this epoch.
    pub fn board(&self, epoch: u64) -> Board
        ensures { result ≡ board_of (record (state_of self.now) { accepted = epoch }) }
    {
        board(
            &self.locks.ledger.headers,
            &self.locks.ledger.txn_entries,
            epoch,
        )
    }
}
