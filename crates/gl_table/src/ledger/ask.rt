//! Requests for a node: granted at once, or queued.

ghost use Rattle.std.specs.Prelude.{◌&&◌, ◌<◌, ◌≡◌, IfErr, IfOk, IsOk, OnErr, OnOk, false, length, not, true};
ghost use Rattle.gl_header.specs.Header.{holds};
ghost use Rattle.gl_header.specs.Headers.{held_of, is_granted_at};
ghost use Rattle.gl_model.specs.Calls.{enters_at};
ghost use Rattle.gl_model.specs.State.{members};
ghost use Rattle.gl_modes.specs.declared.mode.Mode.TheVariants.{NL};
ghost use Rattle.gl_modes.specs.declared.refusal.Refusal.{Refusal as ARefusal};
ghost use Rattle.gl_modes.specs.Modes.{same_mode};
ghost use Rattle.gl_table.specs.inside.Ledger.{AreExact, KeepsLocks, state_in};
ghost use Rattle.gl_table.specs.inside.Slots.{HasRoomAt, KeepsLists, ListsKeepPlaces};
ghost use Rattle.gl_table.specs.inside.Steps.{CanAsk, HasAsked, HasGrant, MayAct};

use crate::ledger::Ledger;
use crate::txn_entry::TxnEntry;
use gl_graph::Graph;
use gl_header::Asked;
use gl_lock_lists::LockList;
use gl_model::{Locked, Status};
use gl_modes::{Mode, NodeId, Refusal, covers, sup};
use gl_slots::Slot;
use std::alloc::AllocError;

/// Makes room in the list of a slot for one more node, and for the counts of its parents.
#[inline]
pub(crate) fn make_room(lists: &mut Vec<LockList>, slot: Slot) -> Result<(), AllocError>
    requires { slot < length lists.old.items }
    ensures kept { KeepsLists lists.old.items lists.new.items }
    ensures ok { OnOk result (HasRoomAt lists.new.items slot) }
{
    lists[slot as usize].make_room()
}

impl Ledger {
    /// Makes room in the list of a slot, which holds the node in the mode `held`, for a request. A
    /// conversion that is granted at once needs none, so lack of memory does not refuse it.
    #[inline]
    fn make_room_to_ask(
        &mut self,
        slot: Slot,
        node: NodeId,
        held: Mode,
        mode: Mode,
    ) -> Result<(), AllocError>
        requires listed { slot < length self.old.lists.items }
        requires held { held ≡ held_of self.old.headers.entries slot node }
        ensures rest { self.new ≡ record self.old { lists = self.new.lists } }
        ensures kept { KeepsLists self.old.lists.items self.new.lists.items }
        ensures room { OnOk result ((not (same_mode held NL) && is_granted_at self.old.headers.entries slot node mode) ≡ false
            → HasRoomAt self.new.lists.items slot) }
        ensures at_once { (not (same_mode held NL) && is_granted_at self.old.headers.entries slot node mode) ≡ true → IsOk result }
    {
        match make_room(&mut self.lists, slot) {
            Ok(()) => Ok(()),
            Err(no_memory) => {
                if held != Mode::NL && self.headers.would_grant(slot, node, held, mode) {
                    Ok(())
                } else {
                    Err(no_memory)
                }
            }
        }
    }

    /// Requests a mode on a node that has these parents and that the slot holds in the mode `held`:
    /// the supremum of the held and the requested mode is granted at once, or the slot waits for it
    /// in its place. The room for a later grant is made here. The only refusal is `NoMemory`, never
    /// for a member that is granted at once.
    #[inline]
    pub(crate) fn ask(
        &mut self,
        graph: &Graph,
        slot: Slot,
        node: NodeId,
        mode: Mode,
        held: Mode,
        parents: &[NodeId],
    ) -> Result<Asked, Refusal>
        requires act { MayAct graph.now self.old slot }
        requires can { CanAsk graph.now self.old slot node mode held parents.now }
        ensures exact { AreExact graph.now self.new }
        ensures asked { IfOk result (λ asked. HasAsked (state_in graph.now self.old) (state_in graph.now self.new) slot node mode asked) }
        ensures err { OnErr result (KeepsLocks self.old self.new) }
        ensures orders { ListsKeepPlaces self.old.lists.items self.new.lists.items }
        ensures no_memory { IfErr result (λ refusal. refusal ≡ ARefusal.NoMemory) }
        ensures held { holds (members (state_in graph.now self.old) node) slot ≡ true
            → enters_at (state_in graph.now self.old) slot node mode ≡ true → IsOk result }
    {
        graph.law();
        self.headers.law();
        let is_member = held != Mode::NL;
        if is_member && covers(held, mode) {
            return Ok(Asked::Granted(held)); // Nothing changes.
        }
        let Ok(()) = self.make_room_to_ask(slot, node, held, mode) else {
            return Err(Refusal::NoMemory);
        };
        let asked = self.headers.ask(slot, node, held, mode)?;
        let list = &mut self.lists[slot as usize];
        match asked {
            Asked::Granted(wanted) if is_member => list.set_mode(node, wanted),
            Asked::Granted(wanted) => {
                list.enter(node, wanted);
                list.count_up(parents);
            }
            Asked::Waiting => {
                let wanted = sup(held, mode);
                if !is_member {
                    list.enter(node, Mode::NL);
                }
                self.txn_entries
                    .set_status(slot, Status::Waiting { node, wanted });
            }
        }
        Ok(asked)
    }

    /// Grants a mode that can be granted at once, on a node that has these parents and that the
    /// slot holds in the mode `held`: the supremum of the held and the requested mode. The only
    /// refusal is `NoMemory`, never for a member.
    pub(crate) fn grant(
        &mut self,
        graph: &Graph,
        slot: Slot,
        node: NodeId,
        mode: Mode,
        held: Mode,
        parents: &[NodeId],
    ) -> Result<Mode, Refusal>
        requires act { MayAct graph.now self.old slot }
        requires can { CanAsk graph.now self.old slot node mode held parents.now }
        requires enters { enters_at (state_in graph.now self.old) slot node mode ≡ true }
        ensures exact { AreExact graph.now self.new }
        ensures granted { IfOk result (λ given. HasGrant (state_in graph.now self.old) (state_in graph.now self.new) slot node mode given) }
        ensures err { OnErr result (KeepsLocks self.old self.new) }
        ensures orders { ListsKeepPlaces self.old.lists.items self.new.lists.items }
        ensures no_memory { IfErr result (λ refusal. refusal ≡ ARefusal.NoMemory) }
        ensures held { holds (members (state_in graph.now self.old) node) slot ≡ true → IsOk result }
    {
        match self.ask(graph, slot, node, mode, held, parents)? {
            Asked::Granted(wanted) => Ok(wanted),
            Asked::Waiting => unreachable!(),
        }
    }
}
