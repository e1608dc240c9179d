//! The boxes of slots: the last notice to each transaction, the outcome of its wait, and which slots are woken. A wait
//! ends only by a command that tells its transaction, or that cancels or aborts it by name; so no other sleeper needs to
//! check.

ghost use Rattle.gl_slots.specs.Limit.{most_slots};
ghost use Rattle.std.specs.Prelude.{◌≡◌, ◌<◌, ◌||◌, ◌==◌, ℕ, [], true, false, None, Some, Ok, slice_set, replicate};
ghost use Rattle.std.specs.List.{list_any};
ghost use Rattle.gl_slots.specs.Slots.{has_slot};
ghost use Rattle.gl_modes.specs.Modes.{is_at_least};
ghost use Rattle.gl_model.specs.State.{is_waiting_at, lives};
ghost use Rattle.gl_catalog.specs.Manager.{state_of};
ghost use Rattle.gl_wakes.specs.Boxes.{Delivers, Puts, box_at, emptied, named, verdict_of};
ghost use Rattle.gl_wakes.specs.Notices.{RisingTo};
ghost use Rattle.gl_wakes.specs.Wakes.{WakesEnded, names_slot};
ghost use Rattle.gl_wakes.specs.declared.grant.Grant.{Grant};

use crate::grant::{Grant, Stop};
use gl_catalog::{Command, Manager};
use gl_model::{Notice, Told, TxnId};
use gl_modes::{Mode, NodeId, Refusal, covers};
use gl_slots::{SLOTS, Slots};
use std::marker::Model;

/// A slot's last notice.
pub type Slot = Option<(TxnId, Notice)>;

/// A box for each slot, with the slot's last notice. Contracts see the list of these notices.
#[derive(Drop)]
pub struct Boxes {
    slots: [Slot; SLOTS],
}

impl Model for Boxes {
    ghost use Rattle.std.specs.Prelude.{List};
    ghost use Rattle.gl_wakes.specs.Boxes.{Slot};

    ghost Value = { List Slot };

    ghost view = { λ b. b.slots };
}

impl Boxes {
    /// Empty boxes.
    pub fn new() -> Boxes
        ensures { result ≡ replicate most_slots None }
    {
        Boxes {
            slots: [None; SLOTS],
        }
    }

    /// Puts the notices of an accepted command into their slots' boxes, and answers the slots whose wait
    /// it may have ended: those that it tells, and the one that it cancels or aborts by name. A lock
    /// empties its own slot's box, so that a later notice there is the lock's own verdict.
    pub fn deliver(&mut self, command: &Command<'_>, told: &Told) -> Slots
        requires { RisingTo 0 told.now.items most_slots }
        ensures puts { Puts self.old command.now told.now.items self.new }
        ensures none { told.now.items ≡ [] → self.new ≡ emptied command.now self.old }
        ensures slots { (u : ℕ) → u < most_slots → has_slot result u ≡ (names_slot command.now u || list_any (λ x. x.0.slot == u) told.now.items) }
        ensures ended { WakesEnded command.now told.now.items result }
    {
        let ended = put_each(&mut self.slots, command, told.as_slice());
        if let Command::Lock { txn, .. } = command {
            empty_box(&mut self.slots, txn.slot);
        }
        ended
    }

    /// The verdict on the transaction's request for this node, if there is one. The first that
    /// applies: refused with `NoSuchTxn` if the transaction does not live; none yet if it waits on the
    /// node; the notice in its slot's box (a grant only if it is for this node, and the transaction
    /// holds a mode there that covers the requested one); else refused with `NotWaiting`.
    pub fn verdict(
        &self,
        manager: &Manager,
        txn: TxnId,
        node: NodeId,
        mode: Mode,
    ) -> Option<Result<Grant, Stop>>
        ensures verdict { result ≡ verdict_of (state_of manager.now) self.now txn node mode }
        ensures waits { lives (state_of manager.now) txn ≡ true → is_waiting_at (state_of manager.now) txn.slot node ≡ true → result ≡ None }
        ensures grant { (x : Grant) → result ≡ Some (Ok x) → (x.txn ≡ txn) × (x.node ≡ node) × (x.mode ≡ (state_of manager.now).held txn.slot node)
            × (is_at_least x.mode mode ≡ true) × (is_waiting_at (state_of manager.now) txn.slot node ≡ false) }
    {
        let Some(held) = manager.mode_on(txn, node) else {
            return Some(Err(Stop::Refused(Refusal::NoSuchTxn)));
        };
        if waits_on(manager, txn, node) {
            return None;
        }
        Some(match notice_for(&self.slots, txn) {
            Some(Notice::Victim) => Err(Stop::Victim),
            Some(Notice::Moved) => Err(Stop::Moved),
            Some(Notice::Gone) => Err(Stop::Gone),
            Some(Notice::Granted(at, _)) => {
                if at.key == node.key && at.birth == node.birth && covers(held, mode) {
                    Ok(Grant {
                        txn,
                        node,
                        mode: held,
                    })
                } else {
                    Err(Stop::Refused(Refusal::NotWaiting))
                }
            }
            None => Err(Stop::Refused(Refusal::NotWaiting)),
        })
    }
}

/// Puts each notice into its slot's box. Answers the slots whose wait the command may have ended.
fn put_each(boxes: &mut [Slot; SLOTS], command: &Command<'_>, told: &[(TxnId, Notice)]) -> Slots
    requires { RisingTo 0 told.now most_slots }
    ensures told { Delivers boxes.old told.now boxes.new }
    ensures none { told.now ≡ [] → boxes.new ≡ boxes.old }
    ensures slots { (u : ℕ) → u < most_slots → has_slot result u ≡ (names_slot command.now u || list_any (λ x. x.0.slot == u) told.now) }
    ensures ended { WakesEnded command.now told.now result }
{
    let mut ended = named_by(command);
    for (txn, notice) in told {
        boxes[txn.slot as usize] = Some((*txn, *notice));
        ended.insert(txn.slot);
    }
    ended
}

/// The slot whose transaction a cancel or an abort names; none for any other command.
fn named_by(command: &Command<'_>) -> Slots
    ensures { (u : ℕ) → u < most_slots → has_slot result u ≡ names_slot command.now u }
{
    let mut named = Slots::empty();
    if let Command::Cancel { txn } | Command::Abort { txn } = command {
        if (txn.slot as usize) < SLOTS {
            named.insert(txn.slot);
        }
    }
    named
}

/// Empties the slot's box, if there is one.
fn empty_box(boxes: &mut [Slot; SLOTS], slot: gl_slots::Slot)
    ensures { boxes.new ≡ slice_set boxes.old slot None }
{
    if (slot as usize) < SLOTS {
        boxes[slot as usize] = None;
    }
}

/// The notice for the transaction in its slot's box.
fn notice_for(boxes: &[Slot; SLOTS], txn: TxnId) -> Option<Notice>
    ensures { result ≡ named txn (box_at boxes.now txn.slot) }
{
    match boxes.get(txn.slot as usize) {
        Some(Some((to, notice))) => {
            if to.slot == txn.slot && to.age == txn.age {
                Some(*notice)
            } else {
                None
            }
        }
        _ => None,
    }
}

/// Whether a living transaction waits on the node.
fn waits_on(manager: &Manager, txn: TxnId, node: NodeId) -> bool
    requires { lives (state_of manager.now) txn ≡ true }
    ensures { result ≡ is_waiting_at (state_of manager.now) txn.slot node }
{
    match manager.waiting(txn) {
        Some((at, _)) => at.key == node.key && at.birth == node.birth,
        None => false,
    }
}
