//! The parties to waits.

ghost use Rattle.gl_slots.specs.Limit.{most_slots};
ghost use Rattle.std.specs.Prelude.{◌≡◌, ◌<◌, ℕ, true};
ghost use Rattle.gl_modes.specs.declared.node.NodeId.{NodeId as ANodeId};
ghost use Rattle.gl_slots.specs.Slots.{has_slot};
ghost use Rattle.gl_header.specs.Header.{holds};
ghost use Rattle.gl_model.specs.State.{is_waiting_at, members};
ghost use Rattle.gl_catalog.specs.Manager.{IsLawfulManager, state_of};
ghost use Rattle.gl_window.specs.Boards.{HasParties};

use gl_catalog::Manager;
use gl_slots::{Slot, Slots};
use gl_table::Status;

/// All parties to waits: every waiter, and every holder of a node with a waiter.
pub fn parties_of(manager: &Manager) -> Slots
    ensures { HasParties (state_of manager.now) result }
{
    manager.law();
    let mut parties = Slots::empty();
    for slot in 0..manager.most() {
        parties = parties.union(parties_to(manager, slot as Slot));
    }
    parties
}

/// All parties to a slot's wait: itself, and the holders of the node for which it waits; none if it
/// does not wait.
fn parties_to(manager: &Manager, slot: Slot) -> Slots
    requires within { slot < most_slots }
    requires law { IsLawfulManager manager.now }
    ensures { (n : ANodeId) → is_waiting_at (state_of manager.now) slot n ≡ true → (has_slot result slot ≡ true)
        × ((t : ℕ) → holds (members (state_of manager.now) n) t ≡ true → has_slot result t ≡ true) }
{
    let Some((_, Status::Waiting { node, .. })) = manager.living(slot) else {
        return Slots::empty();
    };
    let mut parties = manager.holders(node).unwrap_or(Slots::empty());
    parties.insert(slot);
    parties
}
