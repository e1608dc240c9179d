//! The slots that are deadlocked with a slot.

ghost use Rattle.std.specs.Prelude.{ℕ, ◌<◌, ◌↔◌, IsTrue};
ghost use Rattle.gl_slots.specs.Slots.{has_bit, has_slot};
ghost use Rattle.gl_waits.specs.Boards.{board_edge};
ghost use Rattle.gl_waits.specs.Waits.{IsOnCycleOf, Reaches, waits_of};

use crate::board::Board;
use crate::reach::{columns, reached_from};
use crate::waits_for::WaitsFor;
use gl_slots::{Bits, SLOTS, Slot, Slots};

/// The slots on a cycle with `slot`: those that it reaches by one or more waits and that reach it. A
/// slot that waits for itself is on a cycle with itself.
pub fn on_cycle(board: &Board, slot: usize) -> Bits
    requires { slot < SLOTS }
    ensures { (u : ℕ) → IsTrue (has_bit result u) ↔ IsOnCycleOf (board_edge board.now) slot u }
{
    on_cycle_in(board, slot).bits()
}

/// As `on_cycle`, for any source of waits.
///
/// Reads the row of `slot` and of each slot that it reaches once, and no other. If `slot` is on a
/// cycle, these rows are read once more, slot by slot, into an array of columns.
pub fn on_cycle_in<T: WaitsFor>(waits: &T, slot: usize) -> Slots
    requires { slot < SLOTS }
    ensures { (u : ℕ) → IsTrue (has_slot result u) ↔ IsOnCycleOf (T.edge waits.now) slot u }
{
    let reached = reached_from(waits, slot);
    if reached.contains(slot as Slot) {
        reached.intersection(reaching(waits, reached, slot))
    } else {
        Slots::empty()
    }
}

/// The slots that reach `slot` by the waits of those in `within` alone, whose rows are read once each.
fn reaching<T: WaitsFor>(waits: &T, within: Slots, slot: usize) -> Slots
    requires { slot < SLOTS }
    ensures { (u : ℕ) → IsTrue (has_slot result u)
        ↔ Reaches (waits_of (has_slot within) (T.edge waits.now)) u slot }
{
    reached_from(&columns(waits, within), slot)
}
