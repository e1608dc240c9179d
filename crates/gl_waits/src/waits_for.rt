//! A source of waits.

use crate::board::Board;
use gl_slots::{SLOTS, Slots};

/// Who waits for whom, slot by slot. By the contract of `row`, a slot waits only for slots below
/// `SLOTS`.
pub trait WaitsFor {
    ghost use Rattle.std.specs.Prelude.{◌≡◌, ℕ, ◌<◌, Bool};
    ghost use Rattle.gl_slots.specs.Slots.{has_slot};

    /// Whether the first slot waits for the second.
    ghost edge: { Self → ℕ → ℕ → Bool };

    /// The slots that `slot` waits for.
    fn row(&self, slot: usize) -> Slots
        requires { slot < SLOTS }
        ensures { (u : ℕ) → has_slot result u ≡ edge self.now slot u };
}

/// Rows by slot.
impl WaitsFor for [Slots; SLOTS] {
    ghost use Rattle.gl_waits.specs.Boards.{row_edge};

    ghost edge = { row_edge };

    fn row(&self, slot: usize) -> Slots {
        self[slot]
    }
}

impl WaitsFor for Board {
    ghost use Rattle.gl_waits.specs.Boards.{board_edge};

    ghost edge = { board_edge };

    fn row(&self, slot: usize) -> Slots {
        Slots::from_bits(self.rows[slot])
    }
}
