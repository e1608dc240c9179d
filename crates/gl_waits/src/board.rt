//! The waits-for snapshot.

ghost use Rattle.std.specs.Prelude.{◌≡◌, ℕ, ◌↔◌, IsTrue, false};
ghost use Rattle.gl_waits.specs.Boards.{ShowsNobody, idle_board};

use gl_slots::{Bits, NO_BITS, SLOTS, Slots};

/// A waits-for snapshot: who waits for whom at one moment.
#[derive(Clone, Copy, PartialEq, Eq, Debug)]
pub struct Board {
    /// How many commands had been accepted by then.
    pub epoch: u64,
    /// By slot, the age of its transaction: its number in the order of begins. The youngest has the
    /// greatest. A free slot has age 0.
    pub ages: [u64; SLOTS],
    /// Bit `u` of `rows[s]`: slot `s` waits for slot `u`. A free slot has an empty row.
    pub rows: [Bits; SLOTS],
}

impl Board {
    /// The snapshot without transactions.
    pub fn idle(epoch: u64) -> Self
        ensures { result ≡ idle_board epoch }
    {
        Board {
            epoch,
            ages: [0; SLOTS],
            rows: [NO_BITS; SLOTS],
        }
    }

    /// Whether no slot waits.
    pub fn shows_nobody(&self) -> bool
        ensures { IsTrue result ↔ ShowsNobody self.now }
    {
        for row in &self.rows {
            if !Slots::from_bits(*row).is_empty() {
                return false;
            }
        }
        true
    }
}
