//! Who waits for whom in several managers, on one board.

ghost use Rattle.std.specs.Prelude.{◌≡◌, ℕ, ◌||◌};
ghost use Rattle.gl_slots.specs.Slots.{has_bit};
ghost use Rattle.gl_waits.specs.Boards.{board_edge};

use gl_slots::{Bits, SLOTS, Slots};
use gl_waits::Board;

/// Adds to a board who waits for whom on another: then on it one slot waits for another exactly if it
/// did before, or does on the added one. The ages and the count of commands stay.
pub fn join_board(joined: &mut Board, added: &Board)
    ensures waits { (t u : ℕ) → board_edge joined.new t u ≡ (board_edge joined.old t u || board_edge added.now t u) }
    ensures ages { joined.new.ages ≡ joined.old.ages }
    ensures epoch { joined.new.epoch ≡ joined.old.epoch }
{
    'rows: for slot in 0..SLOTS {
        joined.rows[slot] = union(joined.rows[slot], added.rows[slot]);
    }
}

/// The slots of either set.
fn union(one: Bits, other: Bits) -> Bits
    ensures { (u : ℕ) → has_bit result u ≡ (has_bit one u || has_bit other u) }
{
    Slots::from_bits(one).union(Slots::from_bits(other)).bits()
}
