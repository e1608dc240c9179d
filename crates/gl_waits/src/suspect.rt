//! All deadlocked slots.

ghost use Rattle.std.specs.Prelude.{◌≡◌, ℕ, ◌<◌, ◌↔◌, ◌&&◌, ◌||◌, IsTrue, true, false, get_or, length};
ghost use Rattle.gl_slots.specs.Slots.{HasNoSlot, has_bit, has_slot, no_slots};
ghost use Rattle.gl_waits.specs.Boards.{board_edge, row_edge};
ghost use Rattle.gl_waits.specs.Waits.{IsOnCycle, Reaches};

use crate::board::Board;
use crate::reach::empty_rows;
use gl_slots::{Bits, SLOTS, Slot, Slots};

/// The slots that are on a cycle with some slot: those whose `on_cycle` is not empty.
///
/// Reads each row once if nobody waits. Otherwise it needs a row operation for each pair of a slot and
/// a waiting slot, whatever they wait for.
pub fn suspects(board: &Board) -> Bits
    ensures { (s : ℕ) → IsTrue (has_bit result s) ↔ IsOnCycle (board_edge board.now) s }
{
    if board.shows_nobody() {
        Slots::empty().bits()
    } else {
        diagonal(&reaches_of_all(&rows_in(board))).bits()
    }
}

/// The rows of a snapshot, as sets.
fn rows_in(board: &Board) -> [Slots; SLOTS]
    ensures { (s u : ℕ) → row_edge result s u ≡ board_edge board.now s u }
{
    let mut rows = empty_rows();
    for slot in 0..SLOTS {
        rows[slot] = Slots::from_bits(board.rows[slot]);
    }
    rows
}

/// By slot, what it reaches by one or more waits.
fn reaches_of_all(rows: &[Slots; SLOTS]) -> [Slots; SLOTS]
    ensures { (s u : ℕ) → IsTrue (row_edge result s u) ↔ Reaches (row_edge rows.now) s u }
{
    let mut reaches = *rows;
    for middle in 0..SLOTS {
        pass_through(&mut reaches, middle);
    }
    reaches
}

/// Adds what `middle` reaches to each row that has `middle`.
fn pass_through(reaches: &mut [Slots; SLOTS], middle: usize)
    requires { middle < SLOTS }
    ensures { (s u : ℕ) → row_edge reaches.new s u ≡
        (row_edge reaches.old s u
        || (row_edge reaches.old s middle && row_edge reaches.old middle u)) }
{
    let beyond = reaches[middle];
    if beyond.is_empty() {
        return;
    }
    for slot in 0..SLOTS {
        let row = reaches[slot];
        if row.contains(middle as Slot) {
            reaches[slot] = row.union(beyond);
        }
    }
}

/// The slots that are in their own row.
fn diagonal(rows: &[Slots; SLOTS]) -> Slots
    ensures { (s : ℕ) → has_slot result s ≡ row_edge rows.now s s }
{
    let mut found = Slots::empty();
    for slot in 0..SLOTS {
        if rows[slot].contains(slot as Slot) {
            found.insert(slot as Slot);
        }
    }
    found
}
