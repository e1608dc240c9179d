//! The choice of a victim.

ghost use Rattle.std.specs.Prelude.{◌≡◌, ℕ, ◌<◌, ◌↔◌, IsNone, IfSome, IsTrue, true};
ghost use Rattle.std.specs.Option.{ForSome, option_map_or};
ghost use Rattle.gl_slots.specs.Slots.{HasNoBit, HasNoSlot, has_bit, has_slot};
ghost use Rattle.gl_waits.specs.Boards.{age_in};
ghost use Rattle.gl_waits.specs.Waits.{IsLowestLatest, IsLowestYoungest, is_earlier};

use crate::ages::Ages;
use crate::board::Board;
use gl_slots::{Bits, SLOTS, Slots};

/// The youngest of a set of slots: the one with the greatest age, of equal ages the lowest. `None`
/// for the empty set.
pub fn youngest(board: &Board, set: Bits) -> Option<usize>
    ensures none { IsNone result ↔ HasNoBit set }
    ensures some { IfSome result (IsLowestYoungest (λ u. IsTrue (has_bit set u)) (age_in board.now)) }
    ensures low { IfSome result (λ v. v < SLOTS) }
{
    latest_of(&board.ages, Slots::from_bits(set))
}

/// The latest of a set of slots: the one with the greatest `since`, of several such the youngest, of
/// equal ages the lowest. `None` for the empty set.
pub fn latest_of<A: Ages>(ages: &A, set: Slots) -> Option<usize>
    ensures none { IsNone result ↔ HasNoSlot set }
    ensures some { IfSome result (IsLowestLatest (λ u. IsTrue (has_slot set u)) (A.since_of ages.now) (A.age_of ages.now)) }
    ensures low { IfSome result (λ v. v < SLOTS) }
{
    let mut chosen: Option<usize> = None;
    let mut left = set;
    while let Some(slot) = left.take_lowest() {
        if is_later(ages, slot as usize, chosen) {
            chosen = Some(slot as usize);
        }
    }
    chosen
}

/// Whether `slot` is later than the one chosen so far, if there is one.
fn is_later<A: Ages>(ages: &A, slot: usize, chosen: Option<usize>) -> bool
    requires low { slot < SLOTS }
    requires chosen_low { ForSome chosen (λ other. other < SLOTS) }
    ensures { result ≡
        option_map_or (λ other. is_earlier (A.since_of ages.now) (A.age_of ages.now) other slot) chosen true }
{
    match chosen {
        Some(other) => { (ages.since(other), ages.age(other)) < (ages.since(slot), ages.age(slot)) }
        None => true,
    }
}
