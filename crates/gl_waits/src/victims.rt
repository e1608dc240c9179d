//! The candidates for victims.

ghost use Rattle.std.specs.Prelude.{ℕ, ◌<◌, ◌↔◌, IsNone, IfSome};
ghost use Rattle.gl_waits.specs.Waits.{IsLowestLatest, IsOnNoCycle};
ghost use Rattle.gl_waits.specs.Victims.{IsCandidate};

use crate::ages::Ages;
use crate::cycle::on_cycle_in;
use crate::freeing::freeing_victim;
use crate::victim::latest_of;
use crate::waits_for::WaitsFor;
use gl_slots::SLOTS;

/// The candidates of which the latest is condemned, until a slot is on no cycle: all that are on a
/// cycle with it, of which more than one may be needed; or only those of which one is always enough.
/// The slot itself is a candidate by both.
#[derive(Clone, Copy, PartialEq, Eq, Debug)]
pub enum Victims {
    Youngest,
    Fewest,
}

/// The next victim for `slot`, by a choice of candidates: the latest of them, as `latest_of` chooses;
/// `None` if `slot` is on no cycle.
pub fn victim_for<T: WaitsFor, A: Ages>(
    waits: &T,
    ages: &A,
    slot: usize,
    victims: Victims,
) -> Option<usize>
    requires { slot < SLOTS }
    ensures none { IsNone result ↔ IsOnNoCycle (T.edge waits.now) slot }
    ensures some { IfSome result
        (IsLowestLatest (IsCandidate victims (T.edge waits.now) slot) (A.since_of ages.now) (A.age_of ages.now)) }
    ensures low { IfSome result (λ v. v < SLOTS) }
{
    match victims {
        Victims::Youngest => latest_of(ages, on_cycle_in(waits, slot)),
        Victims::Fewest => freeing_victim(waits, ages, slot),
    }
}
