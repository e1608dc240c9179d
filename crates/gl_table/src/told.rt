//! Lists of notices, by rising slot.

ghost use Rattle.gl_slots.specs.Limit.{most_slots};
ghost use Rattle.std.specs.Prelude.{◌≡◌, ◌<◌, ◌==◌, ℕ, None, Some, if◌then◌else◌, nat_lt, true};
ghost use Rattle.std.specs.List.{prefix_len};
ghost use Rattle.gl_model.specs.Tellings.{IsBySlot, is_rising, notices_in};

use gl_model::{Notice, Told, TxnId};
use gl_slots::Slot;

/// Adds a notice in its place.
pub(crate) fn tell(told: &mut Told, t: TxnId, notice: Notice)
    requires by_slot { IsBySlot told.old.items }
    requires absent { notices_in told.old.items t.slot ≡ None }
    requires below { t.slot < most_slots }
    ensures by_slot { IsBySlot told.new.items }
    ensures notices { (u : ℕ) → notices_in told.new.items u ≡ (if u == t.slot then Some (t, notice) else notices_in told.old.items u) }
{
    let place = place_of(told.as_slice(), t.slot);
    told.insert(place, (t, notice));
}

/// How many notices are for slots below this one.
fn place_of(told: &[(TxnId, Notice)], slot: Slot) -> usize
    requires { is_rising told.now ≡ true }
    ensures { result ≡ prefix_len (λ x. nat_lt x.0.slot slot) told.now }
{
    told.partition_point(|x| x.0.slot < slot)
}
