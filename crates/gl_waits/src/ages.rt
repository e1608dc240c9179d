//! A source of transactions' ages and of their `since`.

use gl_slots::SLOTS;

/// The age and the `since` of each slot's transaction. `since` is the age, or for work that begins
/// again that of an earlier begin.
pub trait Ages {
    ghost use Rattle.std.specs.Prelude.{◌≡◌, ℕ, ◌<◌};

    /// The age in a slot. The youngest has the greatest.
    ghost age_of: { Self → ℕ → ℕ };

    /// The `since` in a slot. The latest has the greatest.
    ghost since_of: { Self → ℕ → ℕ };

    /// The age of the transaction in `slot`.
    fn age(&self, slot: usize) -> u64
        requires { slot < SLOTS }
        ensures { result ≡ age_of self.now slot };

    /// The `since` of the transaction in `slot`.
    fn since(&self, slot: usize) -> u64
        requires { slot < SLOTS }
        ensures { result ≡ since_of self.now slot };
}

/// Ages by slot; each `since` is the age.
impl Ages for [u64; SLOTS] {
    ghost use Rattle.std.specs.Prelude.{slice_index};

    ghost age_of = { slice_index };

    ghost since_of = { slice_index };

    fn age(&self, slot: usize) -> u64 {
        self[slot]
    }

    fn since(&self, slot: usize) -> u64 {
        self[slot]
    }
}
