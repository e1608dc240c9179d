//! Sets of slots.

ghost use Rattle.std.specs.Prelude.{
  ◌≡◌,
  ℕ,
  ◌<◌,
  ◌≤◌,
  ◌==◌,
  ◌&&◌,
  ◌||◌,
  ◌↔◌,
  IsTrue,
  IfSome,
  IfNone,
  not,
  true,
  false,
  ltb,
};
ghost use Rattle.std.specs.Iterator.{YieldsFirst, item_count};
ghost use Rattle.gl_wide_slots.specs.Limit.{most_slots};
ghost use Rattle.gl_wide_slots.specs.Slots.{
  HasNoSlot,
  IsLowest,
  bits_of,
  has_bit,
  has_slot,
  no_slots,
  number_of,
  slots_of,
  words_of,
};
ghost use Rattle.gl_wide_slots.specs.Words.{in_words};

use crate::words::{above, add, clear, first, has, keep, put, turn, words_law};

/// The number of slots: the most transactions that can live at once. Slots are the numbers below it.
pub const SLOTS: usize = 1024;

/// The number of 64-bit words of a set.
pub const WORDS: usize = SLOTS / 64;

/// A slot.
pub type Slot = u16;

/// A set of slots as snapshots show it: the set itself.
pub type Bits = Slots;

/// The empty set as snapshots show it.
pub const NO_BITS: Bits = Slots { words: [0; WORDS] };

/// A set that a snapshot shows, in words: bit `u % 64` of word `u / 64` is slot `u`.
pub fn to_words(bits: Bits) -> [u64; WORDS]
    ensures is { result ≡ words_of (has_bit bits) }
    ensures shows { (u : ℕ) → in_words result u ≡ has_bit bits u }
    ensures back { bits_of (in_words result) ≡ bits }
{
    words_law(&bits.words);
    bits.words
}

/// The set of these words, as snapshots show it.
pub fn from_words(words: [u64; WORDS]) -> Bits
    ensures is { result ≡ bits_of (in_words words) }
    ensures shows { (u : ℕ) → has_bit result u ≡ in_words words u }
{
    words_law(&words);
    Slots { words }
}

/// A set of slots.
#[derive(Clone, Copy, PartialEq, Eq, Debug, Default)]
pub struct Slots {
    words: [u64; WORDS],
}

impl Slots {
    /// The empty set.
    pub fn empty() -> Self
        ensures none { HasNoSlot result }
        ensures is { result ≡ no_slots }
    {
        Slots { words: [0; WORDS] }
    }

    /// The set of all slots.
    pub fn all() -> Self
        ensures { (u : ℕ) → has_slot result u ≡ ltb u most_slots }
    {
        Slots {
            words: [u64::MAX; WORDS],
        }
    }

    /// Whether the set is empty.
    pub fn is_empty(&self) -> bool
        ensures { IsTrue result ↔ HasNoSlot self.now }
    {
        first(&self.words).is_none()
    }

    /// Whether `slot` is in the set; no slot from `SLOTS` on is.
    pub fn contains(&self, slot: Slot) -> bool
        ensures { result ≡ has_slot self.now slot }
    {
        has(&self.words, slot)
    }

    /// Adds `slot`.
    pub fn insert(&mut self, slot: Slot)
        requires { slot < most_slots }
        ensures { (u : ℕ) → has_slot self.new u ≡ (has_slot self.old u || (u == slot)) }
    {
        put(&mut self.words, slot);
    }

    /// Removes `slot`.
    pub fn remove(&mut self, slot: Slot)
        ensures left { (u : ℕ) → has_slot self.new u ≡ (has_slot self.old u && not (u == slot)) }
        ensures fewer { has_slot self.old slot ≡ true → number_of self.new < number_of self.old }
    {
        clear(&mut self.words, slot);
    }

    /// The slots that are in either set.
    pub fn union(self, other: Self) -> Self
        ensures { (u : ℕ) → has_slot result u ≡ (has_slot self u || has_slot other u) }
    {
        let mut words = self.words;
        add(&mut words, &other.words);
        Slots { words }
    }

    /// The slots that are in both sets.
    pub fn intersection(self, other: Self) -> Self
        ensures both { (u : ℕ) → has_slot result u ≡ (has_slot self u && has_slot other u) }
        ensures no_more { number_of result ≤ number_of self }
    {
        let mut words = self.words;
        keep(&mut words, &other.words);
        Slots { words }
    }

    /// The slots that are not in the set.
    pub fn complement(self) -> Self
        ensures { (u : ℕ) → has_slot result u ≡ (ltb u most_slots && not (has_slot self u)) }
    {
        let mut words = self.words;
        turn(&mut words);
        Slots { words }
    }

    /// The set without `slot`.
    pub fn without(self, slot: Slot) -> Self
        ensures left { (u : ℕ) → has_slot result u ≡ (has_slot self u && not (u == slot)) }
        ensures fewer { has_slot self slot ≡ true → number_of result < number_of self }
    {
        let mut words = self.words;
        clear(&mut words, slot);
        Slots { words }
    }

    /// The lowest slot; `None` if the set is empty.
    pub fn lowest(&self) -> Option<Slot>
        ensures some { IfSome result (IsLowest self.now) }
        ensures none { IfNone result (HasNoSlot self.now) }
    {
        let place = first(&self.words)?;
        Some((place * 64) as Slot + self.words[place].trailing_zeros() as Slot)
    }

    /// No slot from `SLOTS` on is in a set.
    pub fn law(self)
        ensures { (u : ℕ) → most_slots ≤ u → has_slot self u ≡ false }
    {
        above(&self.words);
    }

    /// The set that a snapshot shows so.
    pub fn from_bits(bits: Bits) -> Self
        ensures { (u : ℕ) → has_slot result u ≡ has_bit bits u }
    {
        bits
    }

    /// The set as snapshots show it.
    pub fn bits(self) -> Bits
        ensures is { result ≡ bits_of (has_slot self) }
        ensures shows { (u : ℕ) → has_bit result u ≡ has_slot self u }
    {
        words_law(&self.words);
        self
    }

    /// Removes the lowest slot and returns it; `None` if the set is empty. Repeated calls return the
    /// slots in increasing order.
    pub fn take_lowest(&mut self) -> Option<Slot>
        ensures some { IfSome result (IsLowest self.old) }
        ensures left { IfSome result (λ slot. (u : ℕ) → has_slot self.new u ≡ (has_slot self.old u && not (u == slot))) }
        ensures fewer { IfSome result (λ slot. number_of self.new < number_of self.old) }
        ensures none { IfNone result (HasNoSlot self.old) }
        ensures none_left { IfNone result (self.new ≡ self.old) }
    {
        let lowest = self.lowest()?;
        self.remove(lowest);
        Some(lowest)
    }

    /// The slots in increasing order.
    pub fn iter(self) -> Iter
        ensures { slots_of result.left ≡ slots_of self }
    {
        Iter { left: self }
    }
}

/// The slots of a set in increasing order.
#[derive(Clone, Debug, Drop)]
pub struct Iter {
    left: Slots,
}

impl Iterator for Iter {
    type Item = Slot;

    ghost next_gives = { YieldsFirst (λ s. slots_of s.left) };

    ghost remaining = { item_count (λ s. slots_of s.left) };

    #[tactic(auto, using(crate::proofs::Steps::next_steps))]
    fn next(&mut self) -> Option<Slot> {
        self.left.take_lowest()
    }
}
