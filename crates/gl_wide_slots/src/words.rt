//! Bits of words.

ghost use Rattle.std.specs.Prelude.{
  ◌≡◌,
  ℕ,
  ◌<◌,
  ◌≤◌,
  ◌^◌,
  ◌==◌,
  ◌&&◌,
  ◌||◌,
  IfSome,
  IfNone,
  not,
  true,
  false,
  length,
  get_or,
  bit_and,
  bit_or,
};
ghost use Rattle.std.specs.Int.{bit_not, w64};
ghost use Rattle.gl_wide_slots.specs.Limit.{most_slots, most_words};
ghost use Rattle.gl_wide_slots.specs.Words.{IsFirstWord, in_words};

use crate::slots::{Slot, WORDS};

/// Whether the bit of `slot` is set; none from `SLOTS` on is.
pub(crate) fn has(words: &[u64; WORDS], slot: Slot) -> bool
    ensures { result ≡ in_words words.now slot }
{
    let place = slot as usize / 64;
    place < WORDS && words[place] & (1 << (slot % 64)) != 0
}

/// Sets the bit of `slot`.
pub(crate) fn put(words: &mut [u64; WORDS], slot: Slot)
    requires { slot < most_slots }
    ensures { (u : ℕ) → in_words words.new u ≡ (in_words words.old u || (u == slot)) }
{
    words[slot as usize / 64] |= 1 << (slot % 64);
}

/// Clears the bit of `slot`.
pub(crate) fn clear(words: &mut [u64; WORDS], slot: Slot)
    ensures left { (u : ℕ) → in_words words.new u ≡ (in_words words.old u && not (u == slot)) }
    ensures within { in_words words.old slot ≡ true → slot < most_slots }
{
    let place = slot as usize / 64;
    if place < WORDS {
        words[place] &= !(1 << (slot % 64));
    }
}

/// Adds the bits of other words.
pub(crate) fn add(words: &mut [u64; WORDS], others: &[u64; WORDS])
    ensures { (w : ℕ) → get_or words.new w 0 ≡ bit_or (get_or words.old w 0) (get_or others.now w 0) }
{
    for place in 0..WORDS {
        words[place] |= others[place];
    }
}

/// Keeps the bits that other words have too.
pub(crate) fn keep(words: &mut [u64; WORDS], others: &[u64; WORDS])
    ensures { (w : ℕ) → get_or words.new w 0 ≡ bit_and (get_or words.old w 0) (get_or others.now w 0) }
{
    for place in 0..WORDS {
        words[place] &= others[place];
    }
}

/// Flips each bit.
pub(crate) fn turn(words: &mut [u64; WORDS])
    ensures turned { (w : ℕ) → w < most_words → get_or words.new w 0 ≡ bit_not w64 (get_or words.old w 0) }
    ensures fits { (w : ℕ) → w < most_words → get_or words.old w 0 < 2 ^ 64 }
    ensures past { (w : ℕ) → most_words ≤ w → get_or words.new w 0 ≡ 0 }
{
    for place in 0..WORDS {
        words[place] = !words[place];
    }
}

/// No bit from `SLOTS` on is set.
pub(crate) fn above(words: &[u64; WORDS])
    ensures { (u : ℕ) → most_slots ≤ u → in_words words.now u ≡ false }
{
    let _words = *words;
}

/// There are `WORDS` words, and each is below 2^64.
pub(crate) fn words_law(words: &[u64; WORDS])
    ensures all { length words.now ≡ most_words }
    ensures fits { (w : ℕ) → w < most_words → get_or words.now w 0 < 2 ^ 64 }
{
    for place in 0..WORDS {
        let _word = words[place];
    }
}

/// The place of the first word with a bit.
pub(crate) fn first(words: &[u64; WORDS]) -> Option<usize>
    ensures some { IfSome result (IsFirstWord words.now) }
    ensures none { IfNone result ((w : ℕ) → get_or words.now w 0 ≡ 0) }
{
    for place in 0..WORDS {
        if words[place] != 0 {
            return Some(place);
        }
    }
    None
}
