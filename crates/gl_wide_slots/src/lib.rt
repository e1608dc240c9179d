//! Slots, one for each living transaction, and sets of them. Only this crate knows how many slots
//! there are, and how wide a set is: here 1,024, as the bits of words.
#![tactic(auto)]

mod slots;
mod words;

pub use slots::{Bits, Iter, NO_BITS, SLOTS, Slot, Slots, WORDS, from_words, to_words};
