//! Bits of a number.

ghost use Rattle.std.specs.Prelude.{◌≡◌, ℕ, ◌<◌, ◌≤◌, ◌==◌, ◌&&◌, not, false, true, ltb};
ghost use Rattle.gl_slots.specs.Bits.{in_bits};
ghost use Rattle.gl_slots.specs.Slots.{bits_of};

use crate::slots::Slot;

/// Whether the bit of `slot` is set; none from 128 on is.
pub(crate) fn has(bits: u128, slot: Slot) -> bool
    ensures { result ≡ in_bits bits slot }
{
    slot < 128 && bits & (1 << slot) != 0
}

/// The bits without that of `slot`.
pub(crate) fn without(bits: u128, slot: Slot) -> u128
    ensures left { (u : ℕ) → in_bits result u ≡ (in_bits bits u && not (u == slot)) }
    ensures fewer { in_bits bits slot ≡ true → result < bits }
{
    if slot < 128 {
        bits & !(1 << slot)
    } else {
        bits
    }
}

/// The bits below 128 that are not set.
pub(crate) fn complement(bits: u128) -> u128
    ensures { (u : ℕ) → in_bits result u ≡ (ltb u 128 && not (in_bits bits u)) }
{
    !bits
}

/// No bit from 128 on is set.
pub(crate) fn above(bits: u128)
    ensures { (u : ℕ) → 128 ≤ u → in_bits bits u ≡ false }
{
    let _bits = bits;
}

/// The bits, unchanged: they are those of the set that has them.
pub(crate) fn shown(bits: u128) -> u128
    ensures is { result ≡ bits_of (in_bits bits) }
    ensures shows { result ≡ bits }
{
    bits
}

/// The place of the lowest bit.
pub(crate) fn lowest(bits: u128) -> Slot
    requires { 0 < bits }
    ensures within { result < 128 }
    ensures member { in_bits bits result ≡ true }
    ensures none_below { (u : ℕ) → u < result → in_bits bits u ≡ false }
{
    bits.trailing_zeros() as Slot
}
