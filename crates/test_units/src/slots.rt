//! Each call once, at both ends of a set.

use crate::wanted::same;
use gl_slots::{Slots, from_words, to_words};

/// Which of these a set has: slots at its ends, some between, and two numbers that are no slots.
fn seen_in(set: Slots) -> [bool; 8] {
    [
        set.contains(0),
        set.contains(1),
        set.contains(5),
        set.contains(63),
        set.contains(64),
        set.contains(127),
        set.contains(128),
        set.contains(255),
    ]
}

/// Slots at both ends and between.
fn four() -> Slots {
    let mut set = Slots::empty();
    for slot in [127, 64, 0, 5] {
        set.insert(slot);
    }
    set
}

#[test]
fn a_set_has_what_was_put_in(rt: HostRuntime) {
    const FOUR: [bool; 8] = [true, false, true, false, true, true, false, false];
    const ALL: [bool; 8] = [true, true, true, true, true, true, false, false];
    same(
        &rt,
        (Slots::empty().is_empty(), seen_in(Slots::empty())),
        (true, [false; 8]),
    );
    same(&rt, seen_in(four()), FOUR);
    same(&rt, seen_in(Slots::all()), ALL);
    let mut set = four();
    set.remove(64);
    set.remove(200);
    same(&rt, set.lowest(), Some(0));
    same(&rt, set.complement().lowest(), Some(1));
    same(&rt, set.union(set.complement()), Slots::all());
    let mut other = Slots::empty();
    other.insert(5);
    other.insert(9);
    same(&rt, set.intersection(other).lowest(), Some(5));
    let left = set.union(other).without(0).without(5);
    same(&rt, left.lowest(), Some(9));
}

#[test]
fn slots_come_from_the_lowest_on(rt: HostRuntime) {
    let mut set = four();
    same(&rt, Slots::from_bits(1 << 127 | 1 << 64 | 0b10_0001), set);
    same(&rt, to_words(set.bits()), [0b10_0001, 1 << 63 | 1]);
    same(&rt, from_words([0b10_0001, 1 << 63 | 1]), set.bits());
    let mut seen = [0; 4];
    let mut count = 0;
    for slot in set.iter() {
        if count < 4 {
            seen[count] = slot;
            count += 1;
        }
    }
    same(&rt, seen, [0, 5, 64, 127]);
    same(&rt, set.take_lowest(), Some(0));
    same(&rt, set.take_lowest(), Some(5));
    same(&rt, Slots::empty().take_lowest(), None);
}
