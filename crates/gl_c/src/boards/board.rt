//! Waits-for snapshots in C's memory.

ghost use Rattle.std.specs.Prelude.{◌≡◌};
ghost use Rattle.gl_c.specs.Boards.{board_in, set_of, slots_of};

use gl_slots::{Bits, NO_BITS, SLOTS, WORDS, from_words, to_words};

/// A set of slots: bit `s % 64` of word `s / 64` stands for slot `s`.
#[repr(C)]
#[derive(Clone, Copy)]
pub struct Slots {
    pub words: [u64; WORDS],
}

impl Slots {
    pub(crate) fn of(set: Bits) -> Slots
        ensures is { result ≡ slots_of set }
        ensures back { set_of result ≡ set }
    {
        Slots {
            words: to_words(set),
        }
    }

    pub(crate) fn set(self) -> Bits
        ensures { result ≡ set_of self }
    {
        from_words(self.words)
    }
}

/// A snapshot in the caller's memory: who waits for whom at one moment.
#[repr(C)]
#[derive(Clone, Copy)]
pub struct Board {
    /// How many commands had been accepted by that moment.
    pub epoch: u64,
    /// By slot, the age of its transaction; 0 if the slot is free.
    pub ages: [u64; SLOTS],
    /// By slot, the slots for which it waits.
    pub rows: [Slots; SLOTS],
}

impl Board {
    /// Copies this board. It is passed by value: then the proof knows how many rows it has.
    #[tactic(auto, using(crate::proofs::BoardRows::put_more, crate::proofs::BoardRows::put_all))]
    pub(crate) fn put(&mut self, board: gl_waits::Board)
        ensures { board_in self.new ≡ board }
    {
        self.epoch = board.epoch;
        self.ages = board.ages;
        for slot in 0..SLOTS {
            self.rows[slot] = Slots::of(board.rows[slot]);
        }
    }

    /// This board as a value.
    #[tactic(auto, using(crate::proofs::BoardRows::read_more, crate::proofs::BoardRows::put_all))]
    pub(crate) fn read(&self) -> gl_waits::Board
        ensures { result ≡ board_in self.now }
    {
        let mut rows = [NO_BITS; SLOTS];
        for slot in 0..SLOTS {
            rows[slot] = self.rows[slot].set();
        }
        gl_waits::Board {
            epoch: self.epoch,
            ages: self.ages,
            rows,
        }
    }
}
