//! The seats of watchers: each seat has one watcher or none. They are one word, bit s for seat s. By
//! the rule of the word one token has the seat of each set bit, and no token any other.

ghost use Rattle.std.specs.Prelude.{◌≡◌, ◌<◌, ◌==◌, ℕ, IfOk, None, Some, not};
ghost use Rattle.std.specs.Int.{bit_at};
ghost use Rattle.gl_window.specs.Seats.{Comes, Glances, Leaves, Takes};

use atomic_table::{Play, Seat, Table, TableRule};
use std::alloc::{AllocError, Global};

/// The most watchers at once.
const MOST_WATCHERS: u32 = 8;

/// What a token of the seats knows. No value of it is ever made.
pub struct Sitter {
    /// The seat that it has, if any.
    pub has: Option<u32>,
    /// The seats that it found taken, as bits.
    pub tried: u64,
    /// All seats that were taken when it looked, as bits.
    pub found: Option<u64>,
}

/// The rule of the word.
pub struct Seating;

impl TableRule<(), Sitter, ()> for Seating {
    ghost use Rattle.gl_window.specs.Seats.{Seated, newcomer};

    ghost holds = { λ _. Seated };

    ghost first = { λ _. newcomer };
}

struct Come;

impl Play<(), Sitter> for Come {
    ghost then = { Comes };
}

struct Glance;

impl Play<(), Sitter> for Glance {
    ghost then = { Glances };
}

struct Take;

impl Play<(), Sitter> for Take {
    ghost then = { Takes };
}

struct Leave;

impl Play<(), Sitter> for Leave {
    ghost then = { Leaves };
}

/// The seats.
#[derive(Drop)]
pub(crate) struct Seats {
    pub(crate) table: Table<(), Sitter, (), Seating, Global>,
    ghost one_word: { table.shared.table_id.words ≡ 1 },
}

/// A taken seat. It cannot be dropped: it must be given back.
pub(crate) struct Chair {
    number: u32,
    pub(crate) token: Seat<(), Sitter>,
    ghost below: { number < 8 },
    ghost has: { token.me.0.has ≡ Some number },
}

/// Each of the eight seats was found taken.
#[derive(Drop)]
pub(crate) struct Full {
    token: Seat<(), Sitter>,
    ghost all: { (n : ℕ) → n < 8 → bit_at token.me.0.tried n ≡ 1 },
}

/// Whether any seat was found taken.
#[derive(Drop)]
pub(crate) struct Found {
    pub(crate) any: bool,
    token: Seat<(), Sitter>,
    ghost says: { (seats : ℕ) → token.me.0.found ≡ Some seats → any ≡ not (seats == 0) },
}

impl Seats {
    /// Eight free seats.
    pub(crate) fn new(alloc: Global) -> Result<Seats, AllocError> {
        let (table, _) = Table::of_words(alloc, &[0], &())?;
        Ok(Seats { table })
    }

    /// Takes the first seat found free; fails if each of the eight was found taken.
    pub(crate) fn take(&self) -> Result<Chair, Full>
        ensures { IfOk result (λ chair. chair.token.table_id ≡ self.now.table.shared.table_id) }
    {
        let word = &self.table.shared;
        let (_, mut token) = word.load_new_seat::<Come>(0);
        for number in 0..MOST_WATCHERS {
            let bit = 1u64 << number;
            if word.fetch_or::<Take>(&mut token, 0, bit) & bit == 0 {
                return Ok(Chair { number, token });
            }
        }
        Err(Full { token })
    }

    /// Gives a seat back; its token then has none.
    pub(crate) fn leave(&self, chair: Chair) -> Seat<(), Sitter>
        requires { chair.token.table_id ≡ self.now.table.shared.table_id }
        ensures { result.me.0.has ≡ None }
    {
        let Chair { number, mut token } = chair;
        let word = &self.table.shared;
        word.fetch_xor::<Leave>(&mut token, 0, 1u64 << number);
        token
    }

    /// Checks whether any seat is taken.
    pub(crate) fn find(&self) -> Found {
        let (seats, token) = self.table.shared.load_new_seat::<Glance>(0);
        Found {
            any: seats != 0,
            token,
        }
    }
}
