//! The name of a table, for contracts alone.
use std::marker::Brand;
use std::sync::ledger::Ledger;

/// The name of a table: how many commands were accepted when it was made, how many shares it has, its
/// way of detection, its first snapshot and the book of its snapshots.
pub trait Naming: Ledger {
    ghost use Rattle.std.specs.Prelude.{ℕ};
    ghost use Rattle.gl_model.specs.declared.answers.Detect.{Detect};
    ghost use Rattle.logbook.specs.Pages.{Book};
    ghost use Rattle.gl_waits.specs.declared.board.Board.{Board};

    ghost opening: { ℕ };

    ghost shares: { ℕ };

    ghost detect: { Detect };

    ghost first: { Board };

    ghost book: { Book };
}

impl Naming for Brand {
    ghost use Rattle.std.specs.Prelude.{[]};
    ghost use Rattle.gl_model.specs.declared.answers.Detect.TheVariants.{ByWatcher};

    ghost opening = { 0 };

    ghost shares = { 0 };

    ghost detect = { ByWatcher };

    ghost first = { record { epoch = 0; ages = []; rows = [] } };

    ghost book = { record { number = 0; log_name = 0; cells_name = 0 } };
}
