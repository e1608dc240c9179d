//! The snapshots of a table in one history that only grows. It exists in proofs alone; only its length
//! is stored.
ghost use Rattle.std.specs.Prelude.{◌≡◌, ◌+◌, ◌∷◌, [], ◌++◌, ◌⊎◌, ◌≤◌, true, length, List, IfOk, IfSome};
ghost use Rattle.std.specs.Arc.{arc_value};
ghost use Rattle.gl_waits.specs.declared.board.Board.{Board as ABoard};
ghost use mathlib.Core.List.{IsPrefix};
ghost use Rattle.gl_window.specs.Boards.{Fine, AllFine, Rising, Ends, last_epoch};
ghost use Rattle.gl_window.specs.Rules.{head_of};

use gl_model::Detect;
use gl_waits::Board;
use logbook::{Gain, Offer, Opening, Plain, Play, Rule, Seen, Start, Word};
use std::alloc::{AllocError, Global};
use std::marker::Model;
use std::sync::Arc;

/// The word of a book: the number of snapshots after the first.
pub type Head = Word<Board, u64, Law>;

/// The rule of the book.
pub struct Law;

impl Rule<Board, u64> for Law {
    ghost use Rattle.std.specs.Prelude.{[]};
    ghost use base.Fml.{ftrue};
    ghost use Rattle.gl_window.specs.Rules.{IsKept};

    ghost holds = { λ cells log. IsKept cells log };

    ghost first = { [] };

    ghost hinted = { λ n log. Unit {0} };

    ghost shows = { λ log. [] };

    ghost keeps = { λ names log. ftrue };

    ghost moves = { λ ask before after answer. Unit {0} };
}

/// Callers trade nothing.
pub struct Nothing;

impl Gain<Board, u64> for Nothing {
    ghost use base.Fml.{ftrue};

    ghost after = { λ names about answer. ftrue };
}

/// The step that adds a snapshot.
pub struct Add;

impl Play<Board, u64> for Add {
    ghost use Rattle.gl_window.specs.Rules.{Adds};

    ghost then = { Adds };
}

impl Plain<Board, Board, u64> for Add {
    ghost use Rattle.std.specs.Prelude.{None};

    ghost ask = { λ board. board };

    ghost state = { λ board. None };
}

/// A book opens with one snapshot.
impl Opening<Board, Board> for Add {
    ghost use Rattle.std.specs.Prelude.{◌∷◌, []};

    ghost log = { λ count board. board ∷ [] };
}

/// A prefix of the published list. Its last snapshot is stored, once for all owners.
#[derive(Drop)]
pub struct Line {
    board: Arc<Board>,
    count: u64,
    /// Whether detection is at block.
    detect: Detect,
    seen: Seen<Board, u64, Law>,
}

impl Model for Line {
    ghost use Rattle.std.specs.Prelude.{◌≡◌, ◌+◌, length};
    ghost use Rattle.std.specs.Arc.{arc_value};
    ghost use Rattle.gl_window.specs.Boards.{Ends, Rising, AllFine};
    ghost use Rattle.gl_window.specs.Strip.{Strip};

    ghost Value = { Strip };

    ghost view = { λ l. record { list = l.seen.log; book = l.seen.book; detect = l.detect } };

    ghost invariant = { λ l. (l.count + 1 ≡ length l.seen.log) × Ends l.seen.log (arc_value l.board) × Rising 0 l.seen.log × AllFine l.detect l.seen.log };
}

impl Line {
    /// A new book with one snapshot, and its word.
    pub fn open(alloc: Global, board: Board, detect: Detect) -> Result<(Head, Line), AllocError>
        requires { Fine detect board }
        ensures { IfOk result (λ t. (t.0 ≡ head_of t.1.book) × (t.1.list ≡ board ∷ []) × (t.1.detect ≡ detect)) }
    {
        let (seen, mut pens) = Seen::open_row::<Board, Add>(&board, Start::alone(), 1);
        let mut pen = pens.take();
        let head = Word::tracked(0, &mut pen);
        let Ok(board) = Arc::new(alloc, board) else {
            return Err(AllocError);
        };
        Ok((
            head,
            Line {
                board,
                count: 0,
                detect,
                seen,
            },
        ))
    }

    /// The last snapshot.
    pub fn board(&self) -> &Board
        ensures last { Ends self.now.list result.now }
        ensures epoch { result.now.epoch ≡ last_epoch 0 self.now.list }
        ensures rising { Rising 0 self.now.list }
        ensures fine { AllFine self.now.detect self.now.list }
    {
        &self.board
    }

    /// The same list for one more owner. It copies no snapshot. Refused if the snapshot has as many
    /// owners as can be counted.
    pub fn again(&self) -> Result<Line, AllocError>
        ensures { IfOk result (λ l. l ≡ self.now) }
    {
        Ok(Line {
            board: Arc::try_clone(&self.board)?,
            count: self.count,
            detect: self.detect,
            seen: self.seen.again(),
        })
    }

    /// Becomes another list of the same book, if that is longer.
    pub fn learn(&mut self, other: Line)
        requires { (other.book ≡ self.old.book) × (other.detect ≡ self.old.detect) }
        ensures one { (self.new ≡ self.old) ⊎ (self.new ≡ other) }
        ensures this { IsPrefix self.old.list self.new.list }
        ensures that { IsPrefix other.list self.new.list }
    {
        self.beside(&other);
        if self.count < other.count {
            *self = other;
        }
    }

    // Both are prefixes of one list.
    fn beside(&self, other: &Line)
        requires { (other.now.book ≡ self.now.book) × (other.now.detect ≡ self.now.detect) }
        ensures { (both : List ABoard) × IsPrefix self.now.list both × IsPrefix other.now.list both }
    {
        let mut both = self.seen.again();
        both.learn(&other.seen);
    }

    /// Adds a snapshot to the book, unless others were added after this list.
    pub fn add(&self, head: &Head, board: Arc<Board>) -> Option<Line>
        requires head { head.now ≡ head_of self.now.book }
        requires rises { last_epoch 0 self.now.list ≤ (arc_value board).epoch }
        requires fine { Fine self.now.detect (arc_value board) }
        ensures { IfSome result (λ l. (l.list ≡ self.now.list ++ arc_value board ∷ []) × (l.book ≡ self.now.book) × (l.detect ≡ self.now.detect)) }
    {
        if self.count == u64::MAX {
            return None;
        }
        let count = self.count;
        let mut seen = self.seen.again();
        let mut offer: Offer<Board, u64, Law, Nothing> = seen.plain::<Nothing, Board, Add>(&board);
        let mut pen = seen.no_pen();
        let found = head.compare_exchange::<Add, Nothing>(
            count,
            count + 1,
            &mut seen,
            &mut offer,
            &mut pen,
        );
        if found != count {
            return None;
        }
        Some(Line {
            board,
            count: count + 1,
            detect: self.detect,
            seen,
        })
    }

    /// Whether the other list is this one and one more snapshot.
    pub fn is_followed(&self, other: &Line) -> bool
        requires { (other.now.book ≡ self.now.book) × (other.now.detect ≡ self.now.detect) }
        ensures { result ≡ true → (last : ABoard) → Ends other.now.list last → other.now.list ≡ self.now.list ++ last ∷ [] }
    {
        if other.count <= self.count || other.count - self.count != 1 {
            return false;
        }
        self.beside(other);
        true
    }

    /// Whether the two lists of one book are the same.
    pub fn is_same(&self, other: &Line) -> bool
        requires { (other.now.book ≡ self.now.book) × (other.now.detect ≡ self.now.detect) }
        ensures { result ≡ true → other.now.list ≡ self.now.list }
    {
        if other.count != self.count {
            return false;
        }
        self.beside(other);
        true
    }
}
