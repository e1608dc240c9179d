//! A table before it has a name.

ghost use Rattle.std.specs.Prelude.{◌≡◌, ◌≤◌, ◌<◌, ◌∷◌, [], IfErr, IfOk, drop, Some};
ghost use Rattle.std.specs.Arc.{arc_value};
ghost use Rattle.gl_modes.specs.declared.refusal.Refusal.{Refusal as ARefusal};
ghost use Rattle.gl_table.specs.Table.{board_of};
ghost use Rattle.gl_catalog.specs.Manager.{state_of};
ghost use Rattle.gl_window.specs.Boards.{Fine};
ghost use Rattle.gl_window.specs.Rules.{head_of};
ghost use Rattle.gl_shared.specs.Ties.{tie_of};
ghost use Rattle.gl_window.specs.declared.telling.Telling.TheVariants.{Always};

use crate::boards::{BoardWriter, open};
use gl_catalog::Manager;
use gl_modes::Refusal;
use gl_window::{Head, Line, Telling, board_now};
use std::alloc::Global;
use std::sync::ledger::Blank;
use std::sync::{Arc, Wait};

/// What a table is made of.
pub struct Parts {
    pub(crate) manager: Manager,
    pub(crate) blank: Blank,
    pub(crate) shares: u64,
    pub(crate) watchers: usize,
    pub(crate) head: Arc<Head>,
    pub(crate) line: Line,
    pub(crate) writer: BoardWriter,
    pub(crate) telling: Telling,
    pub ghost cut: { (blank.parts ≡ shares) × (0 < shares) × (shares < 130) },
    pub ghost head_is: { arc_value head ≡ head_of line.book },
    pub ghost one: { (line.list ≡ board_of (state_of manager) ∷ []) × (line.detect ≡ manager.table.detect)
        × Fine manager.table.detect (board_of (state_of manager)) },
    pub ghost rest: { (drop writer.behind writer.log.items ≡ []) × (writer.desk.shown.value.line.list ≡ line.list) },
    pub ghost tie: { (tie_of writer.desk.shown.value.line ≡ tie_of line) × (writer.desk.place.me.0.client ≡ Some (tie_of line)) },
    pub ghost looking: { (0 < watchers) × (watchers < 9) },
}

impl Parts {
    /// The parts of a table with this manager, these many shares and watchers. The only refusal is
    /// `NoMemory`.
    pub fn new<R: Wait>(
        rt: &R,
        alloc: Global,
        manager: Manager,
        shares: u64,
        watchers: usize,
    ) -> Result<Parts, Refusal>
        requires { (0 < shares) × (shares < 130) × (0 < watchers) × (watchers < 9) }
        ensures made { IfOk result (λ p. (p.manager ≡ manager) × (p.shares ≡ shares) × (p.watchers ≡ watchers) × (p.telling ≡ Always)) }
        ensures refused { IfErr result (λ refusal. refusal ≡ ARefusal.NoMemory) }
    {
        let board = board_now(&manager);
        let Ok((head, line)) = Line::open(alloc, board, manager.detect()) else {
            return Err(Refusal::NoMemory);
        };
        let Ok(head) = Arc::new(alloc, head) else {
            return Err(Refusal::NoMemory);
        };
        let Ok(writer) = open(rt, alloc, &line, watchers) else {
            return Err(Refusal::NoMemory);
        };
        Ok(Parts {
            manager,
            blank: Blank::new(shares),
            shares,
            watchers,
            head,
            line,
            writer,
            telling: Telling::Always,
        })
    }

    /// The same parts, with another choice of when sessions tell watchers; the default is `Always`.
    pub fn with_telling(self, telling: Telling) -> Parts
        ensures choice { result.telling ≡ telling }
        ensures manager { (result.manager ≡ self.manager) × (result.blank ≡ self.blank) × (result.shares ≡ self.shares) × (result.watchers ≡ self.watchers) }
        ensures list { result.line ≡ self.line }
    {
        let mut parts = self;
        parts.telling = telling;
        parts
    }
}
