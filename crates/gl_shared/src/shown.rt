//! What `left_right` publishes, and its operations.
ghost use Rattle.std.specs.Prelude.{◌≡◌, ◌≤◌, None, true};
ghost use Rattle.std.specs.List.{last_or};
ghost use Rattle.std.specs.Option.{option_map};
ghost use Rattle.std.specs.Arc.{arc_value};
ghost use Rattle.gl_window.specs.Boards.{Fine, last_epoch};
ghost use Rattle.gl_window.specs.Rules.{head_of};

use gl_table::Detect;
use gl_waits::Board;
use gl_window::{Head, Line};
use std::sync::Arc;

/// A list, and the snapshot that was last to be added to it; `None` if none was published yet.
#[derive(Drop)]
pub struct Shown {
    pub line: Line,
    pub board: Option<Arc<Board>>,
    /// Whether the list ends with the snapshot. In the copy that no reader uses it does not.
    pub is_added: bool,
    pub ghost ends: { is_added ≡ true → option_map arc_value board ≡ last_or None line.list },
}

/// The book and the way of detection. Only contracts have values of it.
pub struct Tie {
    pub head: Head,
    pub detect: Detect,
}

/// What both copies have in common: the tie, and the snapshot that was last to be added. Only contracts
/// have values of it.
pub struct Turn {
    pub tie: Tie,
    pub board: Option<Board>,
}

/// A snapshot to be added to a list.
#[derive(Drop)]
pub struct Next {
    pub line: Line,
    pub board: Arc<Board>,
    pub head: Arc<Head>,
    pub ghost head_is: { arc_value head ≡ head_of line.book },
    pub ghost rises: { last_epoch 0 line.list ≤ (arc_value board).epoch },
    pub ghost fine: { Fine line.detect (arc_value board) },
}
