//! Rows.

use gl_modes::NodeId;

/// A row: its file, and the engine's own number for it in that file.
#[derive(Clone, Copy, PartialEq, Eq, Hash, Debug)]
pub struct Row {
    pub file: NodeId,
    pub number: u64,
}
