//! The table of crews, which alone use it: sessions share it behind one latch, with watchers, over
//! `left_right` and one history of snapshots. Engines call the table of C.
#![tactic(auto)]

mod batch;
mod boards;
mod guarded;
mod naming;
mod note;
mod parts;
mod publisher;
mod rule;
mod session;
mod share;
mod shared;
mod shown;
mod wakes;
mod watcher;

pub use boards::{BoardReader, BoardWriter};
pub use gl_steps::is_accepted;
pub use gl_wakes::{Grant, Slot, Stop};
pub use gl_window::{Head, Line, Telling, board_now};
pub use guarded::{Guarded, Tell};
pub use naming::Naming;
pub use note::Note;
pub use parts::Parts;
pub use publisher::Publisher;
pub use session::Session;
pub use share::Share;
pub use shared::{Closed, NotAll, Shared, gather};
pub use shown::{Next, Shown, Tie, Turn};
pub use watcher::Watcher;
