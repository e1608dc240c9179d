//! Waits-for snapshots for watchers: the current one, the list of those published, and when one is
//! due; and a window through which up to eight watchers read the last one without a latch, always
//! whole.
#![tactic(auto)]

mod history;
mod now;
mod parties;
mod publisher;
mod seats;
mod telling;
#[cfg(test)]
mod tests;
mod watcher;
mod window;

pub use history::{Head, Line};
pub use now::board_now;
pub use parties::parties_of;
pub use publisher::{Publisher, WatchFault};
pub use telling::{Telling, is_due, leaves_waits, may_show_waits};
pub use watcher::Watcher;
