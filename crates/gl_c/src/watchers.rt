//! Watchers: how they are made, used and ended, and their places in C's memory.

mod lookout;
mod watcher;
mod watching;
