//! Waits-for snapshots: who waits for whom at one moment, in one value that can be read without a
//! latch. Deadlocks and victims are found in a snapshot, or in any other source of waits by slot.
#![tactic(auto)]

mod ages;
mod board;
mod cycle;
mod freeing;
pub mod laws;
mod reach;
mod suspect;
mod victim;
mod victims;
mod waits_for;

pub use ages::Ages;
pub use board::Board;
pub use cycle::{on_cycle, on_cycle_in};
pub use freeing::freeing_victim;
pub use gl_slots::{Bits, SLOTS, Slot, Slots};
pub use suspect::suspects;
pub use victim::{latest_of, youngest};
pub use victims::{Victims, victim_for};
pub use waits_for::WaitsFor;
