//! Waiters of a table that threads share: who waits for which request, whose wait is over, how each goes on by that, and
//! how it ends. Nothing here has threads: the caller serializes all calls by its latch.
#![tactic(auto)]

mod begins;
mod delivery;
mod keys;
pub mod laws;
mod places;
mod resting;
mod set_off;
mod tries;
mod waiter;
mod waiter_table;
mod waiters;
mod waiting;

pub use begins::{QueuedBegin, Turn, begin_command};
pub use delivery::Delivery;
pub use keys::RowKeys;
pub use resting::{Ended, Number, Resting, Whom, acting_slot, first_intentions};
pub use set_off::SetOff;
pub use tries::{Keep, RowTried, Tried, intention};
pub use waiter::{Came, Next, Outcome, Request, Waiter};
pub use waiting::Waiting;
