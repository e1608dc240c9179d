//! The table of locks: who holds what and who waits for what, over the model of its state.
#![tactic(auto)]

mod boards;
mod effective;
mod ledger;
mod locks;
mod rule;
mod table;
mod told;
mod txn_entries;
mod txn_entry;

pub use gl_model::{Deadlock, Detect, Effect, LockRow, Locked, Notice, Status, Stuck, Told, TxnId};
pub use table::Table;
