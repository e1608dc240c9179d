//! The model of the state of locks: transactions, who holds what and who waits for what, what each
//! call makes of it, and who is told; and the laws of the model.
#![tactic(auto)]

mod answers;
mod deadlock;
pub mod laws;
mod txn;

pub use answers::{Detect, Effect, LockRow, Locked, Notice, Told};
pub use deadlock::{Deadlock, Stuck};
pub use txn::{Status, TxnId};
