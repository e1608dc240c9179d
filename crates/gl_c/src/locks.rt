//! Calls of transactions: locks on nodes and rows, those who rest, and the outcome of a wait.

mod resting;
mod rows;
mod tries;
mod turns;
mod txns;
mod waiters;
mod waiting;
