//! The laws of waiting: a wait ends once each transaction before it has ended.
#![tactic(auto)]

pub mod laws;
