//! The lock manager for C: exports over the manager, for the functions of `include/burlapslate.h`.
//!
//! What C guarantees in each call: `manager` and `watcher` were zero before their first call, and no
//! other call uses them meanwhile; a list has as many entries as its count says; `told` and `board`
//! have room and overlap nothing else; nobody writes a board while it is read.
#![tactic(auto)]

mod answers;
mod boards;
mod crossing;
mod graph;
mod locks;
mod managers;
mod names;
mod numbers;
mod questions;
mod watchers;
