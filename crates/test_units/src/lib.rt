//! The calls of the lower crates: modes, sets of slots, boards, the lock graph, headers, and lists
//! under nodes. Each in its normal case, and at its limits.
#![tactic(auto)]

#[cfg(test)]
mod closures;
#[cfg(test)]
mod graphs;
#[cfg(test)]
mod headers;
#[cfg(test)]
mod keyed_headers;
#[cfg(test)]
mod listed;
#[cfg(test)]
mod modes;
#[cfg(test)]
mod slots;
#[cfg(test)]
mod waits;
#[cfg(test)]
mod wanted;
