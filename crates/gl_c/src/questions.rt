//! Questions and listings, which change nothing: the calls, their answers, and what they write.

pub(crate) mod counts;
pub(crate) mod deadlock;
mod listing;
mod listings;
pub(crate) mod look;
pub(crate) mod passing;
mod queries;
mod rests;
pub(crate) mod visits;
