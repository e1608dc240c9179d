//! What a call answers to C: replies, sets of slots, and notices.

pub(crate) mod found;
pub(crate) mod notices;
pub(crate) mod reply;
