//! A transaction entry.

use gl_model::Status;

/// The entry of a living transaction.
#[derive(Clone, Copy)]
pub struct TxnEntry {
    pub(crate) age: u64,
    /// Its age, or that of an earlier transaction for its work.
    pub(crate) since: u64,
    pub(crate) status: Status,
}
