//! The keys of a row.

ghost use Rattle.std.specs.Prelude.{◌≡◌, take};
ghost use Rattle.gl_waiting.specs.Keys.{keys_in};

use gl_modes::MOST_PARENTS;

/// The keys that a request says a row has: one for each index of its file, in the order in which the indexes were made.
#[derive(Clone, Copy, PartialEq, Eq, Debug)]
pub struct RowKeys {
    keys: [u64; MOST_PARENTS],
    count: usize,
}

impl RowKeys {
    /// These keys, or the first eight of them. Every row has fewer, so too many keys still differ from those of each row.
    pub fn new(keys: &[u64]) -> Self
        ensures { keys_in result ≡ take MOST_PARENTS keys.now }
    {
        let mut own = [0; MOST_PARENTS];
        let count = keys.len().min(MOST_PARENTS);
        own[..count].copy_from_slice(&keys[..count]);
        RowKeys { keys: own, count }
    }

    /// The keys, in order.
    pub fn as_slice(&self) -> &[u64]
        ensures { result.now ≡ keys_in self.now }
    {
        &self.keys[..self.count.min(MOST_PARENTS)]
    }
}
