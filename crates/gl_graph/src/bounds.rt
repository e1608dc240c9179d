//! The place of a key among the bounds of an index.

ghost use Rattle.std.specs.Prelude.{◌≡◌, ◌≤◌, ◌<◌, length};
ghost use Rattle.gl_graph.specs.Graph.{interval_place};
ghost use Rattle.gl_graph.specs.Lawful.{IsRising};

/// The place of the interval that contains the key: the number of bounds at or below it.
pub(crate) fn interval_place(bounds: &[u64], key: u64) -> usize
    requires { IsRising bounds.now }
    ensures place { result ≡ interval_place bounds.now key }
    ensures within { result ≤ length bounds.now }
{
    let mut low = 0;
    let mut high = bounds.len();
    while low < high {
        let middle = low + (high - low) / 2;
        if bounds[middle] <= key {
            low = middle + 1;
        } else {
            high = middle;
        }
    }
    low
}
