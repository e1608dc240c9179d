//! What rests in a part for the next transaction of a slot: when it may, and which transaction takes it up.

ghost use Rattle.std.specs.Prelude.{◌≡◌, ◌↔◌, IsTrue, map};
ghost use Rattle.gl_parts.specs.Resting.{MayRest, takes_up};

use crate::passing::Marked;

/// Whether a transaction that ends in a part with these marks may leave locks there that rest for the next
/// transaction of its slot, at most so many: it may if it commits, some are to be kept, and there is no
/// mark. What rests belongs to no transaction of the main manager; and on a node for which a part is marked
/// every transaction holds there what it holds in the part. So a part gets a mark only after what rests
/// there was released.
pub fn may_rest<M: Marked>(commits: bool, most: u64, marks: &[M]) -> bool
    ensures { IsTrue result ↔ MayRest commits most (map M.names marks.now) }
{
    commits && most != 0 && marks.is_empty()
}

/// Whether a transaction of this age takes up what rests for its slot: it does if its work began with it, so
/// that its `since` is its age. Work that began earlier may be older than what rests, and would then count in
/// the part as younger than it is.
pub fn takes_up(age: u64, since: u64) -> bool
    ensures { result ≡ takes_up age since }
{
    age <= since
}
