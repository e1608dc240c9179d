//! The ids of nodes.

/// A node's id: its key, and its birth, which no other node ever has. So the id of a removed node
/// names nothing, even if its key is reused.
#[derive(Clone, Copy, PartialEq, Eq, Hash, Debug, Default)]
pub struct NodeId {
    pub key: usize,
    pub birth: u64,
}

/// How many parents a node may have.
pub const MOST_PARENTS: usize = 8;

impl NodeId {
    /// Names no node: births begin at 1.
    pub const NONE: NodeId = NodeId { key: 0, birth: 0 };
}
