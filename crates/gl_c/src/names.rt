//! The names of nodes and transactions.

ghost use Rattle.std.specs.Prelude.{◌≡◌, ◌≤◌};
ghost use Rattle.gl_slots.specs.Limit.{most_slots};
ghost use Rattle.gl_c.specs.Names.{NamesNobody, node_id, node_of, row_at, txn_id, txn_of};

use crate::numbers::slot_at;
use gl_modes::NodeId;
use gl_rows::Row;
use gl_table::TxnId;

/// The name of a node. The name of a node that is gone names nothing, whatever was made since. Zero in
/// both fields names no node.
#[repr(C)]
#[derive(Clone, Copy)]
pub struct Node {
    pub key: usize,
    pub birth: u64,
}

impl Node {
    pub(crate) fn id(self) -> NodeId
        ensures { result ≡ node_id self }
    {
        NodeId {
            key: self.key,
            birth: self.birth,
        }
    }

    pub(crate) fn of(id: NodeId) -> Node
        ensures { result ≡ node_of id }
    {
        Node {
            key: id.key,
            birth: id.birth,
        }
    }

    /// The row of this number in the file.
    pub(crate) fn row(self, number: u64) -> Row
        ensures { result ≡ row_at self number }
    {
        Row {
            file: self.id(),
            number,
        }
    }
}

/// The name of a transaction, of the same size for any number of slots. The name of one that has ended
/// names nothing; nor does a number that is no slot, or age zero.
#[repr(C)]
#[derive(Clone, Copy)]
pub struct Txn {
    pub slot: u32,
    pub age: u64,
}

impl Txn {
    pub(crate) fn id(self) -> TxnId
        ensures is { result ≡ txn_id self }
        ensures stale { most_slots ≤ self.slot → NamesNobody result }
    {
        match slot_at(self.slot) {
            Some(slot) => TxnId {
                slot,
                age: self.age,
            },
            None => TxnId::NONE,
        }
    }

    pub(crate) fn of(id: TxnId) -> Txn
        ensures { result ≡ txn_of id }
    {
        Txn {
            slot: u32::from(id.slot),
            age: id.age,
        }
    }
}
