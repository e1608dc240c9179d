//! The calls about rows.

ghost use Rattle.std.specs.Prelude.{◌≡◌};
ghost use Rattle.gl_rows.specs.Applying.{own_command, unnamed};

use crate::row::Row;
use gl_catalog::Command;
use gl_modes::{Mode, NodeId};
use gl_table::TxnId;

/// One call about rows.
///
/// A call about a row whose file is no file of rows is refused with `NotRows` before all else. Other
/// refusals are those of the call's command; `Lock` lists its own.
#[derive(Clone, Copy)]
pub enum RowCall<'a> {
    /// Make a file of rows under 1 to 8 inner nodes. Its records are never made, removed or rekeyed by
    /// their nodes.
    File {
        parents: &'a [NodeId],
    },
    /// Lock a row that has these keys, one for each index of its file in the order in which the
    /// indexes were made. A row without a node gets one with these keys, and so does a row whose node
    /// has other keys and which nobody holds or waits for. Any other row is locked by the node that it
    /// has, and the answer says whether the given keys are that node's.
    ///
    /// If the row keeps its node, the refusals are those of that node's lock. If it gets a node, they
    /// are, in this order, `WornOut` (fewer than two commands can still be counted, or three if it
    /// loses another node), `NoSuchTxn`, `TxnWaiting`, `TxnCondemned`, those of `Command::Adopt`,
    /// `BadMode` (other than `S` and `X`) and `NeedParents`. `NoMemory` may precede all of these. To
    /// insert or delete a row, lock it in `X` by its number.
    Lock {
        txn: TxnId,
        row: Row,
        keys: &'a [u64],
        mode: Mode,
    },
    /// Release a row. If nobody holds it or waits for it any more, it loses its node.
    Unlock {
        txn: TxnId,
        row: Row,
    },
    /// Give a row another key for one index.
    Rekey {
        txn: TxnId,
        row: Row,
        index: NodeId,
        key: u64,
    },
}

impl<'a> RowCall<'a> {
    /// The command that the call carries out, with `NodeId::NONE` in place of its row's node. The
    /// transactions that request a lock or cancel a wait by it are the same for every node.
    pub fn command(self) -> Command<'a>
        ensures { result ≡ own_command unnamed self.entry }
    {
        match self {
            RowCall::File { parents } => Command::File { parents },
            RowCall::Lock { txn, mode, .. } => Command::Lock {
                txn,
                node: NodeId::NONE,
                mode,
            },
            RowCall::Unlock { txn, .. } => Command::Unlock {
                txn,
                node: NodeId::NONE,
            },
            RowCall::Rekey {
                txn,
                index,
                key,
                ..
            } => Command::Rekey {
                txn,
                rec: NodeId::NONE,
                index,
                key,
            },
        }
    }
}
