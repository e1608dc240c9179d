//! Notices in C's memory.

ghost use Rattle.gl_slots.specs.Limit.{most_slots};
ghost use Rattle.std.specs.Prelude.{◌≡◌, ◌≤◌, [], length};
ghost use Rattle.gl_c.specs.answers.Notices.{Tells, bare_notice, notice_of};

use crate::names::{Node, Txn};
use crate::numbers::mode_number;
use gl_modes::NodeId;
use gl_slots::SLOTS;
use gl_table::{Notice as TableNotice, TxnId};

/// What a transaction is told of another's command.
#[repr(C)]
#[derive(Clone, Copy)]
pub struct Notice {
    /// The transaction that is told.
    pub txn: Txn,
    /// The node that was granted; zero in notices of other kinds.
    pub node: Node,
    /// 1: granted, 2: condemned, 3: the node moved, 4: the node is gone.
    pub kind: u32,
    /// The number of the mode that was granted; zero in notices of other kinds.
    pub mode: u32,
}

impl Notice {
    fn of(txn: TxnId, notice: TableNotice) -> Notice
        ensures { result ≡ notice_of (txn, notice) }
    {
        match notice {
            TableNotice::Granted(node, mode) => Notice {
                txn: Txn::of(txn),
                node: Node::of(node),
                kind: 1,
                mode: mode_number(mode),
            },
            TableNotice::Victim => Notice::bare(txn, 2),
            TableNotice::Moved => Notice::bare(txn, 3),
            TableNotice::Gone => Notice::bare(txn, 4),
        }
    }

    fn bare(txn: TxnId, kind: u32) -> Notice
        ensures { result ≡ bare_notice txn kind }
    {
        Notice {
            txn: Txn::of(txn),
            node: Node::of(NodeId::NONE),
            kind,
            mode: 0,
        }
    }
}

/// The notices of one command, at most one for each slot, by rising slot, in the caller's memory.
#[repr(C)]
#[derive(Clone, Copy)]
pub struct Notices {
    /// How many places are used, from the first on.
    pub count: usize,
    pub at: [Notice; SLOTS],
}

impl Notices {
    /// Removes all notices.
    pub(crate) fn clear(&mut self)
        ensures { Tells self.new [] }
    {
        self.count = 0;
    }

    /// Replaces all notices by these.
    pub(crate) fn put(&mut self, told: &[(TxnId, TableNotice)])
        requires { length told.now ≤ most_slots }
        ensures { Tells self.new told.now }
    {
        for (place, (txn, notice)) in told.iter().enumerate() {
            self.at[place] = Notice::of(*txn, *notice);
        }
        self.count = told.len();
    }
}
