//! A deadlock in the caller's memory.

ghost use Rattle.gl_slots.specs.Limit.{most_slots};
ghost use Rattle.std.specs.Prelude.{◌≡◌, ◌≤◌, length, map, take};
ghost use Rattle.gl_c.specs.questions.Deadlocks.{RecallsLast, Says, stuck_of};

use crate::answers::reply::Reply;
use crate::boards::board::Slots;
use crate::names::{Node, Txn};
use crate::numbers::{DONE, NO_PLACE, mode_number};
use gl_catalog::Manager;
use gl_slots::SLOTS;

/// A transaction that waits on a cycle.
#[repr(C)]
#[derive(Clone, Copy)]
pub struct Stuck {
    pub txn: Txn,
    /// The node that it waits for.
    pub node: Node,
    /// The number of the mode in which it wants that node.
    pub mode: u32,
    /// The slots of the transactions on the cycle for which it waits.
    pub waits_for: Slots,
}

impl Stuck {
    fn of(stuck: gl_table::Stuck) -> Stuck
        ensures { result ≡ stuck_of stuck }
    {
        Stuck {
            txn: Txn::of(stuck.txn),
            node: Node::of(stuck.node),
            mode: mode_number(stuck.wanted),
            waits_for: Slots::of(stuck.waits_for.bits()),
        }
    }
}

/// A deadlock, as it was when its victim was condemned.
#[repr(C)]
#[derive(Clone, Copy)]
pub struct Deadlock {
    /// The transaction that was condemned to end it.
    pub victim: Txn,
    /// How many places are used, from the first on.
    pub count: usize,
    /// Each transaction on a cycle with the settled one, by rising slot.
    pub at: [Stuck; SLOTS],
}

impl Deadlock {
    /// Replaces its contents by this deadlock.
    pub(crate) fn put(&mut self, deadlock: &gl_table::Deadlock)
        ensures { Says self.new deadlock.now }
    {
        self.victim = Txn::of(deadlock.victim);
        self.put_all(deadlock.cycle.as_slice());
    }

    /// Replaces the used places by these.
    fn put_all(&mut self, cycle: &[gl_table::Stuck])
        requires { length cycle.now ≤ most_slots }
        ensures victim { self.new.victim ≡ self.old.victim }
        ensures counted { self.new.count ≡ length cycle.now }
        ensures listed { take (length cycle.now) self.new.at ≡ map stuck_of cycle.now }
    {
        for (place, stuck) in cycle.iter().enumerate() {
            self.at[place] = Stuck::of(*stuck);
        }
        self.count = cycle.len();
    }

    /// Copies the last deadlock of a manager, if there was one.
    pub(crate) fn recall(&mut self, manager: &Manager) -> Reply
        ensures { RecallsLast manager.now.table.deadlock result self.old self.new }
    {
        match manager.last_deadlock() {
            Some(deadlock) => {
                self.put(deadlock);
                Reply::with_status(DONE)
            }
            None => Reply::with_status(NO_PLACE),
        }
    }
}
