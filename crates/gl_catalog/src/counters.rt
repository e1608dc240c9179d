//! The counters of a manager.

ghost use Rattle.std.specs.Prelude.{◌≡◌, max};
ghost use Rattle.gl_catalog.specs.Counters.{condemns, grants, one_if, rises, waits, with_notice, with_notices};
ghost use Rattle.gl_steps.specs.Step.{answer_of_lock};

use gl_table::{Locked, Notice, TxnId};

/// What a manager has done since it was made, in accepted commands. Each count stops at the
/// greatest `u64`.
#[derive(Clone, Copy, PartialEq, Eq, Debug, Default)]
pub struct Counters {
    /// Requests, by lock or by try, that were answered with a mode.
    pub granted: u64,
    /// Locks that were answered with a wait.
    pub waited: u64,
    /// Requests, by lock or by try, for a node that the transaction already held, if not refused.
    pub conversions: u64,
    /// Requests for a node that the transaction already held, and escalations, that raised its mode
    /// there while a transaction still waits for the node: they passed all its waiters.
    pub passed: u64,
    /// Waits that ended with a grant.
    pub granted_later: u64,
    /// Transactions condemned to end a deadlock, told so by a notice or by the answer to their own
    /// lock.
    pub victims: u64,
    /// Waits that ended because the node moved.
    pub moved: u64,
    /// Waits that ended because the node is gone.
    pub gone: u64,
    /// Escalations that were done.
    pub escalations: u64,
    /// Children that escalations released.
    pub released_children: u64,
    /// The most transactions that waited at once, read whenever a lock is answered with a wait.
    pub most_waiting: u64,
    /// The most transactions that waited for one node at once, read for a lock's node whenever the
    /// lock is answered with a wait.
    pub longest_queue: u64,
}

impl Counters {
    /// Adds a lock's answer. `converts` says whether its transaction already held the node, and
    /// `passes` whether the lock passed a waiter.
    pub(crate) fn add_lock(&mut self, converts: bool, passes: bool, locked: Locked)
        ensures { self.new ≡ record self.old {
          granted = rises self.old.granted (one_if (grants (answer_of_lock locked)));
          waited = rises self.old.waited (one_if (waits (answer_of_lock locked)));
          conversions = rises self.old.conversions (one_if converts);
          passed = rises self.old.passed (one_if passes);
          victims = rises self.old.victims (one_if (condemns (answer_of_lock locked)));
        } }
    {
        match locked {
            Locked::Granted(_) => raise(&mut self.granted, 1),
            Locked::Waiting => raise(&mut self.waited, 1),
            Locked::Victim => raise(&mut self.victims, 1),
        }
        self.add_conversion(converts, passes);
    }

    /// Adds a try that was granted.
    pub(crate) fn add_grant(&mut self, converts: bool, passes: bool)
        ensures { self.new ≡ record self.old {
          granted = rises self.old.granted 1;
          conversions = rises self.old.conversions (one_if converts);
          passed = rises self.old.passed (one_if passes);
        } }
    {
        raise(&mut self.granted, 1);
        self.add_conversion(converts, passes);
    }

    /// Adds a request to the conversions and to those that passed a waiter, if it was one.
    fn add_conversion(&mut self, converts: bool, passes: bool)
        ensures { self.new ≡ record self.old {
          conversions = rises self.old.conversions (one_if converts);
          passed = rises self.old.passed (one_if passes);
        } }
    {
        if converts {
            raise(&mut self.conversions, 1);
        }
        if passes {
            raise(&mut self.passed, 1);
        }
    }

    /// Adds an escalation that released so many children. `passes` says whether it passed a waiter.
    pub(crate) fn add_escalation(&mut self, passes: bool, released: u32)
        ensures { self.new ≡ record self.old {
          passed = rises self.old.passed (one_if passes);
          escalations = rises self.old.escalations 1;
          released_children = rises self.old.released_children released;
        } }
    {
        if passes {
            raise(&mut self.passed, 1);
        }
        raise(&mut self.escalations, 1);
        raise(&mut self.released_children, u64::from(released));
    }

    /// Adds how many were seen to wait at once, and how many for one node.
    pub(crate) fn add_waits(&mut self, waiting: u64, queued: u64)
        ensures { self.new ≡ record self.old { most_waiting = max self.old.most_waiting waiting; longest_queue = max self.old.longest_queue queued } }
    {
        self.most_waiting = self.most_waiting.max(waiting);
        self.longest_queue = self.longest_queue.max(queued);
    }

    /// Adds the notices of one command.
    pub(crate) fn add_notices(&mut self, told: &[(TxnId, Notice)])
        ensures { self.new ≡ with_notices told.now self.old }
    {
        for (_, notice) in told {
            self.add_notice(*notice);
        }
    }

    /// Adds one notice.
    fn add_notice(&mut self, notice: Notice)
        ensures { self.new ≡ with_notice notice self.old }
    {
        match notice {
            Notice::Granted(..) => raise(&mut self.granted_later, 1),
            Notice::Victim => raise(&mut self.victims, 1),
            Notice::Moved => raise(&mut self.moved, 1),
            Notice::Gone => raise(&mut self.gone, 1),
        }
    }
}

/// Raises a count by so many, up to the greatest `u64`.
fn raise(count: &mut u64, more: u64)
    ensures { count.new ≡ rises count.old more }
{
    *count = count.saturating_add(more);
}
