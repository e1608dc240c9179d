//! Requests for locks.

ghost use Rattle.std.specs.Prelude.{◌≡◌, [], IfOk, IsOk, None, OnErr, OnOk, true};
ghost use Rattle.gl_graph.specs.Refusals.{Refuses, first_refusal, verdict};
ghost use Rattle.gl_header.specs.Header.{holds};
ghost use Rattle.gl_model.specs.Calls.{KeepsAll, Locks, RefusesLock, granted, lock_tests, locked_as, try_tests, wanted};
ghost use Rattle.gl_model.specs.Deadlocks.{LocksKeeping};
ghost use Rattle.gl_model.specs.State.{members, status_of};
ghost use Rattle.gl_table.specs.Table.{KeepsOrders, state_of};
ghost use Rattle.gl_model.specs.Tellings.{told_but};

use super::Table;
use gl_header::Asked;
use gl_model::{Locked, Told, TxnId};
use gl_modes::{Mode, NodeId, Refusal};

impl Table {
    /// Whether `lock` would be refused, lack of memory aside, and with what. Requests nothing, and
    /// allocates no memory.
    #[inline]
    pub fn check_lock(&self, t: TxnId, n: NodeId, mode: Mode) -> Result<(), Refusal>
        ensures { result ≡ verdict (first_refusal (lock_tests (state_of self.now) t n mode)) }
    {
        self.locks.ledger.check_ask(&self.locks.graph, t, n, mode)?;
        Ok(())
    }

    /// As `lock`, with the notices put into an empty list.
    pub fn lock_telling(
        &mut self,
        t: TxnId,
        n: NodeId,
        mode: Mode,
        notices: &mut Told,
    ) -> Result<Locked, Refusal>
        requires empty { notices.old.items ≡ [] }
        ensures answer { IfOk result (λ locked. locked ≡ locked_as ((state_of self.new).held t.slot n) (status_of (state_of self.new) t.slot)) }
        ensures told { OnOk result (notices.new.items ≡ told_but t.slot (state_of self.old) (state_of self.new)) }
        ensures state { OnOk result (Locks (state_of self.old) t.slot n mode (state_of self.new)) }
        ensures deadlock { OnOk result (LocksKeeping (state_of self.old) t.slot n mode self.old.deadlock (state_of self.new) self.new.deadlock) }
        ensures orders { OnOk result (KeepsOrders self.old self.new) }
        ensures refuses { RefusesLock (state_of self.old) t n mode result }
        ensures kept { OnErr result (KeepsAll self.old self.new notices.old notices.new) }
    {
        let (_, locked) = self.lock_from(t, n, mode, notices)?;
        Ok(locked)
    }

    /// As `lock_telling`, and answers also the mode in which the node was held before, `NL` for
    /// none, for a caller that counts conversions.
    pub fn lock_from(
        &mut self,
        t: TxnId,
        n: NodeId,
        mode: Mode,
        notices: &mut Told,
    ) -> Result<(Mode, Locked), Refusal>
        requires empty { notices.old.items ≡ [] }
        ensures before { IfOk result (λ x. x.0 ≡ (state_of self.old).held t.slot n) }
        ensures answer { IfOk result (λ x. x.1 ≡ locked_as ((state_of self.new).held t.slot n) (status_of (state_of self.new) t.slot)) }
        ensures told { OnOk result (notices.new.items ≡ told_but t.slot (state_of self.old) (state_of self.new)) }
        ensures state { OnOk result (Locks (state_of self.old) t.slot n mode (state_of self.new)) }
        ensures deadlock { OnOk result (LocksKeeping (state_of self.old) t.slot n mode self.old.deadlock (state_of self.new) self.new.deadlock) }
        ensures orders { OnOk result (KeepsOrders self.old self.new) }
        ensures refuses { RefusesLock (state_of self.old) t n mode result }
        ensures kept { OnErr result (KeepsAll self.old self.new notices.old notices.new) }
    {
        let locks = &mut self.locks;
        let (held, parents) = locks.ledger.check_ask(&locks.graph, t, n, mode)?;
        match locks
            .ledger
            .ask(&locks.graph, t.slot, n, mode, held, parents)?
        {
            Asked::Granted(granted) => Ok((held, Locked::Granted(granted))),
            Asked::Waiting => {
                locks.settle_requester(
                    self.detect,
                    self.victims,
                    t.slot,
                    &mut self.deadlock,
                    notices,
                );
                Ok((held, locks.outcome(t.slot, n)))
            }
        }
    }

    /// Requests a mode on a node, and is refused if it cannot be granted at once. The granted mode
    /// is the supremum of the held and the requested mode.
    ///
    /// Refused, in this order, with `NoSuchTxn`, `TxnWaiting`, `TxnCondemned`, `NoSuchNode`,
    /// `BadMode` (`NL`, or other than `S` and `X` on a record), `NeedParents`, `WouldBlock` and
    /// `NoMemory` (never for a holder of the node).
    pub fn try_lock(&mut self, t: TxnId, n: NodeId, mode: Mode) -> Result<Mode, Refusal>
        ensures mode { IfOk result (λ m. m ≡ wanted (state_of self.old) t.slot n mode) }
        ensures state { OnOk result (state_of self.new ≡ granted (state_of self.old) t.slot n mode) }
        ensures deadlock { self.new.deadlock ≡ self.old.deadlock }
        ensures orders { OnOk result (KeepsOrders self.old self.new) }
        ensures refuses { Refuses (first_refusal (try_tests (state_of self.old) t n mode)) result }
        ensures held { first_refusal (try_tests (state_of self.old) t n mode) ≡ None → holds (members (state_of self.old) n) t.slot ≡ true → IsOk result }
        ensures err { OnErr result (self.new ≡ self.old) }
    {
        let locks = &mut self.locks;
        let (held, parents) = locks.ledger.check_ask(&locks.graph, t, n, mode)?;
        if !locks.ledger.headers.would_grant(t.slot, n, held, mode) {
            return Err(Refusal::WouldBlock);
        }
        locks
            .ledger
            .grant(&locks.graph, t.slot, n, mode, held, parents)
    }
}
