//! Transactions, and the locks that they acquire and release.
//!
//! Each call does what `apply` does for its command, without a match. It is refused with `WornOut`
//! if no command can be counted any more, and then as the table's call of its name. Notices are put
//! into a list that must be empty.

ghost use Rattle.std.specs.Prelude.{◌≡◌, [], IfOk, OnErr};
ghost use Rattle.gl_steps.specs.declared.command.Command.TheVariants as command;
ghost use Rattle.gl_catalog.specs.Completes.{Completes};
ghost use Rattle.gl_catalog.specs.Manager.{state_of};
ghost use Rattle.gl_catalog.specs.Replies.{CallSteps, asking, began, doing, took};

use super::Manager;
use super::counting::raise_passes;
use gl_modes::{Mode, NodeId, Refusal};
use gl_table::{Locked, Told, TxnId};

impl Manager {
    /// Begins a transaction, in the lowest free slot. May allocate memory.
    pub fn begin(&mut self) -> Result<TxnId, Refusal>
        ensures step { CallSteps (state_of self.old) command.Begin began result (state_of self.new) }
        ensures completes { IfOk result (λ x. Completes command.Begin self.old (began x) self.new) }
        ensures err { OnErr result (self.new ≡ self.old) }
    {
        self.check_count()?;
        let txn = self.table.begin()?;
        self.table.law();
        self.accepted += 1;
        Ok(txn)
    }

    /// Begins a transaction for work that began earlier: `since` is the age of the first
    /// transaction for it. The next victim of a deadlock is the one with the greatest such number,
    /// so a victim that begins again with its first age keeps its turn. May allocate memory.
    pub fn begin_again(&mut self, since: u64) -> Result<TxnId, Refusal>
        ensures step { CallSteps (state_of self.old) (command.BeginAgain since) began result (state_of self.new) }
        ensures completes { IfOk result (λ x. Completes (command.BeginAgain since) self.old (began x) self.new) }
        ensures err { OnErr result (self.new ≡ self.old) }
    {
        self.check_count()?;
        let txn = self.table.begin_again(since)?;
        self.table.law();
        self.accepted += 1;
        Ok(txn)
    }

    /// Begins a transaction in the slot of this number, for work that began in another manager: its
    /// `since` is this number, also if it is above the next age. Its age is the greater of the two.
    /// So managers that work as one have the same slots, and choose the same victims. Refused, in
    /// this order, with `WornOut`, also if `u64::MAX` was given as an age, and `TooManyTxns` if the
    /// slot is taken, or is none of the manager's. Allocates no memory.
    pub fn join(&mut self, slot: usize, since: u64) -> Result<TxnId, Refusal>
        ensures step { CallSteps (state_of self.old) (command.Join slot since) began result (state_of self.new) }
        ensures completes { IfOk result (λ x. Completes (command.Join slot since) self.old (began x) self.new) }
        ensures err { OnErr result (self.new ≡ self.old) }
    {
        self.check_count()?;
        let txn = self.table.join(slot, since)?;
        self.table.law();
        self.accepted += 1;
        Ok(txn)
    }

    /// Ends a transaction that holds intentions alone, on nodes for which nobody waits, and begins
    /// anew in its slot with all its locks. `since` is as in `begin_again`; for new work it is
    /// `u64::MAX`. Refused, in this order, with `WornOut`, `NoSuchTxn`, `TxnWaiting`,
    /// `TxnCondemned` and `NeedRelease`. Allocates no memory. Linear in the locks.
    pub fn renew(&mut self, t: TxnId, since: u64) -> Result<TxnId, Refusal>
        ensures step { CallSteps (state_of self.old) (command.Renew t since) began result (state_of self.new) }
        ensures completes { IfOk result (λ x. Completes (command.Renew t since) self.old (began x) self.new) }
        ensures err { OnErr result (self.new ≡ self.old) }
    {
        self.check_count()?;
        let txn = self.table.renew(t, since)?;
        self.table.law();
        self.accepted += 1;
        Ok(txn)
    }

    /// Requests a mode on a node, and waits if it cannot be granted at once. With detection at
    /// block a requester that waits is settled at once. May allocate memory.
    pub fn lock_telling(
        &mut self,
        t: TxnId,
        n: NodeId,
        mode: Mode,
        told: &mut Told,
    ) -> Result<Locked, Refusal>
        requires empty { told.old.items ≡ [] }
        ensures step { CallSteps (state_of self.old) (command.Lock t n mode) (asking told.new.items) result (state_of self.new) }
        ensures completes { IfOk result (λ x. Completes (command.Lock t n mode) self.old (asking told.new.items x) self.new) }
        ensures untold { OnErr result (told.new ≡ told.old) }
        ensures err { OnErr result (self.new ≡ self.old) }
    {
        self.check_count()?;
        let (held, locked) = self.table.lock_from(t, n, mode, told)?;
        self.table.law();
        self.accepted += 1;
        self.count_lock(n, held, locked, told.as_slice());
        Ok(locked)
    }

    /// Requests a mode on a node, and is refused with `WouldBlock` if it cannot be granted at once.
    /// May allocate memory, unless the transaction holds the node.
    pub fn try_lock(&mut self, t: TxnId, n: NodeId, mode: Mode) -> Result<Mode, Refusal>
        ensures step { CallSteps (state_of self.old) (command.Try t n mode) took result (state_of self.new) }
        ensures completes { IfOk result (λ x. Completes (command.Try t n mode) self.old (took x) self.new) }
        ensures err { OnErr result (self.new ≡ self.old) }
    {
        self.check_count()?;
        let held = self.held_by(t, n);
        let mode = self.table.try_lock(t, n, mode)?;
        self.table.law();
        self.accepted += 1;
        let passes = raise_passes(&self.table, n, held, mode);
        self.counters.add_grant(held != Mode::NL, passes);
        Ok(mode)
    }

    /// Releases one node, of which no child is held; its waiters are granted from the front.
    /// Allocates no memory.
    pub fn unlock_telling(&mut self, t: TxnId, n: NodeId, told: &mut Told) -> Result<(), Refusal>
        requires empty { told.old.items ≡ [] }
        ensures step { CallSteps (state_of self.old) (command.Unlock t n) (doing told.new.items) result (state_of self.new) }
        ensures completes { IfOk result (λ x. Completes (command.Unlock t n) self.old (doing told.new.items x) self.new) }
        ensures untold { OnErr result (told.new ≡ told.old) }
        ensures err { OnErr result (self.new ≡ self.old) }
    {
        self.check_count()?;
        self.table.unlock_telling(t, n, told)?;
        self.table.law();
        self.accepted += 1;
        self.counters.add_notices(told.as_slice());
        Ok(())
    }

    /// Cancels the wait of a transaction; the node's waiters are granted from the front. Allocates
    /// no memory.
    pub fn cancel_telling(&mut self, t: TxnId, told: &mut Told) -> Result<(), Refusal>
        requires empty { told.old.items ≡ [] }
        ensures step { CallSteps (state_of self.old) (command.Cancel t) (doing told.new.items) result (state_of self.new) }
        ensures completes { IfOk result (λ x. Completes (command.Cancel t) self.old (doing told.new.items x) self.new) }
        ensures untold { OnErr result (told.new ≡ told.old) }
        ensures err { OnErr result (self.new ≡ self.old) }
    {
        self.check_count()?;
        self.table.cancel_telling(t, told)?;
        self.table.law();
        self.accepted += 1;
        self.counters.add_notices(told.as_slice());
        Ok(())
    }

    /// Ends an active transaction and releases everything. Allocates no memory.
    pub fn commit_telling(&mut self, t: TxnId, told: &mut Told) -> Result<(), Refusal>
        requires empty { told.old.items ≡ [] }
        ensures step { CallSteps (state_of self.old) (command.Commit t) (doing told.new.items) result (state_of self.new) }
        ensures completes { IfOk result (λ x. Completes (command.Commit t) self.old (doing told.new.items x) self.new) }
        ensures untold { OnErr result (told.new ≡ told.old) }
        ensures err { OnErr result (self.new ≡ self.old) }
    {
        self.check_count()?;
        self.table.commit_telling(t, told)?;
        self.table.law();
        self.accepted += 1;
        self.counters.add_notices(told.as_slice());
        Ok(())
    }

    /// Ends a transaction in any status, and releases everything. Allocates no memory.
    pub fn abort_telling(&mut self, t: TxnId, told: &mut Told) -> Result<(), Refusal>
        requires empty { told.old.items ≡ [] }
        ensures step { CallSteps (state_of self.old) (command.Abort t) (doing told.new.items) result (state_of self.new) }
        ensures completes { IfOk result (λ x. Completes (command.Abort t) self.old (doing told.new.items x) self.new) }
        ensures untold { OnErr result (told.new ≡ told.old) }
        ensures err { OnErr result (self.new ≡ self.old) }
    {
        self.check_count()?;
        self.table.abort_telling(t, told)?;
        self.table.law();
        self.accepted += 1;
        self.counters.add_notices(told.as_slice());
        Ok(())
    }

    /// Condemns victims, by the choice of victims, until the transaction is on no cycle. Allocates
    /// no memory.
    pub fn settle_telling(&mut self, t: TxnId, told: &mut Told) -> Result<(), Refusal>
        requires empty { told.old.items ≡ [] }
        ensures step { CallSteps (state_of self.old) (command.Settle t) (doing told.new.items) result (state_of self.new) }
        ensures completes { IfOk result (λ x. Completes (command.Settle t) self.old (doing told.new.items x) self.new) }
        ensures untold { OnErr result (told.new ≡ told.old) }
        ensures err { OnErr result (self.new ≡ self.old) }
    {
        self.check_count()?;
        self.table.settle_telling(t, told)?;
        self.table.law();
        self.accepted += 1;
        self.counters.add_notices(told.as_slice());
        Ok(())
    }
}
