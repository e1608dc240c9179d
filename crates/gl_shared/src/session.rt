//! A session serves commands under the latch, and waits there for its notices.

ghost use Rattle.std.specs.Prelude.{◌≡◌, ◌+◌, ◌≤◌, ◌<◌, ◌⊎◌, [], true, false, IfSome, IfOk, MatchResult, MatchBool};
ghost use Rattle.gl_modes.specs.Modes.{is_at_least};
ghost use Rattle.gl_model.specs.Tellings.{Told as Notices};
ghost use Rattle.gl_steps.specs.declared.command.Answer.{Answer as AnAnswer};
ghost use Rattle.gl_steps.specs.declared.command.Command.TheVariants.{Lock};
ghost use Rattle.gl_catalog.specs.Manager.{IsLawfulManager};
ghost use Rattle.gl_window.specs.Boards.{last_epoch};
ghost use Rattle.gl_steps.specs.Served.{accepts, is_refused};
ghost use Rattle.gl_shared.specs.Sessions.{AreWoken, Gives, IsServed, IsVerdict};
ghost use Rattle.gl_wakes.specs.Boxes.{is_refusal};
ghost use Rattle.gl_shared.specs.State.{GuardedView};

use crate::guarded::Guarded;
use crate::naming::Naming;
use crate::note::Note;
use crate::share::Share;
use crate::shared::Shared;
use crate::wakes::Woken;
use gl_catalog::{Answer, Command, Counters, Reply};
use gl_modes::{Mode, NodeId};
use gl_steps::is_accepted;
use gl_table::{Told, TxnId};
use gl_wakes::{Grant, Stop};
use std::sync::{MutexGuard, Wait};

/// A user of the table. It has its share, the epoch of its last note, the count of accepted commands
/// after its last command, a list for notices, and, for contracts, the slots that it last woke.
pub struct Session<'a, N: Naming> {
    pub(crate) shared: &'a Shared<N>,
    pub(crate) share: Share<N>,
    pub(crate) last_epoch: u64,
    pub(crate) served_at: u64,
    pub(crate) notices: Told,
    pub(crate) woken: Woken,
}

impl<'a, N: Naming> Session<'a, N> {
    pub fn new(shared: &'a Shared<N>, share: Share<N>) -> Session<'a, N>
        ensures { (result.share ≡ share) × (result.last_epoch ≡ 0) × (result.served_at ≡ 0) }
    {
        Session {
            shared,
            share,
            last_epoch: 0,
            served_at: 0,
            notices: Told::new(),
            woken: Woken::nobody(),
        }
    }

    pub fn end(self) -> Share<N>
        ensures { result ≡ self.entry.share }
    {
        let Session {
            shared: _,
            share,
            last_epoch: _,
            served_at: _,
            notices: _,
            woken: _,
        } = self;
        share
    }

    /// How many commands the table had accepted after the last command, or list, of this session; 0
    /// before. It orders commands of all sessions: each accepted command has its own count; one that
    /// was refused or is a question has the count of the accepted command before it.
    pub fn served_at(&self) -> u64
        ensures { result ≡ self.now.served_at }
    {
        self.served_at
    }

    /// Serves a command. If it is accepted, it tells watchers as the table's telling says, and wakes
    /// the sessions whose wait it may have ended.
    pub fn ask<R: Wait>(&mut self, rt: &R, command: Command<'_>) -> Reply
        ensures accepted { accepts command.entry result.answer ≡ true → self.new.share ≡ self.old.share + 1 }
        ensures refused { accepts command.entry result.answer ≡ false → self.new.share ≡ self.old.share }
        ensures noted { self.new.last_epoch ≡ self.old.last_epoch }
        ensures step { IsServed command.entry result.answer result.told.items self.new.served_at }
        ensures woken { accepts command.entry result.answer ≡ true → AreWoken command.entry result.told.items self.new.woken }
        ensures count { N.opening + self.new.share ≤ self.new.served_at }
    {
        let mut told = Told::new();
        let answer = self.ask_telling(rt, command, &mut told);
        Reply { answer, told }
    }

    /// As `ask`, with the notices put into an empty list, which the caller may use again.
    pub fn ask_telling<R: Wait>(&mut self, rt: &R, command: Command<'_>, told: &mut Told) -> Answer
        requires empty { told.old.items ≡ [] }
        ensures accepted { accepts command.entry result ≡ true → self.new.share ≡ self.old.share + 1 }
        ensures refused { accepts command.entry result ≡ false → self.new.share ≡ self.old.share }
        ensures noted { self.new.last_epoch ≡ self.old.last_epoch }
        ensures step { IsServed command.entry result told.new.items self.new.served_at }
        ensures woken { accepts command.entry result ≡ true → AreWoken command.entry told.new.items self.new.woken }
        ensures count { N.opening + self.new.share ≤ self.new.served_at }
    {
        let mut guard = self.shared.latch.lock(rt);
        guard.law();
        let (answer, ended) = guard.serve_telling(&mut self.share, command, told);
        self.served_at = guard.accepted_beside(&mut self.share);
        if is_accepted(&command, &answer) {
            let _ = guard.tell_if_due(rt);
            self.woken = self.shared.wakes.wake(ended);
        }
        MutexGuard::unlock(guard);
        answer
    }

    /// What is published now. Its epoch is never before that of an earlier note.
    pub fn note<R: Wait>(&mut self, rt: &R) -> Note<N>
        ensures later { self.old.last_epoch ≤ last_epoch 0 result }
        ensures noted { self.new.last_epoch ≡ last_epoch 0 result }
        ensures share { (self.new.share ≡ self.old.share) × (self.new.served_at ≡ self.old.served_at) }
    {
        for _ in rt.forever() {
            let mut guard = self.shared.latch.lock(rt);
            let note = guard.note(rt);
            MutexGuard::unlock(guard);
            if self.last_epoch <= note.epoch() {
                self.last_epoch = note.epoch();
                return note;
            }
        }
        unreachable!()
    }

    /// What the table's manager has done since it was made, as `Shared::counters`. The session is
    /// unchanged.
    pub fn counters<R: Wait>(&self, rt: &R) -> Counters
        ensures { (g : GuardedView) × IsLawfulManager g.manager × (g.manager.accepted ≡ N.opening + g.book) × (result ≡ g.manager.counters) }
    {
        self.shared.counters(rt)
    }

    /// Locks a node; if the lock is left waiting, waits for its grant, or for why there is none.
    pub fn lock<R: Wait>(
        &mut self,
        rt: &R,
        txn: TxnId,
        node: NodeId,
        mode: Mode,
    ) -> Result<Grant, Stop>
        ensures noted { self.new.last_epoch ≡ self.old.last_epoch }
        ensures share { MatchResult result (λ _. self.new.share ≡ self.old.share + 1)
            (λ s. MatchBool (is_refusal s) ((self.old.share ≤ self.new.share) × (self.new.share ≤ self.old.share + 1)) (self.new.share ≡ self.old.share + 1)) }
        ensures grant { IfOk result (λ g. (g.txn ≡ txn) × (g.node ≡ node) × (is_at_least g.mode mode ≡ true)) }
        ensures step { (answer : AnAnswer) × (told : Notices) × IsServed (Lock txn node mode) answer told self.new.served_at
            × Gives txn node mode answer result × (is_refused answer ≡ false → AreWoken (Lock txn node mode) told self.new.woken) }
        ensures count { N.opening + self.new.share ≤ self.new.served_at }
    {
        self.notices.clear();
        let mut guard = self.shared.latch.lock(rt);
        guard.law();
        let (answer, ended) = guard.serve_lock(&mut self.share, txn, node, mode, &mut self.notices);
        self.served_at = guard.accepted_beside(&mut self.share);
        if let Answer::Refused(refusal) = answer {
            MutexGuard::unlock(guard);
            return Err(Stop::Refused(refusal));
        }
        let _ = guard.tell_if_due(rt);
        self.woken = self.shared.wakes.wake(ended);
        match answer {
            Answer::Granted(held) => {
                MutexGuard::unlock(guard);
                return Ok(Grant {
                    txn,
                    node,
                    mode: held,
                });
            }
            Answer::Victim => {
                MutexGuard::unlock(guard);
                return Err(Stop::Victim);
            }
            _ => {}
        }
        await_verdict(rt, self.shared, guard, txn, node, mode)
    }
}

// Waits until the request for this node is granted, or never will be.
pub(crate) fn await_verdict<'a, N: Naming, R: Wait>(
    rt: &R,
    shared: &'a Shared<N>,
    guard: MutexGuard<'a, Guarded<N>>,
    txn: TxnId,
    node: NodeId,
    mode: Mode,
) -> Result<Grant, Stop>
    ensures grant { IfOk result (λ g. (g.txn ≡ txn) × (g.node ≡ node) × (is_at_least g.mode mode ≡ true)) }
    ensures verdict { IsVerdict txn node mode result }
{
    let mut guard = guard;
    for _ in rt.forever() {
        if let Some(end) = guard.verdict(txn, node, mode) {
            guard.law();
            MutexGuard::unlock(guard);
            return end;
        }
        guard = shared.wakes.sleep(rt, guard, txn.slot);
    }
    unreachable!()
}
