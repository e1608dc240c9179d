//! Lists of commands in one critical section: what an engine locks a path with, from the root down.

ghost use Rattle.std.specs.Prelude.{◌≡◌, ◌+◌, ◌≤◌, [], true, IfErr, IfOk, OnErr, length, vec_capacity};
ghost use Rattle.gl_modes.specs.Modes.{is_at_least};
ghost use Rattle.gl_catalog.specs.Manager.{state_of};
ghost use Rattle.gl_shared.specs.Batches.{AreServed, Serves, Stops, accepted_in, goes_on};
ghost use Rattle.gl_shared.specs.Sessions.{IsVerdict};
ghost use Rattle.gl_wakes.specs.Wakes.{HasEnded};

use crate::guarded::Guarded;
use crate::naming::Naming;
use crate::session::{Session, await_verdict};
use crate::share::Share;
use gl_catalog::{Answer, Command};
use gl_modes::{Mode, NodeId, Refusal};
use gl_slots::Slots;
use gl_table::{Told, TxnId};
use gl_wakes::{Grant, Stop};
use std::alloc::Global;
use std::sync::{MutexGuard, Wait};

/// Whether the next command of a list is served after this answer.
fn goes_on(answer: &Answer) -> bool
    ensures { result ≡ goes_on answer.now }
{
    !matches!(
        answer,
        Answer::Refused(_) | Answer::Waiting | Answer::Victim
    )
}

/// Serves commands up to the first after which the list stops, adds their answers to the list, and
/// returns the slots whose wait they may have ended.
fn serve_all<N: Naming>(
    guarded: &mut Guarded<N>,
    share: &mut Share<N>,
    commands: &[Command<'_>],
    told: &mut Told,
    answers: &mut Vec<Answer>,
) -> Slots
    requires none { answers.old.items ≡ [] }
    requires room { vec_capacity answers.old ≡ length commands.now }
    ensures run { Serves guarded.old commands.now answers.new.items guarded.new }
    ensures stops { Stops commands.now answers.new.items }
    ensures share { share.new ≡ share.old + accepted_in commands.now answers.new.items }
    ensures book { guarded.new.book ≡ guarded.old.book + accepted_in commands.now answers.new.items }
    ensures list { guarded.new.list ≡ guarded.old.list }
    ensures ended { HasEnded (state_of guarded.old.manager) (state_of guarded.new.manager) result }
{
    let mut ended = Slots::empty();
    for command in commands {
        told.clear();
        let (answer, more) = guarded.serve_telling(share, *command, told);
        ended = ended.union(more);
        let last = !goes_on(&answer);
        answers.push_reserved(answer);
        if last {
            return ended;
        }
    }
    ended
}

impl<'a, N: Naming> Session<'a, N> {
    /// Serves commands in order in one critical section, up to the first that is refused, is left
    /// waiting, or makes its transaction a victim, and answers each that was served. Watchers are told
    /// once. Room for all answers is made first: after `NoMemory`, the only refusal, nothing was
    /// served. `await_grant` awaits a lock that was left waiting.
    pub fn ask_all<R: Wait>(
        &mut self,
        rt: &R,
        alloc: Global,
        commands: &[Command<'_>],
    ) -> Result<Vec<Answer>, Refusal>
        ensures run { IfOk result (λ answers. AreServed commands.now answers.items self.new.served_at self.new.woken) }
        ensures count { IfOk result (λ _. N.opening + self.new.share ≤ self.new.served_at) }
        ensures stops { IfOk result (λ answers. Stops commands.now answers.items) }
        ensures share { IfOk result (λ answers. self.new.share ≡ self.old.share + accepted_in commands.now answers.items) }
        ensures refused { IfErr result (λ refusal. refusal ≡ Refusal.NoMemory) }
        ensures err { OnErr result ((self.new.share ≡ self.old.share) × (self.new.served_at ≡ self.old.served_at)) }
        ensures noted { self.new.last_epoch ≡ self.old.last_epoch }
    {
        let Ok(mut answers) = Vec::with_capacity(alloc, commands.len()) else {
            return Err(Refusal::NoMemory);
        };
        let mut guard = self.shared.latch.lock(rt);
        guard.law();
        let before = guard.served;
        let ended = serve_all(
            &mut guard,
            &mut self.share,
            commands,
            &mut self.notices,
            &mut answers,
        );
        self.served_at = guard.accepted_beside(&mut self.share);
        if guard.served != before {
            let _ = guard.tell_if_due(rt);
            self.woken = self.shared.wakes.wake(ended);
        }
        MutexGuard::unlock(guard);
        Ok(answers)
    }

    /// Waits for the end of a lock that `ask_all` left waiting: its grant, or why there is none.
    pub fn await_grant<R: Wait>(
        &self,
        rt: &R,
        txn: TxnId,
        node: NodeId,
        mode: Mode,
    ) -> Result<Grant, Stop>
        ensures grant { IfOk result (λ g. (g.txn ≡ txn) × (g.node ≡ node) × (is_at_least g.mode mode ≡ true)) }
        ensures verdict { IsVerdict txn node mode result }
    {
        let guard = self.shared.latch.lock(rt);
        await_verdict(rt, self.shared, guard, txn, node, mode)
    }
}
