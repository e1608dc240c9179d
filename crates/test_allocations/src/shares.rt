//! A shared table is made, told and ended. If a telling finds no memory, watchers keep the board
//! before, until the next command is told.

ghost use Rattle.std.specs.Prelude.{◌≡◌};
ghost use Rattle.gl_table.specs.Table.{board_of};
ghost use Rattle.gl_catalog.specs.Manager.{state_of};

use crate::bill::Bill;
use crate::watch::Watch;
use gl_catalog::{Answer, Command, Manager};
use gl_modes::Mode::{IX, X};
use gl_modes::{Mode, NodeId, Refusal};
use gl_shared::{Naming, NotAll, Parts, Session, Share, Shared, Watcher, gather};
use gl_table::{Detect, TxnId};
use std::alloc::Global;
use std::marker::Brand;
use std::sync::Wait;

pub(crate) fn run<R: Wait>(rt: &R, bill: &mut Bill<'_>) {
    let mut watch = Watch::new();
    for _ in 0..2 {
        match share_table(rt, bill.alloc(), &mut watch) {
            Err(Refusal::NoMemory) => watch.step(),
            ended => {
                watch.holds(ended.is_ok());
                return bill.tell("sessions: a table is shared", watch.differs());
            }
        }
    }
    bill.tell("sessions: a table is shared", Some(0));
}

/// A table from start to end; `NoMemory` if it could not be made.
fn share_table<R: Wait>(rt: &R, alloc: Global, watch: &mut Watch) -> Result<(), Refusal> {
    let manager = Manager::new(alloc, Detect::AtBlock, 8)?;
    let parts = Parts::new(rt, alloc, manager, 2, 2)?;
    share_under_name::<Brand, R>(rt, alloc, parts, watch)
}

/// A session, a watcher that looks after each command, and the counts.
struct Turns<'a, 'b, N: Naming, R: Wait> {
    rt: &'b R,
    session: Session<'a, N>,
    watcher: Watcher<N>,
    /// How many commands were accepted.
    accepted: u64,
    /// How many of them were not told.
    untold: u32,
}

impl<N: Naming, R: Wait> Turns<'_, '_, N, R> {
    /// The epoch of a look.
    fn epoch(&mut self) -> Option<u64> {
        self.watcher.look().map(|board| board.epoch)
    }

    /// Counts what was accepted. It is told; if there was no memory for that, which happens at most
    /// once, a look returns the board before.
    fn count(&mut self, accepted: u64, before: Option<u64>, watch: &mut Watch) {
        self.accepted = self.accepted.saturating_add(accepted);
        let seen = self.epoch();
        if seen != Some(self.accepted) {
            watch.same(seen, before);
            self.untold = self.untold.saturating_add(1);
        }
        watch.holds(self.untold <= 1);
    }

    /// Sends a command. If an allocation failed, nothing is told, and the command is retried.
    fn ask(&mut self, command: Command<'_>, watch: &mut Watch) -> Answer {
        watch.step();
        let before = self.epoch();
        let mut answer = self.session.ask(self.rt, command).answer;
        if answer == Answer::Refused(Refusal::NoMemory) {
            watch.same(self.epoch(), before);
            answer = self.session.ask(self.rt, command).answer;
        }
        watch.holds(!matches!(answer, Answer::Refused(_)));
        self.count(1, before, watch);
        answer
    }

    /// Sends all at once, and retries those that were not served.
    fn ask_all(&mut self, alloc: Global, commands: &[Command<'_>], watch: &mut Watch) {
        watch.step();
        let before = self.epoch();
        let served = match self.session.ask_all(self.rt, alloc, commands) {
            Ok(answers) => accepted_of(answers.as_slice()),
            Err(_) => 0,
        };
        self.count(served as u64, before, watch);
        for (place, command) in commands.iter().enumerate() {
            if served <= place {
                self.ask(*command, watch);
            }
        }
    }

    /// The node that a command makes.
    fn make(&mut self, command: Command<'_>, watch: &mut Watch) -> NodeId {
        match self.ask(command, watch) {
            Answer::Node(node) => node,
            _ => NodeId::NONE,
        }
    }

    /// Begins a transaction.
    fn begin(&mut self, watch: &mut Watch) -> TxnId {
        match self.ask(Command::Begin, watch) {
            Answer::Begun(txn) => txn,
            _ => TxnId::NONE,
        }
    }

    /// Two transactions lock a file, one after the other.
    fn run(&mut self, alloc: Global, watch: &mut Watch) {
        let root = self.make(Command::Inner { parents: &[] }, watch);
        let file = self.make(Command::File { parents: &[root] }, watch);
        let (first, second) = (self.begin(watch), self.begin(watch));
        self.ask_all(alloc, &path(first, root, file), watch);
        let [above, below] = path(second, root, file);
        let granted = self.ask(above, watch);
        watch.same(granted, Answer::Granted(IX));
        let waits = self.ask(below, watch);
        watch.same(waits, Answer::Waiting);
        let done = self.ask(Command::Commit { txn: first }, watch);
        watch.same(done, Answer::Done);
        let grant = self.session.await_grant(self.rt, second, file, X);
        watch.holds(grant.is_ok());
    }
}

/// IX on a root and X on its file.
fn path(txn: TxnId, root: NodeId, file: NodeId) -> [Command<'static>; 2] {
    [lock(txn, root, IX), lock(txn, file, X)]
}

fn lock(txn: TxnId, node: NodeId, mode: Mode) -> Command<'static> {
    Command::Lock { txn, node, mode }
}

/// How many answers are no refusals.
fn accepted_of(answers: &[Answer]) -> usize {
    answers
        .iter()
        .filter(|answer| !matches!(answer, Answer::Refused(_)))
        .count()
}

/// The same under its name.
fn share_under_name<N: Naming, R: Wait>(
    rt: &R,
    alloc: Global,
    parts: Parts,
    watch: &mut Watch,
) -> Result<(), Refusal>
    requires name { parts.blank.name ≡ N.name }
    requires parts { parts.blank.parts ≡ N.parts }
    requires shares { parts.shares ≡ N.shares }
    requires opening { (parts.manager.accepted ≡ N.opening) × (parts.manager.table.detect ≡ N.detect) }
    requires book { (parts.line.book ≡ N.book) × (board_of (state_of parts.manager) ≡ N.first) }
{
    let (shared, mut shares, mut watchers) = Shared::<N>::new(rt, alloc, parts)?;
    let mut counted = None;
    if let (Some(share), Some(watcher)) = (shares.pop(), watchers.pop()) {
        let mut turns = Turns {
            rt,
            session: Session::new(&shared, share),
            watcher,
            accepted: 0,
            untold: 0,
        };
        turns.run(alloc, watch);
        let Turns {
            rt: _,
            session,
            watcher: _,
            accepted,
            untold: _,
        } = turns;
        let _ = shares.push(session.end());
        counted = Some(accepted);
    }
    watch.step();
    watch.same(book_of(rt, shared, shares), counted);
    Ok(())
}

/// The count of the book, if all shares are returned.
fn book_of<N: Naming, R: Wait>(rt: &R, shared: Shared<N>, shares: Vec<Share<N>>) -> Option<u64> {
    match gather(rt, shared, shares) {
        Ok(closed) => Some(closed.book),
        Err(NotAll { shared, shares: _ }) => {
            shared.abandon(rt);
            None
        }
    }
}
