//! Lists of commands that need no memory: only the list itself can be refused its room.

ghost use Rattle.std.specs.Prelude.{◌≤◌};

use crate::bill::Bill;
use crate::watch::Watch;
use gl_catalog::{Answer, Command, Manager, Reply, run_commands};
use gl_modes::Mode::{IX, NL, S};
use gl_modes::{Mode, NodeId, Refusal};
use gl_table::{Detect, Notice, TxnId};
use std::alloc::Global;

pub(crate) fn run(bill: &mut Bill<'_>) {
    let differs = answers_in_order(bill.alloc());
    bill.tell("manager: a list is answered in order", differs);
    let differs = applies_a_list(bill.alloc());
    bill.tell("manager: a refused list applies nothing", differs);
}

const DB: NodeId = NodeId { key: 0, birth: 1 };

const A: TxnId = TxnId { slot: 0, age: 1 };

const B: TxnId = TxnId { slot: 1, age: 2 };

const C: TxnId = TxnId { slot: 2, age: 3 };

/// The answer to a command, and the only notice.
type Said = (Answer, Option<(TxnId, Notice)>);

/// A manager with a root; both are retried if refused.
fn open(alloc: Global, detect: Detect, most: usize) -> Option<Manager>
    requires some { 1 ≤ most }
    requires few { most ≤ 128 }
{
    let mut manager = match Manager::new(alloc, detect, most) {
        Ok(manager) => manager,
        Err(_) => Manager::new(alloc, detect, most).ok()?,
    };
    if manager.add_inner(&[]).is_err() {
        manager.add_inner(&[]).ok()?;
    }
    Some(manager)
}

/// Locks the root; retried if memory is refused.
fn asks(manager: &mut Manager, txn: TxnId, mode: Mode) -> Answer {
    let lock = Command::Lock {
        txn,
        node: DB,
        mode,
    };
    match manager.apply(lock).answer {
        Answer::Refused(Refusal::NoMemory) => manager.apply(lock).answer,
        answer => answer,
    }
}

/// Runs a list, with these answers. If its room was refused, nothing may have been accepted, and it is
/// retried.
fn runs(
    alloc: Global,
    manager: &mut Manager,
    commands: &[Command<'_>],
    wanted: &[Said],
    watch: &mut Watch,
) {
    watch.step();
    let (accepted, ages) = (manager.accepted(), manager.board().ages);
    let replies = match run_commands(alloc, manager, commands) {
        Err(Refusal::NoMemory) => {
            watch.same(manager.accepted(), accepted);
            watch.same(manager.board().ages, ages);
            run_commands(alloc, manager, commands)
        }
        replies => replies,
    };
    match replies {
        Ok(replies) => hears(replies.as_slice(), wanted, watch),
        Err(_) => watch.holds(false),
    }
}

/// The replies must be these.
fn hears(replies: &[Reply], wanted: &[Said], watch: &mut Watch) {
    watch.same(replies.len(), wanted.len());
    for (reply, (answer, told)) in replies.iter().zip(wanted) {
        watch.same(reply.answer, *answer);
        watch.same(reply.told.as_slice().first().copied(), *told);
        watch.same(reply.told.len(), usize::from(told.is_some()));
    }
}

/// Two begins are accepted, a third is not.
fn answers_in_order(alloc: Global) -> Option<u32> {
    let mut watch = Watch::new();
    let Some(mut manager) = open(alloc, Detect::ByWatcher, 2) else {
        return Some(0);
    };
    let commands = [
        Command::Begin,
        Command::Begin,
        Command::Begin,
        Command::Group { node: DB },
    ];
    let wanted = [
        (Answer::Begun(A), None),
        (Answer::Begun(B), None),
        (Answer::Refused(Refusal::TooManyTxns), None),
        (Answer::Mode(NL), None),
    ];
    runs(alloc, &mut manager, &commands, &wanted, &mut watch);
    watch.same(manager.accepted(), 3);
    watch.same(manager.board().ages[1], 2);
    watch.differs()
}

/// A commit in the middle of a list grants a wait.
fn applies_a_list(alloc: Global) -> Option<u32> {
    let mut watch = Watch::new();
    let Some(mut manager) = open(alloc, Detect::AtBlock, 64) else {
        return Some(0);
    };
    watch.same(manager.begin(), Ok(A));
    watch.same(manager.begin(), Ok(B));
    watch.same(asks(&mut manager, A, S), Answer::Granted(S));
    watch.same(asks(&mut manager, B, IX), Answer::Waiting);
    let commands = [
        Command::Begin,
        Command::Group { node: DB },
        Command::Commit { txn: B },
        Command::Commit { txn: A },
        Command::Held { txn: B, node: DB },
    ];
    let wanted = [
        (Answer::Begun(C), None),
        (Answer::Mode(S), None),
        (Answer::Refused(Refusal::TxnWaiting), None),
        (Answer::Done, Some((B, Notice::Granted(DB, IX)))),
        (Answer::Mode(IX), None),
    ];
    runs(alloc, &mut manager, &commands, &wanted, &mut watch);
    watch.same(manager.accepted(), 7);
    watch.differs()
}
