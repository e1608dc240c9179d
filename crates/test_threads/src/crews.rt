//! Crews: what they do at a gate, and how they end if sessions are stopped.

ghost use Rattle.std.specs.Prelude.{◌≡◌, ◌+◌, ◌<◌, ◌≤◌, IfOk};

use crate::wanted::same;
use gl_catalog::{Answer, Command, Manager};
use gl_crew::{CrewFault, Ended, Field, Gate, Point, RecordRounds, Work, crew_over, crew_with};
use gl_modes::{Mode, NodeId, Refusal};
use gl_shared::{Naming, Session, Stop};
use gl_table::{Detect, TxnId};
use std::alloc::Global;
use std::process::Abort;
use std::sync::{Mutex, MutexGuard, Wait};
use std::thread::{Threads, yield_now};

/// How often each of two sessions has reached each point.
#[derive(Clone, Copy, Debug, PartialEq, Eq, Drop)]
struct Seen {
    locked: [u32; 2],
    committed: [u32; 2],
}

/// A gate that stops each of two sessions after its lock until the other has its own.
#[derive(Drop)]
struct Meeting {
    seen: Mutex<Seen>,
}

impl Meeting {
    fn new() -> Meeting {
        Meeting {
            seen: Mutex::new(Seen {
                locked: [0; 2],
                committed: [0; 2],
            }),
        }
    }
}

/// Counts a call.
fn note(seen: &mut Seen, session: u32, at: Point) {
    let counts = match at {
        Point::Locked => &mut seen.locked,
        Point::Committed => &mut seen.committed,
    };
    if session == 1 {
        counts[0] = counts[0].saturating_add(1);
    }
    if session == 2 {
        counts[1] = counts[1].saturating_add(1);
    }
}

/// Whether both sessions have their locks.
fn have_met<R: Wait>(rt: &R, meeting: &Meeting) -> bool {
    let seen = meeting.seen.lock(rt);
    let met = seen.locked[0] > 0 && seen.locked[1] > 0;
    MutexGuard::unlock(seen);
    met
}

impl Gate for Meeting {
    fn pass<R: Wait>(&self, rt: &R, session: u32, _round: u32, at: Point) -> bool {
        let mut seen = self.seen.lock(rt);
        note(&mut *seen, session, at);
        MutexGuard::unlock(seen);
        if at == Point::Committed {
            return true;
        }
        for _ in 0..1_000_000u32 {
            if have_met(rt, self) {
                return true;
            }
            yield_now();
        }
        false
    }
}

/// A gate that is shut at one point.
#[derive(Drop)]
struct Shut {
    at: Point,
}

impl Gate for Shut {
    fn pass<R: Wait>(&self, _rt: &R, _session: u32, _round: u32, at: Point) -> bool {
        at != self.at
    }
}

/// What a crew of two sessions with a gate counts. It has no contract, so that the contract of
/// `crew_with` is no part of a test's proof.
fn counted_behind<G: Gate + Sync, R: Threads + Wait + Sync>(
    rt: &R,
    alloc: Global,
    gate: &G,
    detect: Detect,
) -> Result<u64, CrewFault> {
    crew_with(rt, alloc, gate, 2, 1, detect)
}

/// Two sessions hold their locks at the same time; a crew that ran them one by one would never end.
/// Each session reaches each point once.
fn meets<R: Threads + Wait + Sync + Abort>(rt: &R, alloc: Global, detect: Detect) {
    let meeting = Meeting::new();
    let ended = counted_behind(rt, alloc, &meeting, detect);
    let Meeting { seen } = meeting;
    same(rt, ended, Ok(14));
    let wanted = Seen {
        locked: [1; 2],
        committed: [1; 2],
    };
    same(rt, seen.into_inner(), wanted);
}

#[test]
fn sessions_work_at_the_same_time(rt: HostRuntime) {
    meets(&rt, rt.alloc(), Detect::AtBlock);
    meets(&rt, rt.alloc(), Detect::ByWatcher);
}

/// A crew that the gate stops says so, and ends.
#[test]
fn a_shut_gate_stops_a_crew(rt: HostRuntime) {
    for at in [Point::Locked, Point::Committed] {
        let gate = Shut { at };
        let ended = counted_behind(&rt, rt.alloc(), &gate, Detect::AtBlock);
        same(&rt, ended, Err(CrewFault::Gate));
        let ended = counted_behind(&rt, rt.alloc(), &gate, Detect::ByWatcher);
        same(&rt, ended, Err(CrewFault::Gate));
    }
}

/// A new manager for eight transactions at once.
fn new_manager<R: Abort>(rt: &R, alloc: Global, detect: Detect) -> Manager {
    match Manager::new(alloc, detect, 8) {
        Ok(manager) => manager,
        Err(_) => panic!(rt; "no memory"),
    }
}

/// A new root.
fn add_root<R: Abort>(rt: &R, manager: &mut Manager) -> NodeId {
    match manager.apply(Command::Inner { parents: &[] }).answer {
        Answer::Node(node) => node,
        _ => panic!(rt; "no node"),
    }
}

/// How a crew of this many sessions ends after one round of this work.
fn ended_after<W: Work + Sync, R: Threads + Wait + Sync + Abort>(
    rt: &R,
    alloc: Global,
    manager: Manager,
    work: &W,
    sessions: u32,
) -> Ended
    requires { (0 < sessions) × (sessions ≤ 128) }
{
    match crew_over(rt, alloc, manager, work, sessions, 1) {
        Ok(ended) => ended,
        Err(_) => panic!(rt; "no memory"),
    }
}

/// Whether no transaction lives.
fn nobody_lives(manager: &Manager) -> bool {
    for slot in 0..128u8 {
        if manager.living(slot).is_some() {
            return false;
        }
    }
    true
}

/// Two sessions without a record: each begins, locks what is above it, is refused and aborts.
fn stops<R: Threads + Wait + Sync + Abort>(rt: &R, alloc: Global, detect: Detect) {
    let mut manager = new_manager(rt, alloc, detect);
    let root = add_root(rt, &mut manager);
    let field = Field {
        path: [root; 4],
        records: Vec::new(alloc),
    };
    let gate = Shut { at: Point::Locked };
    let work = RecordRounds { field, gate: &gate };
    let ended = ended_after(rt, alloc, manager, &work, 2);
    let refused = CrewFault::Refused(Refusal::NoSuchNode);
    same(rt, ended.faults.as_slice(), [Some(refused); 2].as_slice());
    same(rt, ended.count, 12);
    assert!(rt; nobody_lives(&ended.manager), "a transaction is left");
}

#[test]
fn a_session_that_is_stopped_aborts(rt: HostRuntime) {
    stops(&rt, rt.alloc(), Detect::AtBlock);
    stops(&rt, rt.alloc(), Detect::ByWatcher);
}

/// Work in which all sessions except the first fail, each in its own way.
struct Failing;

impl Work for Failing {
    ghost commands = { 0 };

    fn round<N: Naming, R: Wait>(
        &self,
        _rt: &R,
        _session: &mut Session<'_, N>,
        number: u32,
        _round: u32,
    ) -> Result<(), CrewFault> {
        match number {
            1 => Ok(()),
            2 => Err(CrewFault::Refused(Refusal::NoSuchTxn)),
            _ => Err(CrewFault::Gate),
        }
    }
}

/// Of several faults, that of the session with the least number is answered.
#[test]
fn the_first_fault_is_answered(rt: HostRuntime) {
    let manager = new_manager(&rt, rt.alloc(), Detect::AtBlock);
    let ended = ended_after(&rt, rt.alloc(), manager, &Failing, 3);
    let refused = CrewFault::Refused(Refusal::NoSuchTxn);
    let wanted = [None, Some(refused), Some(CrewFault::Gate)];
    same(&rt, ended.faults.as_slice(), wanted.as_slice());
    same(&rt, ended.answer(), Err(refused));
}

/// Two sessions that lock the same two nodes in X, in opposite orders, and meet in between.
#[derive(Drop)]
struct Crossing {
    nodes: [NodeId; 2],
    meeting: Meeting,
}

impl Work for Crossing {
    ghost commands = { 4 };

    fn round<N: Naming, R: Wait>(
        &self,
        rt: &R,
        session: &mut Session<'_, N>,
        number: u32,
        round: u32,
    ) -> Result<(), CrewFault> {
        let txn = begins(rt, session)?;
        match crosses(rt, self, session, number, round, txn) {
            Ok(()) => commits(rt, session, txn),
            Err(_) => {
                session.ask(rt, Command::Abort { txn });
                Err(CrewFault::Refused(Refusal::TxnCondemned))
            }
        }
    }
}

/// Begins a transaction.
fn begins<N: Naming, R: Wait>(rt: &R, session: &mut Session<'_, N>) -> Result<TxnId, CrewFault>
    ensures { IfOk result (λ _. session.new.share ≡ session.old.share + 1) }
{
    match session.ask(rt, Command::Begin).answer {
        Answer::Begun(txn) => Ok(txn),
        _ => Err(CrewFault::Gate),
    }
}

/// Locks the two nodes, the second of them after both sessions have locked their first.
fn crosses<N: Naming, R: Wait>(
    rt: &R,
    work: &Crossing,
    session: &mut Session<'_, N>,
    number: u32,
    round: u32,
    txn: TxnId,
) -> Result<(), Stop>
    ensures { IfOk result (λ _. session.new.share ≡ session.old.share + 2) }
{
    let [left, right] = work.nodes;
    let (first, last) = if number == 1 {
        (left, right)
    } else {
        (right, left)
    };
    session.lock(rt, txn, first, Mode::X)?;
    work.meeting.pass(rt, number, round, Point::Locked);
    session.lock(rt, txn, last, Mode::X)?;
    Ok(())
}

/// Ends a transaction.
fn commits<N: Naming, R: Wait>(
    rt: &R,
    session: &mut Session<'_, N>,
    txn: TxnId,
) -> Result<(), CrewFault>
    ensures { IfOk result (λ _. session.new.share ≡ session.old.share + 1) }
{
    match session.ask(rt, Command::Commit { txn }).answer {
        Answer::Done => Ok(()),
        _ => Err(CrewFault::Gate),
    }
}

/// A deadlock of two sessions ends: one is the victim and aborts, and the other commits.
fn frees<R: Threads + Wait + Sync + Abort>(rt: &R, alloc: Global, detect: Detect) -> u64 {
    let mut manager = new_manager(rt, alloc, detect);
    let work = Crossing {
        nodes: [add_root(rt, &mut manager), add_root(rt, &mut manager)],
        meeting: Meeting::new(),
    };
    let ended = ended_after(rt, alloc, manager, &work, 2);
    let condemned = CrewFault::Refused(Refusal::TxnCondemned);
    same(rt, ended.answer(), Err(condemned));
    same(rt, ended.faults.iter().flatten().count(), 1);
    same(rt, ended.manager.counters().victims, 1);
    assert!(rt; nobody_lives(&ended.manager), "a transaction is left");
    ended.count
}

/// With detection by a watcher only the watcher ends a deadlock, by a settle that counts.
#[test]
fn the_lookout_settles_a_deadlock(rt: HostRuntime) {
    same(&rt, frees(&rt, rt.alloc(), Detect::AtBlock), 8);
    let count = frees(&rt, rt.alloc(), Detect::ByWatcher);
    assert!(rt; count >= 9, "nobody asked for a settle");
}
