//! Watchers look and learn notes while sessions work.

use crate::stage::{new_manager, nobody_lives, run_on};
use crate::story::{Entrant, Left, Story};
use crate::wanted::{allowed, same};
use gl_catalog::{Answer, Command};
use gl_modes::Mode::X;
use gl_modes::NodeId;
use gl_shared::{Grant, Naming, Session, Share, Shared, Telling, Watcher};
use gl_slots::{SLOTS, Slot, Slots};
use gl_table::{Detect, TxnId};
use gl_waits::Board;
use std::alloc::Global;
use std::process::Abort;
use std::sync::Wait;
use std::thread::Threads;

/// How often each session commits.
const COMMITS: u32 = 100;

/// Sessions lock one root in turn, and watchers look until the last board.
#[derive(Clone, Copy)]
pub struct Watched {
    root: NodeId,
    last: u64,
}

/// The free slots.
fn free_slots(board: &Board) -> Slots {
    let mut free = Slots::empty();
    for slot in 0..SLOTS {
        if board.ages[slot] == 0 {
            free.insert(slot as Slot);
        }
    }
    free
}

/// No slot waits for itself or for a free slot, and no free slot waits.
fn checks<R: Abort>(rt: &R, board: &Board) {
    let free = free_slots(board);
    for slot in 0..SLOTS {
        let row = Slots::from_bits(board.rows[slot]);
        assert!(rt; !row.contains(slot as Slot) && row.intersection(free).is_empty());
        assert!(rt; row.is_empty() || !free.contains(slot as Slot));
    }
}

/// The epoch of a look, which is at least `least`; `least` if there was no memory.
fn looks<N: Naming, R: Abort>(rt: &R, watcher: &mut Watcher<N>, least: u64) -> u64 {
    match watcher.look() {
        Some(board) => {
            assert!(rt; least <= board.epoch);
            checks(rt, &board);
            board.epoch
        }
        None => least,
    }
}

/// Looks, learns a note and looks, and then learns an older note and looks.
fn learns<N: Naming, R: Wait + Abort>(
    rt: &R,
    session: &mut Session<'_, N>,
    watcher: &mut Watcher<N>,
    least: u64,
) -> u64 {
    let older = session.note(rt);
    let seen = looks(rt, watcher, least);
    let newer = session.note(rt);
    assert!(rt; older.epoch() <= newer.epoch());
    let least = seen.max(newer.epoch());
    watcher.learn(newer);
    let seen = looks(rt, watcher, least);
    watcher.learn(older);
    looks(rt, watcher, seen)
}

/// Looks until the last board, at most a million times.
fn looks_on<N: Naming, R: Wait + Abort>(
    rt: &R,
    table: &Shared<N>,
    share: Share<N>,
    watcher: Watcher<N>,
    last: u64,
) -> Share<N> {
    let mut watcher = watcher;
    let mut session = Session::new(table, share);
    let mut seen = 0;
    for _ in 0..1000000u32 {
        seen = learns(rt, &mut session, &mut watcher, seen);
        if seen >= last {
            break;
        }
    }
    same(rt, seen, last);
    session.end()
}

/// Begins a transaction.
fn begins<N: Naming, R: Wait + Abort>(rt: &R, session: &mut Session<'_, N>) -> TxnId {
    let begun = match session.ask(rt, Command::Begin).answer {
        Answer::Begun(txn) => Some(txn),
        _ => None,
    };
    begun.expect(rt, "no transaction")
}

/// Begins, waits for X on the root and commits.
fn works_once<N: Naming, R: Wait + Abort>(rt: &R, session: &mut Session<'_, N>, root: NodeId) {
    let txn = begins(rt, session);
    let granted = Grant {
        txn,
        node: root,
        mode: X,
    };
    same(rt, session.lock(rt, txn, root, X), Ok(granted));
    same(
        rt,
        session.ask(rt, Command::Commit { txn }).answer,
        Answer::Done,
    );
}

/// Does that again and again.
fn works<N: Naming, R: Wait + Abort>(
    rt: &R,
    table: &Shared<N>,
    share: Share<N>,
    root: NodeId,
) -> Share<N> {
    let mut session = Session::new(table, share);
    for _ in 0..COMMITS {
        works_once(rt, &mut session, root);
    }
    session.end()
}

impl Watched {
    /// Looks if it has a watcher, and works if not.
    pub fn runs<N: Naming, R: Wait + Abort>(
        &self,
        rt: &R,
        alloc: Global,
        table: &Shared<N>,
        entrant: Entrant<N>,
    ) -> Left<N> {
        let Entrant {
            share,
            mut watchers,
            place: _,
        } = entrant;
        let share = match watchers.pop() {
            Some(watcher) => looks_on(rt, table, share, watcher, self.last),
            None => works(rt, table, share, self.root),
        };
        Left {
            share,
            diary: Vec::new(alloc),
        }
    }
}

/// Two sessions look while four work.
fn look_on<R: Threads + Wait + Abort + Sync>(rt: &R, alloc: Global, detect: Detect) {
    let mut manager = new_manager(rt, alloc, detect);
    let root = allowed(rt, manager.add_inner(&[]));
    // The root, and the begins, locks and commits of four sessions.
    let story = Watched { root, last: 1201 };
    let closed = run_on(
        rt,
        alloc,
        manager,
        Telling::Always,
        6,
        &Story::Watched(story),
    );
    same(rt, closed.book, 1200);
    same(rt, closed.manager.accepted(), story.last);
    assert!(rt; nobody_lives(&closed));
}

#[test]
fn watchers_look_on_while_sessions_work(rt: HostRuntime) {
    look_on(&rt, rt.alloc(), Detect::AtBlock);
    look_on(&rt, rt.alloc(), Detect::ByWatcher)
}
