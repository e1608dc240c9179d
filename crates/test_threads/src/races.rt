//! Two transactions hold S on one root, and their sessions wait for X on it; and a ring of waits: each
//! session's transaction holds its own root in X, and waits for the next root.

use crate::player::{Deed, End};
use crate::stage::{new_manager, tell_all, tell_over};
use crate::steps::{Made, Step};
use crate::story::{AT_BLOCK, BY_WATCHER, EACH_DETECTION, Flag, Tale};
use crate::wanted::allowed;
use gl_modes::Mode::{S, X};
use gl_modes::Refusal;
use gl_shared::{Stop, Telling};
use gl_table::Detect;
use gl_waits::SLOTS;
use std::alloc::Global;
use std::process::Abort;
use std::sync::Wait;
use std::thread::Threads;

/// A root, and two transactions that hold S on it, the older first.
const PAIR: &[&[Step]] = &[&[
    Step::Root,
    Step::Begin,
    Step::Begin,
    Step::Lock(0, S, 0),
    Step::Lock(1, S, 0),
]];

/// The first is granted, and commits.
const OLDER: &[Deed] = &[
    Deed::Locks(0, X, 0, End::Granted),
    Deed::Takes(Step::Commit(0)),
];

/// The second is condemned, and aborts.
const YOUNGER: &[Deed] = &[Deed::Locks(1, X, 0, End::Stops(Stop::Victim))];

const UPGRADE: Tale = Tale {
    name: "the younger of two upgrades gives way",
    before: PAIR,
    players: 3,
    parts: &[OLDER, YOUNGER, &[]],
    counted: Some(4), // Two locks, an abort and a commit.
    raised: 0,
    is_over: true,
    by: AT_BLOCK,
};

const SETTLED_UPGRADE: Tale = Tale {
    name: "the younger of two upgrades is settled",
    parts: &[OLDER, YOUNGER, &[Deed::SettlesVictim(1)]],
    counted: Some(5),
    by: BY_WATCHER,
    ..UPGRADE
};

#[test]
fn the_younger_of_two_upgrades_gives_way(rt: HostRuntime) {
    for _ in 0..100u32 {
        tell_all(&rt, rt.alloc(), &[UPGRADE, SETTLED_UPGRADE]);
    }
}

/// Both are suspects on a board. One wait is cancelled before the suspect is settled, which tells
/// nobody, and the other session's lock is granted.
const OLD_BOARDS: [Tale; 2] = [
    Tale {
        name: "the older of two suspects is cancelled before the younger is settled",
        before: PAIR,
        players: 3,
        parts: &[
            &[
                Deed::Locks(1, X, 0, End::Granted),
                Deed::Takes(Step::Commit(1)),
            ],
            &[
                Deed::Locks(0, X, 0, End::Stops(Stop::Refused(Refusal::NotWaiting))),
                Deed::Reaches(Flag::First, 1),
                Deed::Takes(Step::Commit(0)),
            ],
            &[
                Deed::SeesSuspect(1),
                Deed::Takes(Step::Cancel(0)),
                Deed::SettlesNobody(1),
                Deed::Raises(Flag::First),
            ],
        ],
        counted: Some(6),
        raised: 0,
        is_over: true,
        by: BY_WATCHER,
    },
    Tale {
        name: "the younger of two suspects is cancelled before it is settled",
        before: PAIR,
        players: 3,
        parts: &[
            &[
                Deed::Locks(0, X, 0, End::Granted),
                Deed::Takes(Step::Commit(0)),
            ],
            &[
                Deed::Locks(1, X, 0, End::Stops(Stop::Refused(Refusal::NotWaiting))),
                Deed::Reaches(Flag::First, 1),
                Deed::Takes(Step::Commit(1)),
            ],
            &[
                Deed::SeesSuspect(1),
                Deed::Takes(Step::Cancel(1)),
                Deed::SettlesNobody(1),
                Deed::Raises(Flag::First),
            ],
        ],
        counted: Some(6),
        raised: 0,
        is_over: true,
        by: BY_WATCHER,
    },
];

#[test]
fn a_suspect_of_an_old_board_is_settled(rt: HostRuntime) {
    tell_all(&rt, rt.alloc(), &OLD_BOARDS)
}

/// Of a ring exactly one is the victim.
const RING: Tale = Tale {
    name: "one gives way in a ring",
    before: &[],
    players: SLOTS + 1,
    parts: &[&[Deed::LocksNext], &[]],
    counted: Some(256), // 128 locks, 127 commits and an abort.
    raised: 1,
    is_over: true,
    by: EACH_DETECTION,
};

const SETTLED_RING: Tale = Tale {
    name: "the youngest of a ring is settled",
    parts: &[&[Deed::LocksNext], &[Deed::SettlesVictim(SLOTS - 1)]],
    counted: Some(257),
    ..RING
};

/// Plays this scenario with a ring in which each holds its root.
fn break_ring<R: Threads + Wait + Abort + Sync>(rt: &R, alloc: Global, detect: Detect, tale: Tale) {
    let mut manager = new_manager(rt, alloc, detect);
    let mut made = Made::new();
    for _ in 0..SLOTS {
        let root = allowed(rt, manager.add_inner(&[]));
        let txn = allowed(rt, manager.begin());
        allowed(rt, manager.try_lock(txn, root, X));
        made.keep_node(root);
        made.keep_txn(txn);
    }
    tell_over(rt, alloc, manager, made, Telling::Always, tale)
}

#[test]
fn one_gives_way_in_a_ring(rt: HostRuntime) {
    break_ring(&rt, rt.alloc(), Detect::AtBlock, RING);
    break_ring(&rt, rt.alloc(), Detect::ByWatcher, SETTLED_RING)
}
