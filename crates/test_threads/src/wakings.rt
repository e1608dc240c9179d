//! Each session is woken that sleeps for a transaction whose wait has ended, whichever command of a
//! list ended it, and however many there are. Each sleeps for a wait that another transaction's lock
//! began; one more session ends all waits at once.

use crate::player::{Deed, End};
use crate::stage::tell_all;
use crate::steps::Step;
use crate::story::{EACH_DETECTION, Flag, Tale};
use gl_modes::Mode::{S, X};

/// A session that sleeps for a transaction that waits for a mode of the root.
macro_rules! sleeper {
    ($txn:expr, $mode:expr) => {
        &[
            Deed::Raises(Flag::First),
            Deed::Awaits($txn, $mode, 0, End::Granted),
            Deed::Raises(Flag::Second),
        ]
    };
}

/// After all have slept for long, ends their waits by this list, of which this many commands are
/// answered; after all are awake, ends their transactions.
macro_rules! waker {
    ($list:expr, $answered:expr) => {
        &[
            Deed::Reaches(Flag::First, 3),
            Deed::WorksElsewhere(1000),
            Deed::Counts($list, $answered),
            Deed::Reaches(Flag::Second, 3),
            Deed::Takes(Step::Commit(1)),
            Deed::Takes(Step::Commit(2)),
            Deed::Takes(Step::Commit(3)),
        ]
    };
}

/// Three wait for S on a root, and are granted together.
const THREE: &[&[Step]] = &[&[
    Step::Root,
    Step::Begin,
    Step::Begin,
    Step::Begin,
    Step::Begin,
    Step::Lock(0, X, 0),
    Step::Lock(1, S, 0),
    Step::Lock(2, S, 0),
    Step::Lock(3, S, 0),
]];

const ALL_AT_ONCE: Tale = Tale {
    name: "all who are granted at once wake",
    before: THREE,
    players: 4,
    parts: &[
        sleeper!(1, S),
        sleeper!(2, S),
        sleeper!(3, S),
        waker!(&[Step::Commit(0)], 1),
    ],
    counted: None,
    raised: 3,
    is_over: true,
    by: EACH_DETECTION,
};

const WAKINGS: [Tale; 4] = [
    ALL_AT_ONCE,
    Tale {
        name: "they wake by the first of a list",
        parts: &[
            sleeper!(1, S),
            sleeper!(2, S),
            sleeper!(3, S),
            waker!(&[Step::Commit(0), Step::Root, Step::Root], 3),
        ],
        ..ALL_AT_ONCE
    },
    Tale {
        name: "they wake by a list that stops at a refusal",
        parts: &[
            sleeper!(1, S),
            sleeper!(2, S),
            sleeper!(3, S),
            waker!(&[Step::Commit(0), Step::Unlock(0, 0), Step::Root], 2),
        ],
        ..ALL_AT_ONCE
    },
    Tale {
        name: "all who sleep for one wake",
        before: &[&[
            Step::Root,
            Step::Begin,
            Step::Begin,
            Step::Lock(0, X, 0),
            Step::Lock(1, X, 0),
        ]],
        parts: &[
            sleeper!(1, X),
            sleeper!(1, X),
            sleeper!(1, X),
            &[
                Deed::Reaches(Flag::First, 3),
                Deed::WorksElsewhere(1000),
                Deed::Counts(&[Step::Commit(0)], 1),
                Deed::Reaches(Flag::Second, 3),
                Deed::Takes(Step::Commit(1)),
            ],
        ],
        ..ALL_AT_ONCE
    },
];

#[test]
fn whoever_sleeps_is_woken(rt: HostRuntime) {
    tell_all(&rt, rt.alloc(), &WAKINGS)
}
