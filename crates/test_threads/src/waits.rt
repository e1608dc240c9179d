//! The end of a wait, for a session that sleeps in `lock` in its own thread: it is told the outcome,
//! whatever ended the wait.

use crate::player::{Deed, End};
use crate::rows::PRELUDE;
use crate::stage::tell_all;
use crate::steps::Step;
use crate::story::{AT_BLOCK, BY_WATCHER, EACH_WAY, Tale};
use gl_catalog::Answer;
use gl_modes::Mode::{IS, IX, S, X};
use gl_modes::Refusal;
use gl_shared::Stop;

/// Transaction 0 holds a root, for which 1 will wait.
const HELD: &[&[Step]] = &[&[Step::Root, Step::Begin, Step::Begin, Step::Lock(0, X, 0)]];

/// Both hold the root in S, and 1 will wait for X.
const BOTH_READ: &[&[Step]] = &[&[
    Step::Root,
    Step::Begin,
    Step::Begin,
    Step::Lock(0, S, 0),
    Step::Lock(1, S, 0),
]];

/// Transaction 1 waits for X on the root, is granted it, and holds it.
const GETS_IT: &[Deed] = &[
    Deed::Locks(1, X, 0, End::Granted),
    Deed::Answers(Step::Held(1, 0), Answer::Mode(X)),
];

/// Transaction 1 waits for X on the root until another thread aborts it.
const IS_ABORTED: &[Deed] = &[Deed::Locks(1, X, 0, End::Stops(Stop::Refused(Refusal::NoSuchTxn)))];

/// It waits for X on the root, and is condemned.
const IS_THE_VICTIM: &[Deed] = &[Deed::Locks(1, X, 0, End::Stops(Stop::Victim))];

/// It waits for X on the root, and is granted by a commit.
const PLAIN: Tale = Tale {
    name: "a waiter is granted",
    before: &[&[Step::Root, Step::Begin, Step::Begin, Step::Lock(0, S, 0)]],
    players: 2,
    parts: &[GETS_IT, &[Deed::SeesWait(1), Deed::Takes(Step::Commit(0))]],
    counted: None,
    raised: 0,
    is_over: false,
    by: EACH_WAY,
};

const WAITS: [Tale; 11] = [
    PLAIN,
    Tale {
        name: "a record moves",
        before: &[
            PRELUDE,
            &[
                Step::Begin,
                Step::Begin,
                Step::Lock(1, IX, 0),
                Step::Lock(1, IX, 1),
                Step::Lock(1, IX, 2),
                Step::Lock(1, IX, 3),
                Step::Lock(1, X, 5),
                Step::Lock(1, IX, 4),
                Step::Lock(2, IX, 0),
                Step::Lock(2, IX, 1),
                Step::Lock(2, IX, 2),
                Step::Lock(2, IX, 3),
            ],
        ],
        parts: &[
            &[Deed::Locks(2, X, 5, End::Stops(Stop::Moved))],
            &[Deed::SeesWait(2), Deed::Takes(Step::Rekey(1, 5, 2, 150))],
        ],
        ..PLAIN
    },
    Tale {
        name: "a record goes",
        before: &[
            PRELUDE,
            &[
                Step::Begin,
                Step::Begin,
                Step::Lock(1, IX, 0),
                Step::Lock(1, IX, 1),
                Step::Lock(1, IX, 2),
                Step::Lock(1, IX, 3),
                Step::Lock(1, X, 5),
                Step::Lock(2, IS, 0),
                Step::Lock(2, IS, 1),
            ],
        ],
        parts: &[
            &[Deed::Locks(2, S, 5, End::Stops(Stop::Gone))],
            &[Deed::SeesWait(2), Deed::Takes(Step::Delete(1, 5))],
        ],
        ..PLAIN
    },
    Tale {
        name: "a file moves",
        before: &[&[
            Step::Root,
            Step::Inner(0),
            Step::Inner(0),
            Step::File(1),
            Step::Begin,
            Step::Begin,
            Step::Lock(0, IX, 0),
            Step::Lock(0, IX, 1),
            Step::Lock(0, IX, 2),
            Step::Lock(0, X, 3),
            Step::Lock(1, IS, 0),
            Step::Lock(1, IS, 1),
        ]],
        parts: &[
            &[Deed::Locks(1, S, 3, End::Stops(Stop::Moved))],
            &[Deed::SeesWait(1), Deed::Takes(Step::Move(0, 3, 2))],
        ],
        ..PLAIN
    },
    Tale {
        name: "it is aborted",
        before: HELD,
        parts: &[
            IS_ABORTED,
            &[Deed::SeesWait(1), Deed::Takes(Step::Abort(1))],
        ],
        ..PLAIN
    },
    Tale {
        name: "it is aborted, and its slot is another's",
        before: HELD,
        parts: &[
            IS_ABORTED,
            &[
                Deed::SeesWait(1),
                Deed::Takes(Step::Abort(1)),
                Deed::Takes(Step::Begin),
            ],
        ],
        ..PLAIN
    },
    Tale {
        name: "it is aborted, and its slot is another's who is granted the same",
        before: HELD,
        parts: &[
            IS_ABORTED,
            &[
                Deed::SeesWait(1),
                Deed::Takes(Step::Abort(1)),
                Deed::Takes(Step::Begin),
                Deed::Takes(Step::Lock(2, X, 0)),
                Deed::Takes(Step::Commit(0)),
            ],
        ],
        ..PLAIN
    },
    Tale {
        name: "it is cancelled",
        before: HELD,
        parts: &[
            &[Deed::Locks(1, X, 0, End::Stops(Stop::Refused(Refusal::NotWaiting)))],
            &[Deed::SeesWait(1), Deed::Takes(Step::Cancel(1))],
        ],
        ..PLAIN
    },
    Tale {
        name: "others end nothing in its name",
        before: HELD,
        parts: &[
            GETS_IT,
            &[
                Deed::SeesWait(1),
                Deed::IsRefused(Step::Commit(1)),
                Deed::IsRefused(Step::Lock(1, S, 0)),
                Deed::IsRefused(Step::Try(1, S, 0)),
                Deed::IsRefused(Step::Unlock(1, 0)),
                Deed::Takes(Step::Commit(0)),
            ],
        ],
        ..PLAIN
    },
    Tale {
        name: "it is granted after much else",
        before: HELD,
        parts: &[
            GETS_IT,
            &[
                Deed::SeesWait(1),
                Deed::WorksElsewhere(1000),
                Deed::Takes(Step::Commit(0)),
            ],
        ],
        ..PLAIN
    },
    Tale {
        name: "a waiter is the victim of a lock",
        before: BOTH_READ,
        parts: &[
            IS_THE_VICTIM,
            &[Deed::SeesWait(1), Deed::Locks(0, X, 0, End::Granted)],
        ],
        by: AT_BLOCK,
        ..PLAIN
    },
];

/// A waiter is the victim of a settle.
const SETTLED: Tale = Tale {
    name: "a waiter is the victim of a settle",
    before: BOTH_READ,
    parts: &[
        IS_THE_VICTIM,
        &[
            Deed::SeesWait(1),
            Deed::Answers(Step::Lock(0, X, 0), Answer::Waiting),
            Deed::SettlesVictim(1),
        ],
    ],
    by: BY_WATCHER,
    ..PLAIN
};

#[test]
fn each_wait_has_its_end(rt: HostRuntime) {
    tell_all(&rt, rt.alloc(), &WAITS);
    tell_all(&rt, rt.alloc(), &[SETTLED])
}
