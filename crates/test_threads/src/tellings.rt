//! What looks show: each wait and its end, if the table tells while somebody waits, and else the board
//! that was last told; what the notes show that a watcher learns; and lists of commands, up to the
//! first that stops.

use crate::player::{Deed, End, Shows};
use crate::stage::tell_all;
use crate::steps::Step;
use crate::story::{AT_BLOCK, Tale};
use gl_catalog::Answer;
use gl_modes::Mode::{IX, S, X};
use gl_modes::Refusal;
use gl_shared::Telling;
use gl_table::Detect;

/// The first of two transactions holds S on a root, and the second waits for X on it.
const AT_FIRST: Shows = Shows {
    epoch: 5,
    ages: [1, 2],
    waits_for: 1,
};

/// The first has committed.
const AT_LAST: Shows = Shows {
    epoch: 6,
    ages: [0, 2],
    waits_for: 0,
};

const TELLINGS: [Tale; 2] = [
    Tale {
        name: "waits and their ends are told",
        before: &[],
        players: 1,
        parts: &[&[
            Deed::Takes(Step::Root),
            Deed::Looks(0, 1, false), // The first command is told, since nobody looked for waiters yet.
            Deed::Takes(Step::Begin),
            Deed::Looks(0, 1, false),
            Deed::Takes(Step::Begin),
            Deed::Looks(0, 1, false),
            Deed::Answers(Step::Lock(0, X, 0), Answer::Granted(X)),
            Deed::Looks(0, 1, false),
            Deed::Answers(Step::Lock(1, X, 0), Answer::Waiting),
            Deed::Looks(0, 5, true),
            Deed::Takes(Step::Root),
            Deed::Looks(0, 6, true),
            Deed::Takes(Step::Held(1, 0)),
            Deed::Looks(0, 6, true),
            Deed::Tells(Step::Commit(0), 1),
            Deed::Looks(0, 7, false),
            Deed::Takes(Step::Commit(1)),
            Deed::Looks(0, 7, false),
            Deed::Takes(Step::Begin),
            Deed::Looks(0, 7, false),
            Deed::Learns(0, 9),
        ]],
        counted: None,
        raised: 0,
        is_over: false,
        by: &[
            (Detect::AtBlock, Telling::WhileWaiting),
            (Detect::ByWatcher, Telling::WhileWaiting),
        ],
    },
    Tale {
        name: "notes are seen",
        before: &[],
        players: 1,
        parts: &[&[
            Deed::Looks(0, 0, false),
            Deed::KeepsNote(0),
            Deed::Takes(Step::Root),
            Deed::Takes(Step::Begin),
            Deed::Takes(Step::Begin),
            Deed::Answers(Step::Lock(0, S, 0), Answer::Granted(S)),
            Deed::Answers(Step::Lock(1, X, 0), Answer::Waiting),
            Deed::Learns(1, 5),
            Deed::Sees(1, AT_FIRST),
            Deed::Tells(Step::Commit(0), 1),
            Deed::HasCounted(1, 1, 1),
            Deed::Learns(0, 6),
            Deed::Sees(0, AT_LAST),
            Deed::LearnsKept(0),
            Deed::Sees(0, AT_LAST),
            Deed::Answers(Step::Commit(0), Answer::Refused(Refusal::NoSuchTxn)),
        ]],
        counted: None,
        raised: 0,
        is_over: false,
        by: AT_BLOCK,
    },
];

#[test]
fn what_looks_and_notes_show(rt: HostRuntime) {
    tell_all(&rt, rt.alloc(), &TELLINGS)
}

/// A path is locked whole; another's waits at its second lock, and is granted at the commit. A refusal
/// ends a list, and what follows it is not served.
const LISTS: [Tale; 1] = [Tale {
    name: "a list is served up to the first that stops",
    before: &[&[Step::Root, Step::File(0), Step::Begin, Step::Begin]],
    players: 1,
    parts: &[&[
        Deed::Lists(
            &[Step::Lock(0, IX, 0), Step::Lock(0, X, 1), Step::Held(0, 1)],
            &[Answer::Granted(IX), Answer::Granted(X), Answer::Mode(X)],
        ),
        Deed::Lists(
            &[Step::Lock(1, IX, 0), Step::Lock(1, X, 1), Step::Commit(1)],
            &[Answer::Granted(IX), Answer::Waiting],
        ),
        Deed::Lists(&[Step::Commit(0)], &[Answer::Done]),
        Deed::Awaits(1, X, 1, End::Granted),
        Deed::Lists(
            &[Step::Held(1, 0), Step::Unlock(0, 0), Step::Commit(1)],
            &[Answer::Mode(IX), Answer::Refused(Refusal::NoSuchTxn)],
        ),
        Deed::Lists(&[], &[]),
        Deed::Answers(Step::Held(1, 1), Answer::Mode(X)),
    ]],
    counted: Some(5),
    raised: 0,
    is_over: false,
    by: AT_BLOCK,
}];

#[test]
fn a_list_is_served_up_to_the_first_that_stops(rt: HostRuntime) {
    tell_all(&rt, rt.alloc(), &LISTS)
}
