//! The worked rows as commands of a session: the replies are those of a manager.

use crate::alike::{Alike, answers_alike};
use crate::steps::Step;
use gl_modes::Mode::{IS, IX, S, SIX, X};
use gl_table::Detect;

/// A root 0, a file 1 under it, an index 2 with the intervals 3 and 4, and in each of these a record, 5
/// and 6. Transaction 0 made them, and has ended.
pub const PRELUDE: &[Step] = &[
    Step::Root,
    Step::File(0),
    Step::Index {
        parent: 0,
        file: 1,
        bound: 100,
    },
    Step::Begin,
    Step::Lock(0, IX, 0),
    Step::Lock(0, IX, 1),
    Step::Lock(0, IX, 2),
    Step::Lock(0, IX, 3),
    Step::Lock(0, IX, 4),
    Step::Insert(0, 1, 50),
    Step::Insert(0, 1, 200),
    Step::Group(3),
    Step::Commit(0),
];

/// Rows over roots alone.
const ROOTS: [&'static [Step]; 7] = [
    &[
        Step::Root,
        Step::Begin,
        Step::Try(0, IX, 0),
        Step::Try(0, S, 0),
        Step::Group(0),
        Step::Commit(0),
        Step::Group(0),
    ],
    &[
        Step::Root,
        Step::Begin,
        Step::Begin,
        Step::Lock(0, S, 0),
        Step::Lock(1, IX, 0),
        Step::Commit(0),
        Step::Group(0),
    ],
    &[
        Step::Root,
        Step::Begin,
        Step::Begin,
        Step::Begin,
        Step::Lock(0, S, 0),
        Step::Lock(1, X, 0),
        Step::Lock(2, S, 0),
        Step::Commit(0),
        Step::Commit(1),
    ],
    &[
        Step::Root,
        Step::Begin,
        Step::Begin,
        Step::Begin,
        Step::Lock(0, S, 0),
        Step::Lock(1, S, 0),
        Step::Lock(2, X, 0),
        Step::Lock(0, X, 0),
        Step::Commit(1),
        Step::Held(2, 0),
    ],
    &[
        Step::Root,
        Step::Begin,
        Step::Begin,
        Step::Lock(0, S, 0),
        Step::Lock(1, S, 0),
        Step::Lock(0, X, 0),
        Step::Lock(1, X, 0),
        Step::Settle(0),
        Step::Commit(1),
        Step::Abort(1),
    ],
    &[
        Step::Root,
        Step::Begin,
        Step::Begin,
        Step::Lock(0, S, 0),
        Step::Lock(1, S, 0),
        Step::Lock(1, X, 0),
        Step::Lock(0, X, 0),
        Step::Abort(1),
    ],
    &[
        Step::Root,
        Step::Root,
        Step::Begin,
        Step::Begin,
        Step::Begin,
        Step::Lock(0, S, 0),
        Step::Lock(2, X, 1),
        Step::Lock(1, X, 0),
        Step::Lock(2, S, 0),
        Step::Lock(0, S, 1),
        Step::Cancel(1),
        Step::Abort(2),
    ],
];

/// Rows with the prelude. Their transactions are numbered from 1.
const RECORDS: [&'static [Step]; 7] = [
    &[
        Step::Begin,
        Step::Lock(1, IX, 0),
        Step::Lock(1, IX, 1),
        Step::Lock(1, X, 5),
        Step::Lock(1, S, 5),
        Step::Lock(1, IX, 5),
        Step::Unlock(1, 1),
        Step::Unlock(1, 5),
        Step::Unlock(1, 1),
        Step::Unlock(1, 1),
    ],
    &[
        Step::Begin,
        Step::Begin,
        Step::Lock(1, IX, 0),
        Step::Lock(1, X, 1),
        Step::Lock(2, IS, 0),
        Step::Lock(2, IS, 2),
        Step::Lock(2, IS, 3),
        Step::Lock(2, S, 5),
        Step::Effective(1, 5),
        Step::Effective(1, 1),
    ],
    &[
        Step::Begin,
        Step::Begin,
        Step::Lock(1, IX, 0),
        Step::Lock(1, IX, 1),
        Step::Lock(1, IX, 2),
        Step::Lock(1, IX, 3),
        Step::Lock(1, X, 5),
        Step::Lock(2, IS, 0),
        Step::Lock(2, IS, 2),
        Step::Lock(2, S, 4),
        Step::Rekey(1, 5, 2, 150),
        Step::Lock(1, IX, 4),
        Step::Commit(2),
        Step::Rekey(1, 5, 2, 150),
    ],
    &[
        Step::Begin,
        Step::Begin,
        Step::Begin,
        Step::Lock(1, IX, 0),
        Step::Lock(1, IX, 1),
        Step::Lock(1, IX, 2),
        Step::Lock(1, IX, 3),
        Step::Lock(1, X, 5),
        Step::Lock(1, IX, 4),
        Step::Lock(2, IX, 0),
        Step::Lock(2, IX, 1),
        Step::Lock(2, IX, 2),
        Step::Lock(2, IX, 3),
        Step::Lock(2, X, 5),
        Step::Lock(3, IS, 0),
        Step::Lock(3, IS, 1),
        Step::Lock(3, S, 5),
        Step::Rekey(1, 5, 2, 150),
        Step::Held(2, 5),
        Step::Unlock(1, 3),
        Step::Unlock(1, 4),
        Step::Commit(1),
    ],
    &[
        Step::Begin,
        Step::Lock(1, IX, 0),
        Step::Lock(1, X, 1),
        Step::Lock(1, IX, 2),
        Step::Lock(1, X, 3),
        Step::Rekey(1, 5, 2, 60),
        Step::Rekey(1, 5, 2, 150),
        Step::Lock(1, X, 4),
        Step::Rekey(1, 5, 2, 150),
        Step::Effective(1, 5),
        Step::Move(1, 1, 0),
    ],
    &[
        Step::Begin,
        Step::Lock(1, IX, 0),
        Step::Lock(1, IX, 1),
        Step::Lock(1, IX, 2),
        Step::Lock(1, X, 3),
        Step::Lock(1, IX, 4),
        Step::Lock(1, X, 5),
        Step::Lock(1, X, 6),
        Step::Escalate(1, 1),
        Step::Held(1, 5),
        Step::Effective(1, 5),
        Step::Held(1, 6),
    ],
    &[
        Step::Begin,
        Step::Begin,
        Step::Lock(1, IX, 0),
        Step::Lock(1, IX, 1),
        Step::Lock(1, IX, 2),
        Step::Lock(1, IX, 3),
        Step::Lock(1, X, 5),
        Step::Lock(2, IS, 0),
        Step::Lock(2, IS, 1),
        Step::Lock(2, S, 5),
        Step::Delete(1, 5),
        Step::Held(2, 5),
        Step::Held(2, 1),
        Step::Lock(1, SIX, 0),
        Step::Inner(0),
    ],
];

#[test]
fn rows_over_roots(rt: HostRuntime) {
    for detect in [Detect::AtBlock, Detect::ByWatcher] {
        for row in ROOTS {
            let first = &[];
            answers_alike(&rt, rt.alloc(), Alike { detect, first, row });
        }
    }
}

#[test]
fn rows_over_records(rt: HostRuntime) {
    let (detect, first) = (Detect::AtBlock, PRELUDE);
    for row in RECORDS {
        answers_alike(&rt, rt.alloc(), Alike { detect, first, row });
    }
}
