//! A shared table and a manager, which answer the same commands.

use crate::stage::{new_manager, run_on};
use crate::steps::{Alone, Made, Step, Through, take};
use crate::story::{Entrant, Left, Story};
use crate::wanted::same;
use gl_catalog::{Answer, Manager};
use gl_shared::{Naming, Session, Shared, Telling};
use gl_table::Detect;
use std::alloc::Global;
use std::process::Abort;
use std::sync::Wait;
use std::thread::Threads;

/// Steps that a session and a manager must answer alike: those that prepare, and a row.
#[derive(Clone, Copy)]
pub struct Alike {
    pub detect: Detect,
    pub first: &'static [Step],
    pub row: &'static [Step],
}

/// Sends each step to a session and to the manager: the replies must be equal, and so must the counts
/// of accepted commands and the counters after each.
fn take_alike<N: Naming, R: Wait + Abort>(
    rt: &R,
    table: &Shared<N>,
    through: &mut Through<'_, '_, N, R>,
    manager: &mut Manager,
    made: &mut Made,
    steps: &[Step],
) {
    for (place, step) in steps.iter().enumerate() {
        let alone = take(&mut Alone(manager), made, *step);
        let reply = take(through, made, *step);
        same(rt, (place, reply.answer), (place, alone.answer));
        same(rt, reply.told.as_slice(), alone.told.as_slice());
        counts_alike(rt, table, &through.session, manager);
        made.keep(reply.answer);
        keep_intervals(made, manager, reply.answer);
    }
}

/// The session and the table have the counts of the manager.
fn counts_alike<N: Naming, R: Wait + Abort>(
    rt: &R,
    table: &Shared<N>,
    session: &Session<'_, N>,
    manager: &Manager,
) {
    let counters = manager.counters();
    same(rt, session.served_at(), manager.accepted());
    same(rt, session.counters(rt), counters);
    same(rt, table.counters(rt), counters);
}

/// Adds the first two intervals of an index after it.
pub fn keep_intervals(made: &mut Made, manager: &Manager, answer: Answer) {
    if let Answer::Node(node) = answer {
        for place in 0..2usize {
            if let Some(interval) = manager.graph().interval(node, place) {
                made.keep_node(interval);
            }
        }
    }
}

/// Carries out steps on a manager alone.
pub fn prepare(manager: &mut Manager, made: &mut Made, steps: &[Step]) {
    for step in steps {
        let answer = take(&mut Alone(manager), made, *step).answer;
        made.keep(answer);
        keep_intervals(made, manager, answer);
    }
}

impl Alike {
    /// Plays with a share of a table.
    pub fn runs<N: Naming, R: Wait + Abort>(
        &self,
        rt: &R,
        alloc: Global,
        table: &Shared<N>,
        entrant: Entrant<N>,
    ) -> Left<N> {
        let mut beside = new_manager(rt, alloc, self.detect);
        let session = Session::new(table, entrant.share);
        let mut through = Through { rt, session };
        let mut made = Made::new();
        for steps in [self.first, self.row] {
            take_alike(rt, table, &mut through, &mut beside, &mut made, steps);
        }
        let Through { rt: _, session } = through;
        Left {
            share: session.end(),
            diary: Vec::new(alloc),
        }
    }
}

/// A new table and a new manager answer these steps alike. In the end the share is the book, and the
/// count of accepted commands is that of the manager.
pub fn answers_alike<R: Threads + Wait + Abort + Sync>(rt: &R, alloc: Global, story: Alike) {
    let mut beside = new_manager(rt, alloc, story.detect);
    let mut made = Made::new();
    prepare(&mut beside, &mut made, story.first);
    prepare(&mut beside, &mut made, story.row);
    let manager = new_manager(rt, alloc, story.detect);
    let closed = run_on(rt, alloc, manager, Telling::Always, 1, &Story::Alike(story));
    same(rt, closed.book, beside.accepted());
    assert!(rt; closed.manager.board() == beside.board());
}
