//! A crowd's commands, replayed on a manager.

use crate::actor::Entry;
use crate::wanted::same;
use gl_catalog::{Answer, Command, Manager};
use gl_shared::is_accepted;
use std::process::Abort;

/// What was done at least once.
#[derive(Clone, Copy)]
struct Done {
    victim: bool,
    escalation: bool,
    insert: bool,
    delete: bool,
    rekey: bool,
    moved: bool,
    wait: bool,
}

impl Done {
    fn nothing() -> Done {
        Done {
            victim: false,
            escalation: false,
            insert: false,
            delete: false,
            rekey: false,
            moved: false,
            wait: false,
        }
    }

    /// Which of these were done: a victim, an escalation, an insertion, a deletion, a rekey, a move, a
    /// wait.
    fn all(&self) -> [bool; 7] {
        [
            self.victim,
            self.escalation,
            self.insert,
            self.delete,
            self.rekey,
            self.moved,
            self.wait,
        ]
    }

    /// Adds what an entry shows.
    fn add(&mut self, entry: &Entry) {
        match (entry.act.command(), entry.answer) {
            (Command::Abort { .. }, Answer::Done) => self.victim = true,
            (Command::Escalate { .. }, Answer::Escalated(_)) => self.escalation = true,
            (Command::Insert { .. }, Answer::Node(_)) => self.insert = true,
            (Command::Delete { .. }, Answer::Done) => self.delete = true,
            (Command::Rekey { .. }, Answer::Done) => self.rekey = true,
            (Command::Move { .. }, Answer::Done) => self.moved = true,
            (Command::Lock { .. }, Answer::Waiting) => self.wait = true,
            _ => {}
        }
    }
}

/// Whether the command was counted.
fn is_counted(entry: &Entry) -> bool {
    is_accepted(&entry.act.command(), &entry.answer)
}

/// Sorts the entries by the order in which they were served. Those that were not counted changed
/// nothing, so their order after the counted one of their count does not matter.
fn put_in_order(diary: &mut [Entry]) {
    diary.sort_unstable_by_key(|entry: &Entry| (entry.at, !is_counted(entry)));
}

/// A manager alone gives the same answers in the same order, and the same counts; and each kind of
/// command was done.
pub fn replays<R: Abort>(rt: &R, manager: &mut Manager, mut diary: Vec<Entry>) {
    put_in_order(diary.as_mut_slice());
    let mut done = Done::nothing();
    for entry in diary.as_slice() {
        let answer = manager.apply(entry.act.command()).answer;
        same(rt, answer, entry.answer);
        same(rt, manager.accepted(), entry.at);
        done.add(entry);
    }
    same(rt, done.all(), [true; 7]);
}
