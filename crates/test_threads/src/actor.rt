//! A session of a crowd: it sends random commands, and records the answers.

ghost use Rattle.std.specs.Prelude.{◌<◌};

use crate::forest::{
    FILES, Forest, INDEXES, NODES, RECORDS, Rank, may_be_above, pair, part, rank_of,
};
use crate::wanted::{allowed, same};
use gl_catalog::{Answer, Command};
use gl_modes::Mode::{IS, IX, NL, S, SIX, X};
use gl_modes::{Mode, NodeId};
use gl_shared::{Naming, Session, Share, Shared, Stop};
use gl_table::{Told, TxnId};
use rand_core::utils::NextWord;
use rand_pcg::Pcg32;
use std::alloc::Global;
use std::process::Abort;
use std::sync::Wait;
use std::thread::yield_now;

/// A command that owns the lists that it names.
#[derive(Clone, Copy)]
pub enum Act {
    Plain(Command<'static>),
    Insert(TxnId, NodeId, [u64; 1]),
    Move(TxnId, NodeId, [NodeId; 2]),
}

impl Act {
    /// The command.
    pub fn command(&self) -> Command<'_> {
        match self {
            Act::Plain(command) => *command,
            Act::Insert(txn, file, keys) => Command::Insert {
                txn: *txn,
                file: *file,
                keys,
            },
            Act::Move(txn, node, parents) => Command::Move {
                txn: *txn,
                node: *node,
                parents,
            },
        }
    }
}

/// What was asked and answered, and how many commands the table had accepted then.
#[derive(Clone, Copy)]
pub struct Entry {
    pub at: u64,
    pub act: Act,
    pub answer: Answer,
}

/// A session with its transaction, the record that it inserted last, a place under the same parents,
/// and all that it asked.
pub struct Actor<'a, 'b, N: Naming, R: Wait + Abort> {
    rt: &'a R,
    alloc: Global,
    forest: &'a Forest,
    session: Session<'b, N>,
    rng: Pcg32,
    txn: TxnId,
    made: NodeId,
    beside: usize,
    diary: Vec<Entry>,
    told: Told,
}

impl<N: Naming, R: Wait + Abort> Actor<'_, '_, N, R> {
    /// A random number below this one.
    fn draw(&mut self, below: usize) -> usize
        requires { 0 < below }
        ensures { result < below }
    {
        let word: u32 = self.rng.next_word();
        word as usize % below
    }

    fn write(&mut self, act: Act, answer: Answer) -> Answer {
        let at = self.session.served_at();
        let _ = self.diary.push(Entry { at, act, answer });
        answer
    }

    fn ask(&mut self, act: Act) -> Answer {
        self.told.clear();
        let answer = self
            .session
            .ask_telling(self.rt, act.command(), &mut self.told);
        self.write(act, answer)
    }

    fn ask_plain(&mut self, command: Command<'static>) -> Answer {
        self.ask(Act::Plain(command))
    }

    fn begins(&mut self) {
        match self.ask_plain(Command::Begin) {
            Answer::Begun(txn) => self.txn = txn,
            _ => assert!(self.rt; false, "no transaction"),
        }
    }

    fn commits(&mut self) {
        let end = self.ask_plain(Command::Commit { txn: self.txn });
        same(self.rt, end, Answer::Done);
    }

    /// Aborts as a victim, and begins again.
    fn gives_way(&mut self) {
        let end = self.ask_plain(Command::Abort { txn: self.txn });
        same(self.rt, end, Answer::Done);
        self.begins();
    }

    /// Locks a node, and waits for it. Returns whether it was granted.
    fn locks(&mut self, node: NodeId, mode: Mode) -> bool {
        let txn = self.txn;
        let lock = Command::Lock { txn, node, mode };
        let answer = self.ask_in_list(lock);
        match self.write(Act::Plain(lock), answer) {
            Answer::Granted(_) => true,
            Answer::Waiting => self.waits(node, mode),
            Answer::Victim => {
                self.gives_way();
                false
            }
            _ => false,
        }
    }

    /// The answer to a list of this command alone.
    fn ask_in_list(&mut self, command: Command<'static>) -> Answer {
        let answers = self.session.ask_all(self.rt, self.alloc, &[command]);
        let answers = allowed(self.rt, answers);
        let answer = answers.as_slice().first().copied();
        answer.expect(self.rt, "no answer")
    }

    fn waits(&mut self, node: NodeId, mode: Mode) -> bool {
        match self.session.await_grant(self.rt, self.txn, node, mode) {
            Ok(_) => true,
            Err(Stop::Victim) => {
                self.gives_way();
                false
            }
            Err(stop) => {
                assert!(self.rt; stop == Stop::Moved || stop == Stop::Gone);
                false
            }
        }
    }

    /// Locks what may be above a place, and then a node there. A reader locks one pair of areas.
    fn locks_down(&mut self, place: usize, node: NodeId, mode: Mode) -> bool {
        let reads = mode == IS || mode == S;
        let intent = if reads { IS } else { IX };
        let [left_out, _] = pair(self.forest, self.draw(2) == 0);
        for upper in 0..NODES {
            let above = self.forest.nodes[upper];
            let is_passed = reads && above == left_out;
            if may_be_above(upper, place) && !is_passed && !self.locks(above, intent) {
                return false;
            }
        }
        self.locks(node, mode)
    }

    /// A record and a place under the same parents: its own last, or one of the forest.
    fn record(&mut self, own: bool) -> (usize, NodeId) {
        if own && self.made != NodeId::NONE {
            return (self.beside, self.made);
        }
        let place = RECORDS + self.draw(NODES - RECORDS);
        (place, self.forest.nodes[place % NODES])
    }

    fn mode(&mut self) -> Mode {
        let modes = [IS, IX, S, SIX, X, S, X, NL];
        modes[self.draw(modes.len()) % modes.len()]
    }

    /// Reads or writes at a random place, mostly a record.
    fn locks_somewhere(&mut self) {
        let place = if self.draw(4) == 0 {
            self.draw(NODES)
        } else {
            RECORDS + self.draw(NODES - RECORDS)
        };
        let mode = if matches!(rank_of(place), Rank::Record) {
            if self.draw(2) == 0 { S } else { X }
        } else {
            self.mode()
        };
        self.locks_down(place, self.forest.nodes[place % NODES], mode);
    }

    fn escalates(&mut self) {
        let (place, node) = self.record(false);
        if self.locks_down(place, node, X) {
            let (txn, node) = (self.txn, self.forest.nodes[FILES + part(place)]);
            self.ask_plain(Command::Escalate { txn, node });
        }
    }

    fn inserts(&mut self) {
        let (place, _) = self.record(false);
        let file = self.forest.nodes[FILES + part(place)];
        if self.locks_down(place, file, IX) {
            let key = self.draw(300) as u64;
            if let Answer::Node(made) = self.ask(Act::Insert(self.txn, file, [key])) {
                self.made = made;
                self.beside = place;
            }
        }
    }

    fn deletes(&mut self) {
        let own = self.draw(8) != 0;
        let (place, node) = self.record(own);
        if self.locks_down(place, node, X) {
            let delete = Command::Delete {
                txn: self.txn,
                rec: node,
            };
            self.ask_plain(delete);
        }
    }

    fn rekeys(&mut self) {
        let own = self.draw(2) == 0;
        let (place, node) = self.record(own);
        if self.locks_down(place, node, X) {
            let rekey = Command::Rekey {
                txn: self.txn,
                rec: node,
                index: self.forest.nodes[INDEXES + part(place)],
                key: self.draw(300) as u64,
            };
            self.ask_plain(rekey);
        }
    }

    /// Moves a file or an index under one pair of areas.
    fn moves(&mut self) {
        let place = FILES + self.draw(8);
        let node = self.forest.nodes[place % NODES];
        if self.locks_down(place, node, X) {
            let parents = pair(self.forest, self.draw(2) == 0);
            self.ask(Act::Move(self.txn, node, parents));
        }
    }

    /// Sends one of the commands that need no path, without the locks that it may need.
    fn asks_one(&mut self) {
        let node = self.forest.nodes[self.draw(NODES) % NODES];
        let mode = self.mode();
        let txn = self.txn;
        let command = match self.draw(5) {
            0 => Command::Try { txn, node, mode },
            1 => Command::Unlock { txn, node },
            2 => Command::Held { txn, node },
            3 => Command::Effective { txn, node },
            _ => Command::Group { node },
        };
        self.ask_plain(command);
    }

    fn goes_on(&mut self) {
        match self.draw(16) {
            0 => self.escalates(),
            1 => self.inserts(),
            2 => self.deletes(),
            3 => self.rekeys(),
            4 => self.moves(),
            5 | 6 | 7 => self.asks_one(),
            8 | 9 | 10 | 11 => self.locks_somewhere(),
            _ => {
                self.commits();
                self.begins();
            }
        }
    }
}

/// A session with a new transaction.
fn begun<'a, 'b, N: Naming, R: Wait + Abort>(
    rt: &'a R,
    alloc: Global,
    table: &'b Shared<N>,
    forest: &'a Forest,
    share: Share<N>,
    number: u64,
) -> Actor<'a, 'b, N, R> {
    let mut actor = Actor {
        rt,
        alloc,
        forest,
        session: Session::new(table, share),
        rng: Pcg32::new(number, 54),
        txn: TxnId::NONE,
        made: NodeId::NONE,
        beside: RECORDS,
        diary: Vec::new(alloc),
        told: Told::new(),
    };
    actor.begins();
    actor
}

/// Commits, and returns the share and what was asked.
fn ended<N: Naming, R: Wait + Abort>(mut actor: Actor<'_, '_, N, R>) -> (Share<N>, Vec<Entry>) {
    actor.commits();
    let Actor {
        rt: _,
        alloc: _,
        forest: _,
        session,
        rng: _,
        txn: _,
        made: _,
        beside: _,
        diary,
        told: _,
    } = actor;
    (session.end(), diary)
}

/// Runs a session that asks at least this many commands, and commits. Returns its share and what it
/// asked.
pub fn acts<N: Naming, R: Wait + Abort>(
    rt: &R,
    alloc: Global,
    table: &Shared<N>,
    forest: &Forest,
    share: Share<N>,
    number: u64,
    commands: u32,
) -> (Share<N>, Vec<Entry>) {
    let mut actor = begun(rt, alloc, table, forest, share, number);
    for _ in 0..commands {
        if actor.diary.len() >= commands as usize {
            break;
        }
        actor.goes_on();
        yield_now(); // Else, with few processors, the sessions could do all their work one by one.
    }
    ended(actor)
}

/// Runs a session, alone on the table, that inserts a record and escalates to its file. Returns its
/// share and what it asked. Among many sessions an escalation is granted only by chance.
pub fn escalates_alone<N: Naming, R: Wait + Abort>(
    rt: &R,
    alloc: Global,
    table: &Shared<N>,
    forest: &Forest,
    share: Share<N>,
) -> (Share<N>, Vec<Entry>) {
    let mut actor = begun(rt, alloc, table, forest, share, 0);
    actor.inserts();
    let (txn, node) = (actor.txn, forest.nodes[FILES + part(actor.beside)]);
    let escalated = actor.ask_plain(Command::Escalate { txn, node });
    assert!(rt; matches!(escalated, Answer::Escalated(_)));
    ended(actor)
}
