//! A player of a scenario: a session that does one deed after the other.

use crate::stage::suspect_on;
use crate::steps::{Answers, Made, Step, command_of, take};
use crate::story::{Entrant, Flag, Flags, Left, Tale};
use crate::wanted::{allowed, same};
use gl_catalog::{Answer, Command, Reply};
use gl_modes::Mode::X;
use gl_modes::{Mode, NodeId, Refusal};
use gl_shared::{Grant, Naming, Note, Session, Share, Shared, Stop, Watcher};
use gl_table::{Notice, TxnId};
use gl_waits::{Board, SLOTS};
use std::alloc::Global;
use std::fmt::Debug;
use std::process::Abort;
use std::sync::Wait;
use std::thread::yield_now;

/// The outcome of a lock.
#[derive(Clone, Copy)]
pub enum End {
    Granted,
    Stops(Stop),
}

/// What one look shows: the epoch, the ages of the first two slots, and the slots for which the second
/// waits; all else is 0.
#[derive(Clone, Copy)]
pub struct Shows {
    pub epoch: u64,
    pub ages: [u64; 2],
    pub waits_for: u128,
}

/// A deed. It names transactions, nodes and watchers by their places.
#[derive(Clone, Copy)]
pub enum Deed {
    /// Sends a command, which is not refused; records what the answer names.
    Takes(Step),
    /// Sends a command, which is refused.
    IsRefused(Step),
    /// Sends a command, which has this answer.
    Answers(Step, Answer),
    /// Sends a command, which has this many notices.
    Tells(Step, usize),
    /// Sends a list in one critical section, which has these answers.
    Lists(&'static [Step], &'static [Answer]),
    /// Sends a list, of which this many are answered.
    Counts(&'static [Step], usize),
    /// Locks a node, and sleeps until the lock has this outcome.
    Locks(usize, Mode, usize, End),
    /// Sleeps for a lock that already waits.
    Awaits(usize, Mode, usize, End),
    /// Locks the root of the next player in X. A victim aborts and raises the second flag; others
    /// commit.
    LocksNext,
    Raises(Flag),
    /// Continues after a flag was raised this often.
    Reaches(Flag, usize),
    /// Begins and commits this many transactions without locks.
    WorksElsewhere(u32),
    /// Continues after a board shows that a transaction waits.
    SeesWait(usize),
    /// After a board has suspects, settles the youngest, which is this transaction and alone is told.
    SettlesVictim(usize),
    /// Continues after the youngest suspect of a board is this transaction.
    SeesSuspect(usize),
    /// Settles a transaction, which tells nobody and is counted.
    SettlesNobody(usize),
    /// The table's counters: granted at once, left waiting, granted later.
    HasCounted(u64, u64, u64),
    /// A watcher's look shows an epoch, and whether slot 1 waits.
    Looks(usize, u64, bool),
    /// A note has this epoch, which a watcher learns.
    Learns(usize, u64),
    /// A note has this epoch, and is stored.
    KeepsNote(u64),
    /// A watcher learns the stored note.
    LearnsKept(usize),
    /// A watcher's look shows this.
    Sees(usize, Shows),
}

/// A player with its session and its watchers.
struct Player<'a, 'b, N: Naming, R: Wait + Abort> {
    rt: &'a R,
    alloc: Global,
    session: Session<'b, N>,
    watchers: Vec<Watcher<N>>,
    kept: Option<Note<N>>,
    made: Made,
    flags: &'a Flags,
    /// The scenario's name, and the places of the player and of the deed.
    at: (&'static str, usize, usize),
}

impl<N: Naming, R: Wait + Abort> Answers for Player<'_, '_, N, R> {
    fn answer(&mut self, command: Command<'_>) -> Reply {
        self.session.ask(self.rt, command)
    }
}

/// Commands.
impl<N: Naming, R: Wait + Abort> Player<'_, '_, N, R> {
    fn wants<T: PartialEq + Debug + Drop>(&self, came: T, wanted: T) {
        same(self.rt, (self.at, came), (self.at, wanted));
    }

    fn asks(&mut self, step: Step) -> Reply {
        let made = self.made;
        let reply = take(self, &made, step);
        self.made.keep(reply.answer);
        reply
    }

    fn takes(&mut self, step: Step, is_refused: bool) {
        let answer = self.asks(step).answer;
        self.wants(matches!(answer, Answer::Refused(_)), is_refused);
    }

    fn answers(&mut self, step: Step, wanted: Answer) {
        let answer = self.asks(step).answer;
        self.wants(answer, wanted);
    }

    fn tells(&mut self, step: Step, wanted: usize) {
        let count = self.asks(step).told.len();
        self.wants(count, wanted);
    }

    fn asks_all(&mut self, steps: &[Step]) -> Vec<Answer> {
        let mut commands = Vec::new(self.alloc);
        for step in steps {
            let _ = commands.push(command_of(&self.made, *step));
        }
        let asked = self
            .session
            .ask_all(self.rt, self.alloc, commands.as_slice());
        allowed(self.rt, asked)
    }

    fn lists(&mut self, steps: &[Step], wanted: &[Answer]) {
        let answers = self.asks_all(steps);
        assert!(self.rt; answers.as_slice() == wanted);
    }

    fn counts(&mut self, steps: &[Step], wanted: usize) {
        let count = self.asks_all(steps).len();
        self.wants(count, wanted);
    }

    fn works_elsewhere(&mut self, times: u32) {
        for _ in 0..times {
            if let Answer::Begun(txn) = self.session.ask(self.rt, Command::Begin).answer {
                self.session.ask(self.rt, Command::Commit { txn });
            }
        }
    }

    fn locks(&mut self, txn: TxnId, mode: Mode, node: NodeId, end: End) {
        let came = self.session.lock(self.rt, txn, node, mode);
        self.comes_to(came, txn, mode, node, end);
    }

    fn awaits(&mut self, txn: TxnId, mode: Mode, node: NodeId, end: End) {
        let came = self.session.await_grant(self.rt, txn, node, mode);
        self.comes_to(came, txn, mode, node, end);
    }

    /// The outcome of a lock must be this; a victim aborts.
    fn comes_to(
        &mut self,
        came: Result<Grant, Stop>,
        txn: TxnId,
        mode: Mode,
        node: NodeId,
        end: End,
    ) {
        let wanted = match end {
            End::Granted => Ok(Grant { txn, node, mode }),
            End::Stops(stop) => Err(stop),
        };
        self.wants(came, wanted);
        if came == Err(Stop::Victim) {
            self.session.ask(self.rt, Command::Abort { txn });
        }
    }

    fn locks_next(&mut self) {
        let (_, place, _) = self.at;
        let (txn, node) = (
            self.made.txn(place),
            self.made.node((place % SLOTS + 1) % SLOTS),
        );
        let came = self.session.lock(self.rt, txn, node, X);
        let is_victim = came == Err(Stop::Victim);
        self.wants(came.is_ok(), !is_victim);
        let end = if is_victim {
            self.flags.raise(Flag::Second);
            Command::Abort { txn }
        } else {
            Command::Commit { txn }
        };
        let answer = self.session.ask(self.rt, end).answer;
        self.wants(answer, Answer::Done);
    }
}

/// Looks.
impl<N: Naming, R: Wait + Abort> Player<'_, '_, N, R> {
    fn look(&mut self, watcher: usize) -> Option<Board> {
        self.watchers.get_mut(watcher)?.look()
    }

    /// Whether a board showed that the slot waits, within a million looks.
    fn sees_wait(&mut self, slot: usize) -> bool {
        for _ in 0..1000000u32 {
            if let Some(board) = self.look(0) {
                if slot < SLOTS && board.rows[slot] != 0 {
                    return true;
                }
            }
            yield_now();
        }
        false
    }

    /// The youngest suspect of the first board that has one, within a million looks.
    fn youngest_suspect(&mut self) -> Option<TxnId> {
        for _ in 0..1000000u32 {
            let suspect = self.look(0).and_then(|board| suspect_on(&board));
            if suspect.is_some() {
                return suspect;
            }
            yield_now();
        }
        None
    }

    fn sees_suspect(&mut self, wanted: TxnId) {
        let suspect = self.youngest_suspect();
        self.wants(suspect, Some(wanted));
    }

    fn settles_victim(&mut self, txn: TxnId) {
        self.sees_suspect(txn);
        let reply = self.session.ask(self.rt, Command::Settle { txn });
        self.wants(reply.answer, Answer::Done);
        assert!(self.rt; reply.told.as_slice() == [(txn, Notice::Victim)].as_slice());
    }

    fn settles_nobody(&mut self, txn: TxnId) {
        let before = self.session.note(self.rt).epoch();
        let settle = self.session.ask(self.rt, Command::Settle { txn });
        let after = self.session.note(self.rt).epoch();
        self.wants((settle.answer, settle.told.len()), (Answer::Done, 0));
        self.wants(before.checked_add(1), Some(after));
    }

    fn has_counted(&mut self, granted: u64, waited: u64, granted_later: u64) {
        let counters = self.session.counters(self.rt);
        let counted = (counters.granted, counters.waited, counters.granted_later);
        self.wants(counted, (granted, waited, granted_later));
    }

    fn looks(&mut self, watcher: usize, epoch: u64, waits: bool) {
        let seen = self
            .look(watcher)
            .map(|board| (board.epoch, board.rows[1] != 0));
        self.wants(seen, Some((epoch, waits)));
    }

    fn sees(&mut self, watcher: usize, shows: Shows) {
        let board = self.look(watcher);
        assert!(self.rt; board == Some(board_of(shows)));
    }

    /// A note of this epoch.
    fn note(&mut self, epoch: u64) -> Note<N> {
        let note = self.session.note(self.rt);
        self.wants(note.epoch(), epoch);
        note
    }

    fn learns(&mut self, watcher: usize, note: Note<N>) {
        if let Some(watcher) = self.watchers.get_mut(watcher) {
            watcher.learn(note);
        }
    }

    fn learns_kept(&mut self, watcher: usize) {
        if let Some(note) = self.kept.take() {
            self.learns(watcher, note);
        }
    }
}

/// The board of a look.
fn board_of(shows: Shows) -> Board {
    let mut board = Board {
        epoch: shows.epoch,
        ages: [0; SLOTS],
        rows: [0; SLOTS],
    };
    let [first, second] = shows.ages;
    board.ages[0] = first;
    board.ages[1] = second;
    board.rows[1] = shows.waits_for;
    board
}

impl<N: Naming, R: Wait + Abort> Player<'_, '_, N, R> {
    fn does(&mut self, deed: Deed) {
        let made = self.made;
        match deed {
            Deed::Takes(step) => self.takes(step, false),
            Deed::IsRefused(step) => self.takes(step, true),
            Deed::Answers(step, wanted) => self.answers(step, wanted),
            Deed::Tells(step, count) => self.tells(step, count),
            Deed::Lists(steps, wanted) => self.lists(steps, wanted),
            Deed::Counts(steps, wanted) => self.counts(steps, wanted),
            Deed::Locks(txn, mode, node, end) => self.locks(
                made.txn(txn),
                mode,
                made.node(node),
                end,
            ),
            Deed::Awaits(txn, mode, node, end) => self.awaits(
                made.txn(txn),
                mode,
                made.node(node),
                end,
            ),
            Deed::LocksNext => self.locks_next(),
            Deed::WorksElsewhere(times) => self.works_elsewhere(times),
            _ => self.does_beside(deed),
        }
    }

    /// Deeds that request no lock.
    fn does_beside(&mut self, deed: Deed) {
        let made = self.made;
        match deed {
            Deed::Raises(flag) => self.flags.raise(flag),
            Deed::Reaches(flag, count) => assert!(self.rt; self.flags.reaches(flag, count)),
            Deed::SeesWait(txn) => assert!(self.rt; self.sees_wait(made.txn(txn).slot as usize)),
            Deed::SettlesVictim(txn) => self.settles_victim(made.txn(txn)),
            Deed::SeesSuspect(txn) => self.sees_suspect(made.txn(txn)),
            Deed::SettlesNobody(txn) => self.settles_nobody(made.txn(txn)),
            Deed::HasCounted(granted, waited, later) => self.has_counted(granted, waited, later),
            Deed::Looks(watcher, epoch, waits) => self.looks(watcher, epoch, waits),
            Deed::Learns(watcher, epoch) => {
                let note = self.note(epoch);
                self.learns(watcher, note)
            }
            Deed::KeepsNote(epoch) => self.kept = Some(self.note(epoch)),
            Deed::LearnsKept(watcher) => self.learns_kept(watcher),
            Deed::Sees(watcher, shows) => self.sees(watcher, shows),
            _ => {}
        }
    }

    fn runs(&mut self, deeds: &[Deed]) {
        for (place, deed) in deeds.iter().enumerate() {
            let (name, player, _) = self.at;
            self.at = (name, player, place);
            self.does(*deed);
        }
    }

    fn ends(self) -> Share<N> {
        let Player {
            rt: _,
            alloc: _,
            session,
            watchers: _,
            kept: _,
            made: _,
            flags: _,
            at: _,
        } = self;
        session.end()
    }
}

/// Does the deeds of a player.
pub fn performs<N: Naming, R: Wait + Abort>(
    rt: &R,
    alloc: Global,
    table: &Shared<N>,
    entrant: Entrant<N>,
    flags: &Flags,
    tale: &Tale,
    made: &Made,
) -> Left<N> {
    let Entrant {
        share,
        watchers,
        place,
    } = entrant;
    let mut player = Player {
        rt,
        alloc,
        session: Session::new(table, share),
        watchers,
        kept: None,
        made: *made,
        flags,
        at: (tale.name, place, 0),
    };
    player.runs(tale.part(place));
    Left {
        share: player.ends(),
        diary: Vec::new(alloc),
    }
}
