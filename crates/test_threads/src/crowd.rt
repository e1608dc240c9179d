//! 128 sessions send random commands, and one manager replays what they did.

use crate::actor::{Act, Entry, acts, escalates_alone};
use crate::forest::{Forest, add_forest};
use crate::stage::{new_manager, nobody_lives, run_on, suspect_on};
use crate::story::{Entrant, Flag, Flags, Left, Story};
use crate::tally::replays;
use crate::wanted::same;
use gl_catalog::{Answer, Command, Manager};
use gl_modes::{Mode, NodeId, Refusal};
use gl_shared::{Naming, Session, Share, Shared, Telling, Watcher};
use gl_table::{Detect, TxnId};
use std::alloc::Global;
use std::env;
use std::env::VarError;
use std::process::Abort;
use std::rt::Env;
use std::sync::Wait;
use std::test::Fail;
use std::thread::{Threads, yield_now};

/// How many commands each session asks at least, unless the environment has another number.
const COMMANDS: u32 = 200;

/// How many sessions there are.
const ACTORS: usize = 128;

/// Sessions over a forest, each of which asks at least this many commands.
#[derive(Drop)]
pub struct Crowd {
    forest: Forest,
    detect: Detect,
    commands: u32,
}

/// Settles a suspect, and returns the entry.
fn settle<N: Naming, R: Wait + Abort>(rt: &R, session: &mut Session<'_, N>, txn: TxnId) -> Entry {
    let command = Command::Settle { txn };
    let answer = session.ask(rt, command).answer;
    Entry {
        at: session.served_at(),
        act: Act::Plain(command),
        answer,
    }
}

/// Settles the youngest suspect of each look until the others have ended, and records that.
fn settles_all<N: Naming, R: Wait + Abort>(
    rt: &R,
    alloc: Global,
    table: &Shared<N>,
    share: Share<N>,
    watcher: &mut Watcher<N>,
    flags: &Flags,
) -> Left<N> {
    let mut session = Session::new(table, share);
    let mut diary = Vec::new(alloc);
    for _ in rt.forever() {
        if flags.count(Flag::First) == ACTORS {
            break;
        }
        if let Some(txn) = watcher.look().and_then(|board| suspect_on(&board)) {
            let _ = diary.push(settle(rt, &mut session, txn));
        }
        yield_now();
    }
    let share = session.end();
    Left { share, diary }
}

/// Escalates, and appends that to what was asked before.
fn escalate_last<N: Naming, R: Wait + Abort>(
    rt: &R,
    alloc: Global,
    table: &Shared<N>,
    forest: &Forest,
    left: Left<N>,
) -> Left<N> {
    let Left { share, mut diary } = left;
    let (share, last) = escalates_alone(rt, alloc, table, forest, share);
    let _ = diary.extend_from_slice(last.as_slice());
    Left { share, diary }
}

/// Separates the shares from what was asked.
fn part_all<N: Naming>(alloc: Global, left: Vec<Left<N>>) -> (Vec<Share<N>>, Vec<Vec<Entry>>) {
    let mut shares = Vec::new(alloc);
    let mut diaries = Vec::new(alloc);
    for Left { share, diary } in left {
        let _ = shares.push(share);
        let _ = diaries.push(diary);
    }
    (shares, diaries)
}

/// All that was asked, in one list.
fn join_all(alloc: Global, diaries: &[Vec<Entry>]) -> Vec<Entry> {
    let mut all = Vec::new(alloc);
    for diary in diaries {
        let _ = all.extend_from_slice(diary.as_slice());
    }
    all
}

impl Crowd {
    /// Replays what was asked on a manager alone.
    fn replay<R: Abort>(&self, rt: &R, alloc: Global, diary: Vec<Entry>) {
        let mut alone = new_manager(rt, alloc, self.detect);
        add_forest(rt, &mut alone);
        replays(rt, &mut alone, diary);
    }

    /// Sends random commands; the session with a watcher settles suspects until all others have ended.
    pub fn runs<N: Naming, R: Wait + Abort>(
        &self,
        rt: &R,
        alloc: Global,
        table: &Shared<N>,
        entrant: Entrant<N>,
        flags: &Flags,
    ) -> Left<N> {
        let Entrant {
            share,
            mut watchers,
            place,
        } = entrant;
        match watchers.pop() {
            Some(mut watcher) => settles_all(rt, alloc, table, share, &mut watcher, flags),
            None => {
                let number = place as u64;
                let (share, diary) = acts(
                    rt,
                    alloc,
                    table,
                    &self.forest,
                    share,
                    number,
                    self.commands,
                );
                flags.raise(Flag::First);
                Left { share, diary }
            }
        }
    }

    /// A manager alone answers all that was asked alike; returns the shares.
    pub fn ends<N: Naming, R: Wait + Abort>(
        &self,
        rt: &R,
        alloc: Global,
        table: &Shared<N>,
        mut left: Vec<Left<N>>,
    ) -> Vec<Share<N>> {
        if let Some(last) = left.pop() {
            let _ = left.push(escalate_last(rt, alloc, table, &self.forest, last));
        }
        let (shares, diaries) = part_all(alloc, left);
        let diary = join_all(alloc, diaries.as_slice());
        self.replay(rt, alloc, diary);
        shares
    }
}

/// How many commands each session asks at least: the environment's CROWD_COMMANDS, if it is set.
fn commands_wanted<R: Env + Alloc>(rt: &R) -> Result<u32, Fail> {
    match env::var(rt, "CROWD_COMMANDS") {
        Ok(number) => Ok(number.as_str().parse::<u32>()?),
        Err(VarError::NotPresent) => Ok(COMMANDS),
        Err(why) => Err(Fail::from(why)),
    }
}

/// Plays with 128 sessions. In the end nobody holds anything, and the book has all that was accepted.
fn run_crowd<R: Threads + Wait + Abort + Sync>(
    rt: &R,
    alloc: Global,
    detect: Detect,
    commands: u32,
) {
    let mut manager = new_manager(rt, alloc, detect);
    let forest = add_forest(rt, &mut manager);
    let (nodes, opening) = (forest.nodes, manager.accepted());
    let crowd = Crowd {
        forest,
        detect,
        commands,
    };
    let players = ACTORS as u64 + 1;
    let mut closed = run_on(
        rt,
        alloc,
        manager,
        Telling::Always,
        players,
        &Story::Crowd(crowd),
    );
    assert!(rt; nobody_lives(&closed));
    let accepted = closed.manager.accepted();
    same(rt, opening.checked_add(closed.book), Some(accepted));
    assert!(rt; closed.book > 64 * u64::from(commands));
    assert!(rt; all_free(&mut closed.manager, &nodes));
}

/// Whether nobody holds any of the nodes that still live.
fn all_free(manager: &mut Manager, nodes: &[NodeId]) -> bool {
    for node in nodes {
        let group = manager.apply(Command::Group { node: *node }).answer;
        if group != Answer::Mode(Mode::NL) && group != Answer::Refused(Refusal::NoSuchNode) {
            return false;
        }
    }
    true
}

#[test]
fn what_a_crowd_does_is_one_run_at_block(rt: HostRuntime) -> Result<(), Fail> {
    let commands = commands_wanted(&rt)?;
    run_crowd(&rt, rt.alloc(), Detect::AtBlock, commands);
    Ok(())
}

#[test]
fn what_a_crowd_does_is_one_run_by_watcher(rt: HostRuntime) -> Result<(), Fail> {
    let commands = commands_wanted(&rt)?;
    run_crowd(&rt, rt.alloc(), Detect::ByWatcher, commands);
    Ok(())
}
