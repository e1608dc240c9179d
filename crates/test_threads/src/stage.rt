//! A table over a prepared manager, with sessions in threads.

ghost use Rattle.std.specs.Prelude.{◌≡◌, ◌<◌};
ghost use Rattle.gl_table.specs.Table.{board_of};
ghost use Rattle.gl_catalog.specs.Manager.{state_of};

use crate::alike::prepare;
use crate::steps::Made;
use crate::story::{Story, Tale};
use crate::wanted::{allowed, same};
use gl_catalog::Manager;
use gl_shared::{Closed, Naming, NotAll, Parts, Shared, Telling, gather};
use gl_table::{Detect, TxnId};
use gl_waits::{Board, SLOTS, suspects, youngest};
use std::alloc::Global;
use std::marker::Brand;
use std::process::Abort;
use std::sync::Wait;
use std::thread::Threads;

/// Plays on a table with its name.
fn enact_under_name<N: Naming + Send + Sync, R: Threads + Wait + Abort + Sync>(
    rt: &R,
    alloc: Global,
    parts: Parts,
    story: &Story,
) -> Option<Closed>
    requires name { parts.blank.name ≡ N.name }
    requires parts { parts.blank.parts ≡ N.parts }
    requires shares { parts.shares ≡ N.shares }
    requires opening { (parts.manager.accepted ≡ N.opening) × (parts.manager.table.detect ≡ N.detect) }
    requires book { (parts.line.book ≡ N.book) × (board_of (state_of parts.manager) ≡ N.first) }
{
    let Ok((shared, shares, watchers)) = Shared::<N>::new(rt, alloc, parts) else {
        return None;
    };
    let shares = story.run(rt, alloc, &shared, shares, watchers);
    match gather(rt, shared, shares) {
        Ok(closed) => Some(closed),
        Err(NotAll { shared, shares: _ }) => {
            shared.abandon(rt);
            None
        }
    }
}

/// Plays on a table over this manager, with this telling, and closes it, if there is memory.
fn try_on<R: Threads + Wait + Abort + Sync>(
    rt: &R,
    alloc: Global,
    manager: Manager,
    telling: Telling,
    shares: u64,
    story: &Story,
) -> Option<Closed>
    requires counts { (0 < shares) × (shares < 130) }
{
    match Parts::new(rt, alloc, manager, shares, 2) {
        Ok(parts) => {
            let parts = parts.with_telling(telling);
            enact_under_name::<Brand, R>(rt, alloc, parts, story)
        }
        Err(_) => None,
    }
}

/// The same; there must be memory.
pub fn run_on<R: Threads + Wait + Abort + Sync>(
    rt: &R,
    alloc: Global,
    manager: Manager,
    telling: Telling,
    shares: u64,
    story: &Story,
) -> Closed
    requires counts { (0 < shares) × (shares < 130) }
{
    let before = manager.accepted();
    let closed = try_on(rt, alloc, manager, telling, shares, story);
    let closed = closed.expect(rt, "no memory, or a share is missing");
    same(
        rt,
        closed.manager.accepted().checked_sub(before),
        Some(closed.book),
    );
    closed
}

/// Whether no transaction lives.
pub fn nobody_lives(closed: &Closed) -> bool {
    let board = closed.manager.board();
    board.ages == [0; SLOTS] && board.rows == [0; SLOTS]
}

/// Plays a scenario over a manager in which this was made.
pub fn tell_over<R: Threads + Wait + Abort + Sync>(
    rt: &R,
    alloc: Global,
    manager: Manager,
    made: Made,
    telling: Telling,
    tale: Tale,
) {
    let players = tale.players as u64;
    let players = if 0 < players && players < 130 {
        players
    } else {
        1
    };
    let closed = run_on(
        rt,
        alloc,
        manager,
        telling,
        players,
        &Story::Tale(tale, made),
    );
    let counted = tale.counted.unwrap_or(closed.book);
    let is_over = nobody_lives(&closed) || !tale.is_over;
    same(
        rt,
        (tale.name, closed.book, is_over),
        (tale.name, counted, true),
    );
}

/// Plays scenarios, each with all its settings.
pub fn tell_all<R: Threads + Wait + Abort + Sync>(rt: &R, alloc: Global, tales: &[Tale]) {
    for tale in tales {
        for (detect, telling) in tale.by {
            let mut manager = new_manager(rt, alloc, *detect);
            let mut made = Made::new();
            for steps in tale.before {
                prepare(&mut manager, &mut made, steps);
            }
            tell_over(rt, alloc, manager, made, *telling, *tale);
        }
    }
}

/// A manager for 128 transactions at once.
pub fn new_manager<R: Abort>(rt: &R, alloc: Global, detect: Detect) -> Manager {
    allowed(rt, Manager::new(alloc, detect, 128))
}

/// The youngest suspect of a board.
pub fn suspect_on(board: &Board) -> Option<TxnId> {
    match youngest(board, suspects(board)) {
        Some(slot) if slot < SLOTS => Some(TxnId {
            slot: slot as u8,
            age: board.ages[slot],
        }),
        _ => None,
    }
}
