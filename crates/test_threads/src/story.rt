//! The scenarios that are played on a table, and their players.

use crate::actor::Entry;
use crate::alike::Alike;
use crate::crowd::Crowd;
use crate::looks::Watched;
use crate::player::{Deed, performs};
use crate::steps::{Made, Step};
use gl_shared::{Naming, Share, Shared, Telling, Watcher};
use gl_table::Detect;
use std::alloc::{AllocError, Global};
use std::process::Abort;
use std::sync::Wait;
use std::sync::atomic::{AtomicUsize, Ordering};
use std::thread::{Threads, map_vec, yield_now};

/// A scenario of a few players: what was done before there were sessions, and what each player does.
#[derive(Clone, Copy)]
pub struct Tale {
    pub name: &'static str,
    pub before: &'static [&'static [Step]],
    pub players: usize,
    pub parts: &'static [&'static [Deed]],
    /// How many commands of the sessions are counted, if this is given.
    pub counted: Option<u64>,
    /// How often the second flag is raised in the end.
    pub raised: usize,
    /// Whether no transaction lives in the end.
    pub is_over: bool,
    /// The settings: ways of detection and of telling watchers.
    pub by: &'static [(Detect, Telling)],
}

impl Tale {
    /// The deeds of a player: the last player has the last part, the others have those before it by
    /// their places. Further players have the same part as the last of these.
    pub fn part(&self, place: usize) -> &'static [Deed] {
        let last = self.parts.len().saturating_sub(1);
        let at = if place.saturating_add(1) == self.players {
            last
        } else {
            place.min(last.saturating_sub(1))
        };
        self.parts.get(at).copied().unwrap_or(&[])
    }
}

/// Each way of detection and of telling watchers.
pub const EACH_WAY: &[(Detect, Telling)] = &[
    (Detect::AtBlock, Telling::Always),
    (Detect::ByWatcher, Telling::Always),
    (Detect::AtBlock, Telling::WhileWaiting),
    (Detect::ByWatcher, Telling::WhileWaiting),
];

/// Each way of detection, with watchers that are always told.
pub const EACH_DETECTION: &[(Detect, Telling)] = &[
    (Detect::AtBlock, Telling::Always),
    (Detect::ByWatcher, Telling::Always),
];

pub const AT_BLOCK: &[(Detect, Telling)] = &[(Detect::AtBlock, Telling::Always)];

pub const BY_WATCHER: &[(Detect, Telling)] = &[(Detect::ByWatcher, Telling::Always)];

/// What sessions do with a table.
#[derive(Drop)]
pub enum Story {
    Alike(Alike),
    Crowd(Crowd),
    Tale(Tale, Made),
    Watched(Watched),
}

/// Two counters that players raise and wait for.
#[derive(Drop)]
pub struct Flags {
    first: AtomicUsize,
    second: AtomicUsize,
}

/// One of the counters.
#[derive(Clone, Copy)]
pub enum Flag {
    First,
    Second,
}

impl Flags {
    fn new() -> Flags {
        Flags {
            first: AtomicUsize::new(0),
            second: AtomicUsize::new(0),
        }
    }

    fn counter(&self, flag: Flag) -> &AtomicUsize {
        match flag {
            Flag::First => &self.first,
            Flag::Second => &self.second,
        }
    }

    pub fn raise(&self, flag: Flag) {
        self.counter(flag).fetch_add(1, Ordering::SeqCst);
    }

    pub fn count(&self, flag: Flag) -> usize {
        self.counter(flag).load(Ordering::SeqCst)
    }

    /// Whether the counter reached this count, within a million looks.
    pub fn reaches(&self, flag: Flag, count: usize) -> bool {
        for _ in 0..1000000u32 {
            if self.count(flag) == count {
                return true;
            }
            yield_now();
        }
        false
    }
}

/// A player by its place, with a share, and watchers if it looks.
#[derive(Drop)]
pub struct Entrant<N: Naming> {
    pub share: Share<N>,
    pub watchers: Vec<Watcher<N>>,
    pub place: usize,
}

/// What a player returns: its share, and what it asked if that is compared.
#[derive(Drop)]
pub struct Left<N: Naming> {
    pub share: Share<N>,
    pub diary: Vec<Entry>,
}

/// A player for each share. The last one has all watchers if few take part, otherwise each has one
/// while there are any.
fn entrants<N: Naming>(
    alloc: Global,
    shares: Vec<Share<N>>,
    mut watchers: Vec<Watcher<N>>,
    has_each: bool,
) -> Vec<Entrant<N>> {
    let mut entrants = Vec::new(alloc);
    let last = shares.len();
    for (place, share) in shares.into_iter().enumerate() {
        let count = if has_each {
            1
        } else if place + 1 == last {
            2
        } else {
            0
        };
        let mut own = Vec::new(alloc);
        for _ in 0..count {
            if let Some(watcher) = watchers.pop() {
                let _ = own.push(watcher);
            }
        }
        let _ = entrants.push(Entrant {
            share,
            watchers: own,
            place,
        });
    }
    entrants
}

impl Story {
    /// The part of one player.
    fn takes_part<N: Naming, R: Wait + Abort>(
        &self,
        rt: &R,
        alloc: Global,
        table: &Shared<N>,
        entrant: Entrant<N>,
        flags: &Flags,
    ) -> Left<N> {
        match self {
            Story::Alike(story) => story.runs(rt, alloc, table, entrant),
            Story::Crowd(story) => story.runs(rt, alloc, table, entrant, flags),
            Story::Tale(tale, made) => performs(rt, alloc, table, entrant, flags, tale, made),
            Story::Watched(story) => story.runs(rt, alloc, table, entrant),
        }
    }

    /// Runs all players at once, each in a thread.
    fn take_part_all<N: Naming + Send + Sync, R: Threads + Wait + Abort + Sync>(
        &self,
        rt: &R,
        alloc: Global,
        table: &Shared<N>,
        entrants: Vec<Entrant<N>>,
        flags: &Flags,
    ) -> Result<Vec<Left<N>>, AllocError> {
        map_vec(
            rt,
            entrants,
            &|entrant: Entrant<N>| -> Left<N> { self.takes_part(rt, alloc, table, entrant, flags) },
        )
    }

    /// Plays with the shares and the watchers of a table, and returns the shares.
    pub fn run<N: Naming + Send + Sync, R: Threads + Wait + Abort + Sync>(
        &self,
        rt: &R,
        alloc: Global,
        table: &Shared<N>,
        shares: Vec<Share<N>>,
        watchers: Vec<Watcher<N>>,
    ) -> Vec<Share<N>> {
        let flags = Flags::new();
        let entrants = entrants(alloc, shares, watchers, matches!(self, Story::Watched(_)));
        let left = self.take_part_all(rt, alloc, table, entrants, &flags);
        let left = left.unwrap_or(Vec::new(alloc));
        match self {
            Story::Crowd(story) => story.ends(rt, alloc, table, left),
            Story::Tale(tale, _) => {
                assert!(rt; flags.count(Flag::Second) == tale.raised);
                shares_of(alloc, left)
            }
            _ => shares_of(alloc, left),
        }
    }
}

fn shares_of<N: Naming>(alloc: Global, left: Vec<Left<N>>) -> Vec<Share<N>> {
    let mut shares = Vec::new(alloc);
    for Left { share, diary: _ } in left {
        let _ = shares.push(share);
    }
    shares
}
