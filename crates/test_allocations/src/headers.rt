//! The queue of one header grows, and a grant takes no memory.

use crate::bill::Bill;
use crate::watch::Watch;
use arrayvec::ArrayVec;
use gl_header::{Asked, Header, Try};
use gl_modes::{Mode, Refusal};
use std::alloc::Global;

pub(crate) fn run(bill: &mut Bill<'_>) {
    let differs = waits(bill.alloc());
    bill.tell("header: many wait", differs);
    let differs = grants(bill.alloc());
    bill.tell("header: many hold, and each is raised", differs);
}

/// How many slots are used.
const SLOTS: u8 = 24;

/// All that can be asked of these slots.
#[derive(Clone, Copy, PartialEq)]
struct Seen {
    group: Mode,
    held: [Mode; 24],
    wanted: [Option<Mode>; 24],
}

fn look(header: &Header) -> Seen {
    let mut seen = Seen {
        group: header.group(),
        held: [Mode::NL; 24],
        wanted: [None; 24],
    };
    for slot in 0..SLOTS {
        seen.held[slot as usize] = header.mode_of(slot);
        seen.wanted[slot as usize] = header.wanted_by(slot);
    }
    seen
}

/// Requests a lock if the call's conditions hold; else `None`.
#[tactic(auto, using(crate::proofs::Steps::caller_steps))]
fn ask(header: &mut Header, slot: u8, mode: Mode) -> Result<Option<Asked>, Refusal> {
    if slot >= 128 || mode == Mode::NL || header.wanted_by(slot).is_some() {
        return Ok(None);
    }
    Ok(Some(header.ask(slot, mode)?))
}

/// Tries if the call's conditions hold; else `None`.
#[tactic(auto, using(crate::proofs::Steps::caller_steps))]
fn try_ask(header: &mut Header, slot: u8, mode: Mode) -> Option<Try> {
    if slot >= 128 || mode == Mode::NL || header.wanted_by(slot).is_some() {
        return None;
    }
    Some(header.try_ask(slot, mode))
}

/// Drops a grant if there is one and the slot does not wait. Returns how many it granted.
#[tactic(auto, using(crate::proofs::Steps::caller_steps))]
fn drop_grant(header: &mut Header, slot: u8) -> Option<usize> {
    if header.mode_of(slot) == Mode::NL || header.wanted_by(slot).is_some() {
        return None;
    }
    let mut granted = ArrayVec::new();
    header.drop_grant(slot, &mut granted);
    Some(granted.len())
}

/// Requests a lock. If an allocation failed, nothing may have changed, and the request is retried.
fn ask_growing(
    header: &mut Header,
    slot: u8,
    mode: Mode,
    watch: &mut Watch,
) -> Result<Option<Asked>, Refusal> {
    watch.step();
    let before = look(header);
    let answer = ask(header, slot, mode);
    if answer != Err(Refusal::NoMemory) {
        return answer;
    }
    watch.same(look(header), before);
    ask(header, slot, mode)
}

/// One slot holds, which takes no memory, and all others wait for it.
fn waits(alloc: Global) -> Option<u32> {
    let mut header = Header::new(alloc);
    let mut watch = Watch::new();
    watch.step();
    let first = ask(&mut header, 0, Mode::X);
    watch.same(first, Ok(Some(Asked::Granted(Mode::X))));
    for slot in 1..SLOTS {
        let answer = ask_growing(&mut header, slot, Mode::S, &mut watch);
        watch.same(answer, Ok(Some(Asked::Waiting)));
    }
    watch.step();
    watch.same(drop_grant(&mut header, 0), Some(23));
    watch.differs()
}

/// All hold, and each is raised at once. Neither takes memory.
fn grants(alloc: Global) -> Option<u32> {
    let mut header = Header::new(alloc);
    let mut watch = Watch::new();
    for slot in 0..SLOTS {
        watch.step();
        let answer = try_ask(&mut header, slot, Mode::IS);
        watch.same(answer, Some(Try::Granted(Mode::IS)));
        let raised = ask(&mut header, slot, Mode::IX);
        watch.same(raised, Ok(Some(Asked::Granted(Mode::IX))));
        let again = try_ask(&mut header, slot, Mode::IX);
        watch.same(again, Some(Try::Granted(Mode::IX)));
    }
    watch.same(header.group(), Mode::IX);
    watch.differs()
}
