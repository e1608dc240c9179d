//! Headers: the worked rows, by slots.

ghost use Rattle.std.specs.Prelude.{◌≡◌, ◌≢◌, ◌<◌, false, true};
ghost use Rattle.gl_modes.specs.declared.mode.Mode.TheVariants.{NL};
ghost use Rattle.gl_header.specs.Header.{is_among_waiters};

use crate::wanted::same;
use arrayvec::ArrayVec;
use gl_header::{Asked, GrantList, Header, Try};
use gl_modes::{Mode, Refusal};
use std::alloc::Global;
use std::process::Abort;

/// Whether a slot may request a mode: it does not wait, and the mode can be held.
#[tactic(auto, using(crate::proofs::Steps::caller_steps))]
fn may_ask(header: &Header, slot: u8, mode: Mode) -> bool
    ensures below { result ≡ true → slot < 128 }
    ensures not_waiting { result ≡ true → is_among_waiters slot header.now.queue ≡ false }
    ensures lock { result ≡ true → mode ≢ NL }
{
    slot < 128 && mode != Mode::NL && header.wanted_by(slot).is_none()
}

/// Requests a lock if the call's conditions hold.
fn ask(header: &mut Header, slot: u8, mode: Mode) -> Result<Option<Asked>, Refusal> {
    if !may_ask(header, slot, mode) {
        return Ok(None);
    }
    Ok(Some(header.ask(slot, mode)?))
}

/// A request with this outcome.
fn asks(rt: &impl Abort, header: &mut Header, slot: u8, mode: Mode, wanted: Asked) {
    same(rt, ask(header, slot, mode), Ok(Some(wanted)));
}

/// Tries if the call's conditions hold.
fn try_ask(header: &mut Header, slot: u8, mode: Mode) -> Option<Try> {
    if !may_ask(header, slot, mode) {
        return None;
    }
    Some(header.try_ask(slot, mode))
}

/// Drops a grant if there is one and the slot does not wait.
#[tactic(auto, using(crate::proofs::Steps::caller_steps))]
fn drop_grant(header: &mut Header, slot: u8) -> Option<GrantList> {
    if header.mode_of(slot) == Mode::NL || header.wanted_by(slot).is_some() {
        return None;
    }
    let mut granted = ArrayVec::new();
    header.drop_grant(slot, &mut granted);
    Some(granted)
}

/// Drops a wait if there is one.
#[tactic(auto, using(crate::proofs::Steps::caller_steps))]
fn drop_wait(header: &mut Header, slot: u8) -> Option<GrantList> {
    if header.wanted_by(slot).is_none() {
        return None;
    }
    let mut granted = ArrayVec::new();
    header.drop_wait(slot, &mut granted);
    Some(granted)
}

/// Dismisses a wait after another one, which cannot grant anything.
#[tactic(auto, using(crate::proofs::Steps::caller_steps))]
fn dismiss_behind(header: &mut Header, slot: u8, other: u8) -> bool {
    if !header.ahead(slot, other) {
        return false;
    }
    header.law();
    header.dismiss(slot);
    true
}

/// Something was dropped, and these were granted.
fn lets_in(rt: &impl Abort, granted: Option<GrantList>, wanted: &[(u8, Mode)]) {
    let granted = granted.expect(rt, "nothing is dropped");
    same(rt, granted.as_slice(), wanted);
}

#[test]
fn a_conversion_goes_first(rt: HostRuntime) {
    let mut header = Header::new(rt.alloc());
    asks(&rt, &mut header, 0, Mode::S, Asked::Granted(Mode::S));
    asks(&rt, &mut header, 1, Mode::S, Asked::Granted(Mode::S));
    asks(&rt, &mut header, 2, Mode::X, Asked::Waiting);
    asks(&rt, &mut header, 0, Mode::X, Asked::Waiting);
    lets_in(&rt, drop_grant(&mut header, 1), &[(0, Mode::X)]);
    same(&rt, header.group(), Mode::X);
    lets_in(&rt, drop_grant(&mut header, 0), &[(2, Mode::X)]);
}

#[test]
fn a_conversion_passes_the_queue(rt: HostRuntime) {
    let mut header = Header::new(rt.alloc());
    asks(&rt, &mut header, 0, Mode::IS, Asked::Granted(Mode::IS));
    asks(&rt, &mut header, 1, Mode::X, Asked::Waiting);
    asks(&rt, &mut header, 0, Mode::S, Asked::Granted(Mode::S));
}

/// The slots from 1 on request S one after the other, and wait.
fn readers_wait(rt: &impl Abort, header: &mut Header, last: u8) {
    for slot in 1..=last {
        asks(rt, header, slot, Mode::S, Asked::Waiting);
    }
}

/// The slots from 1 on were granted S, in this order, and nobody else.
fn readers_are_granted(rt: &impl Abort, granted: &GrantList, last: u8) {
    same(rt, granted.len(), usize::from(last));
    for (slot, grant) in (1..=last).zip(granted.as_slice()) {
        same(rt, *grant, (slot, Mode::S));
    }
}

/// A writer holds the node, and releases it when this many readers wait.
fn let_readers_in(rt: &impl Abort, alloc: Global, last: u8) {
    let mut header = Header::new(alloc);
    asks(rt, &mut header, 0, Mode::X, Asked::Granted(Mode::X));
    readers_wait(rt, &mut header, last);
    let granted = drop_grant(&mut header, 0).expect(rt, "slot 0 holds X");
    readers_are_granted(rt, &granted, last);
    same(rt, header.group(), Mode::S);
}

#[test]
fn one_release_lets_63_readers_in(rt: HostRuntime) {
    let_readers_in(&rt, rt.alloc(), 63)
}

#[test]
fn one_release_lets_all_127_readers_in(rt: HostRuntime) {
    let_readers_in(&rt, rt.alloc(), 127)
}

#[test]
fn the_group_falls(rt: HostRuntime) {
    let mut header = Header::new(rt.alloc());
    asks(&rt, &mut header, 0, Mode::IX, Asked::Granted(Mode::IX));
    asks(&rt, &mut header, 0, Mode::S, Asked::Granted(Mode::SIX));
    same(
        &rt,
        try_ask(&mut header, 1, Mode::IX),
        Some(Try::WouldBlock),
    );
    same(
        &rt,
        try_ask(&mut header, 1, Mode::IS),
        Some(Try::Granted(Mode::IS)),
    );
    lets_in(&rt, drop_grant(&mut header, 0), &[]);
    same(&rt, header.group(), Mode::IS);
}

/// Three wait for a reader, in this order.
fn three_wait(rt: &impl Abort, header: &mut Header) {
    for (slot, mode) in [(1, Mode::X), (2, Mode::IX), (3, Mode::IS)] {
        same(rt, header.would_grant(slot, mode), false);
        asks(rt, header, slot, mode, Asked::Waiting);
    }
    let ahead = [header.ahead(3, 1), header.ahead(3, 2), header.ahead(2, 3)];
    same(rt, ahead, [true, true, false]);
}

#[test]
fn waits_are_taken_out(rt: HostRuntime) {
    let mut header = Header::new(rt.alloc());
    same(&rt, header.is_empty(), true);
    asks(&rt, &mut header, 0, Mode::S, Asked::Granted(Mode::S));
    three_wait(&rt, &mut header);
    same(&rt, header.wanted_by(2), Some(Mode::IX));
    same(&rt, header.mode_of(2), Mode::NL);
    same(&rt, dismiss_behind(&mut header, 2, 1), true);
    same(&rt, header.wanted_by(2), None);
    lets_in(&rt, drop_wait(&mut header, 1), &[(3, Mode::IS)]);
    same(&rt, header.is_empty(), false);
    for slot in [0, 3] {
        lets_in(&rt, drop_grant(&mut header, slot), &[]);
    }
    same(&rt, header.is_empty(), true);
    same(&rt, header.group(), Mode::NL);
}
