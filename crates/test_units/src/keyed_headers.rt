//! The headers of all nodes: found by the node's key, inserted and removed.

ghost use Rattle.std.specs.Prelude.{◌≡◌, ◌≢◌, ◌<◌, false, true};
ghost use Rattle.gl_modes.specs.declared.mode.Mode.TheVariants.{NL};
ghost use Rattle.gl_header.specs.Header.{is_among_waiters};
ghost use Rattle.gl_header.specs.Headers.{HasItsKey, queue_of};

use crate::wanted::same;
use arrayvec::ArrayVec;
use gl_header::{Asked, GrantList, Headers};
use gl_modes::{Mode, NodeId, Refusal};
use std::alloc::Global;
use std::process::Abort;

/// Whether a slot waits for a node.
fn waits(headers: &Headers, slot: u8, node: NodeId) -> bool
    ensures { result ≡ is_among_waiters slot (queue_of headers.now.entries node) }
{
    headers.queue(node).iter().any(|waiter| waiter.0 == slot)
}

/// Whether nobody holds or waits for another node of this one's key.
#[tactic(auto, using(crate::proofs::Steps::caller_steps))]
fn is_alone(headers: &Headers, node: NodeId) -> bool
    ensures { result ≡ true → HasItsKey headers.now.entries node }
{
    headers.law();
    !headers.is_idle(node) || headers.is_free(node.key)
}

/// Whether a slot may request a mode on a node.
fn may_ask(headers: &Headers, slot: u8, node: NodeId, mode: Mode) -> bool
    ensures below { result ≡ true → slot < 128 }
    ensures not_waiting { result ≡ true → is_among_waiters slot (queue_of headers.now.entries node) ≡ false }
    ensures lock { result ≡ true → mode ≢ NL }
    ensures alone { result ≡ true → HasItsKey headers.now.entries node }
{
    slot < 128 && mode != Mode::NL && !waits(headers, slot, node) && is_alone(headers, node)
}

/// Requests a lock if the call's conditions hold.
fn ask(
    headers: &mut Headers,
    slot: u8,
    node: NodeId,
    mode: Mode,
) -> Result<Option<Asked>, Refusal> {
    if !may_ask(headers, slot, node, mode) {
        return Ok(None);
    }
    let held = headers.mode_of(slot, node);
    Ok(Some(headers.ask(slot, node, held, mode)?))
}

/// A request with this outcome.
fn asks(
    rt: &impl Abort,
    headers: &mut Headers,
    slot: u8,
    node: NodeId,
    mode: Mode,
    wanted: Option<Asked>,
) {
    same(rt, ask(headers, slot, node, mode), Ok(wanted));
}

/// Whether a request would be granted at once.
fn would_grant(headers: &Headers, slot: u8, node: NodeId, mode: Mode) -> bool {
    headers.would_grant(slot, node, headers.mode_of(slot, node), mode)
}

/// New headers.
fn new_headers(rt: &impl Abort, alloc: Global) -> Headers {
    Headers::new(alloc).expect(rt, "no memory")
}

/// Drops a grant if there is one and the slot does not wait.
fn drop_grant(headers: &mut Headers, slot: u8, node: NodeId) -> Option<GrantList> {
    if waits(headers, slot, node) || !headers.holders(node).contains(slot) {
        return None;
    }
    let mut granted = ArrayVec::new();
    headers.drop_grant(slot, node, &mut granted);
    Some(granted)
}

/// Drops a wait if there is one.
fn drop_wait(headers: &mut Headers, slot: u8, node: NodeId) -> Option<GrantList> {
    if !waits(headers, slot, node) {
        return None;
    }
    let mut granted = ArrayVec::new();
    headers.drop_wait(slot, node, &mut granted);
    Some(granted)
}

/// Gives a node to a slot by a header that is prepared for it, if its key is free.
fn place(headers: &mut Headers, slot: u8, node: NodeId) -> Result<bool, Refusal> {
    if slot >= 128 || !headers.is_free(node.key) {
        return Ok(false);
    }
    let prepared = headers.prepare(node.key, slot, Mode::X)?;
    headers.put(node, prepared);
    Ok(true)
}

/// A node with this key.
fn node_of(key: usize, birth: u64) -> NodeId {
    NodeId { key, birth }
}

/// A grant to this slot.
fn gets(rt: &impl Abort, headers: &mut Headers, slot: u8, node: NodeId, mode: Mode) {
    asks(rt, headers, slot, node, mode, Some(Asked::Granted(mode)));
}

/// Something was dropped, and these were granted.
fn lets_in(rt: &impl Abort, granted: Option<GrantList>, wanted: &[(u8, Mode)]) {
    let granted = granted.expect(rt, "nothing is dropped");
    same(rt, granted.as_slice(), wanted);
}

/// Whether nobody holds or waits for a node, and whether its key is free.
fn is_gone(headers: &Headers, node: NodeId) -> (bool, bool) {
    (headers.is_idle(node), headers.is_free(node.key))
}

/// Whether nobody holds or waits for a node, and whether it has a header of its own.
fn has_box(headers: &Headers, node: NodeId) -> (bool, bool) {
    (headers.is_idle(node), headers.shared(node).is_some())
}

/// Whether two slots hold a node.
fn held_by(headers: &Headers, node: NodeId, slots: [u8; 2]) -> [bool; 2] {
    let holders = headers.holders(node);
    [holders.contains(slots[0]), holders.contains(slots[1])]
}

#[test]
fn a_header_is_found_by_its_key(rt: HostRuntime) {
    let mut headers = new_headers(&rt, rt.alloc());
    let (near, far, other) = (node_of(0, 1), node_of(70, 2), node_of(70, 3));
    same(&rt, is_gone(&headers, far), (true, true));
    same(&rt, headers.group(far), Mode::NL);
    same(&rt, would_grant(&headers, 5, far, Mode::X), true);
    gets(&rt, &mut headers, 5, far, Mode::X);
    gets(&rt, &mut headers, 6, near, Mode::IS);
    same(&rt, headers.group(far), Mode::X);
    same(&rt, headers.group(near), Mode::IS);
    same(&rt, held_by(&headers, far, [5, 6]), [true, false]);
    same(&rt, held_by(&headers, near, [5, 6]), [false, true]);
    same(&rt, would_grant(&headers, 6, far, Mode::IS), false);
    same(&rt, is_gone(&headers, other), (true, false));
    same(&rt, headers.group(other), Mode::NL);
    asks(&rt, &mut headers, 6, other, Mode::S, None);
}

/// The modes in which slots 4, 5 and 6 hold a node.
fn modes_of(headers: &Headers, node: NodeId) -> [Mode; 3] {
    [
        headers.mode_of(4, node),
        headers.mode_of(5, node),
        headers.mode_of(6, node),
    ]
}

#[test]
fn one_holder_and_several_are_told_apart(rt: HostRuntime) {
    let mut headers = new_headers(&rt, rt.alloc());
    let (node, later) = (node_of(70, 2), node_of(70, 3));
    same(&rt, modes_of(&headers, node), [Mode::NL; 3]);
    gets(&rt, &mut headers, 5, node, Mode::IX);
    same(
        &rt,
        modes_of(&headers, node),
        [Mode::NL, Mode::IX, Mode::NL],
    );
    same(&rt, modes_of(&headers, later), [Mode::NL; 3]);
    gets(&rt, &mut headers, 6, node, Mode::IS);
    same(
        &rt,
        modes_of(&headers, node),
        [Mode::NL, Mode::IX, Mode::IS],
    );
}

#[test]
fn a_key_is_used_again(rt: HostRuntime) {
    let mut headers = new_headers(&rt, rt.alloc());
    let (old, new) = (node_of(3, 1), node_of(3, 2));
    gets(&rt, &mut headers, 0, old, Mode::S);
    lets_in(&rt, drop_grant(&mut headers, 0, old), &[]);
    same(&rt, is_gone(&headers, old), (true, true));
    gets(&rt, &mut headers, 1, new, Mode::X);
    same(&rt, held_by(&headers, new, [1, 0]), [true, false]);
    same(&rt, is_gone(&headers, old), (true, false));
}

#[test]
fn queues_grant_and_are_left(rt: HostRuntime) {
    let mut headers = new_headers(&rt, rt.alloc());
    let node = node_of(1, 1);
    gets(&rt, &mut headers, 0, node, Mode::X);
    for slot in [1, 2] {
        asks(&rt, &mut headers, slot, node, Mode::S, Some(Asked::Waiting));
    }
    let queue: &[(u8, Mode)] = &[(1, Mode::S), (2, Mode::S)];
    same(&rt, headers.queue(node), queue);
    let awaited = headers.waits_for(2, node, Mode::S);
    same(
        &rt,
        [awaited.contains(0), awaited.contains(1)],
        [true, true],
    );
    lets_in(&rt, drop_wait(&mut headers, 2, node), &[]);
    lets_in(&rt, drop_grant(&mut headers, 0, node), &[(1, Mode::S)]);
    same(&rt, headers.group(node), Mode::S);
    lets_in(&rt, drop_grant(&mut headers, 1, node), &[]);
    same(&rt, is_gone(&headers, node), (true, true));
}

#[test]
fn more_headers_go_than_wait_aside(rt: HostRuntime) {
    let mut headers = new_headers(&rt, rt.alloc());
    for birth in [1, 2] {
        for key in 0..20 {
            gets(&rt, &mut headers, 9, node_of(key, birth), Mode::IX);
        }
        for key in 0..20 {
            let node = node_of(key, birth);
            lets_in(&rt, drop_grant(&mut headers, 9, node), &[]);
            same(&rt, is_gone(&headers, node), (true, true));
        }
    }
}

#[test]
fn a_header_is_prepared_and_taken(rt: HostRuntime) {
    let mut headers = new_headers(&rt, rt.alloc());
    let node = node_of(40, 7);
    same(&rt, place(&mut headers, 2, node), Ok(true));
    same(&rt, place(&mut headers, 2, node), Ok(false));
    same(&rt, headers.group(node), Mode::X);
    asks(&rt, &mut headers, 3, node, Mode::S, Some(Asked::Waiting));
    let header = headers.take(node).expect(&rt, "slot 2 holds the node");
    same(&rt, header.queue(), [(3, Mode::S)].as_slice());
    same(&rt, headers.is_free(40), true);
    same(&rt, headers.take(node).is_none(), true);
}

#[test]
fn one_holder_has_no_box(rt: HostRuntime) {
    let mut headers = new_headers(&rt, rt.alloc());
    let node = node_of(5, 1);
    gets(&rt, &mut headers, 2, node, Mode::IS);
    gets(&rt, &mut headers, 2, node, Mode::X);
    same(&rt, has_box(&headers, node), (false, false));
    asks(&rt, &mut headers, 3, node, Mode::S, Some(Asked::Waiting));
    same(&rt, has_box(&headers, node), (false, true));
    lets_in(&rt, drop_grant(&mut headers, 2, node), &[(3, Mode::S)]);
    lets_in(&rt, drop_grant(&mut headers, 3, node), &[]);
    same(&rt, is_gone(&headers, node), (true, true));
    gets(&rt, &mut headers, 4, node, Mode::S);
    same(&rt, has_box(&headers, node), (false, false));
}
