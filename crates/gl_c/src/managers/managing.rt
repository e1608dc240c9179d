//! Calls that make and end managers.

ghost use Rattle.gl_slots.specs.Limit.{most_slots};
ghost use Rattle.std.specs.Prelude.{◌≡◌, ◌≤◌, ◌^◌, None};
ghost use Rattle.gl_c.specs.managers.Handle.{guarded_in};
ghost use Rattle.gl_c.specs.managers.Managing.{Begins, Makes, can_be_limit, can_have, ended};

use crate::answers::reply::Reply;
use crate::managers::handle::Handle;
use crate::managers::session::Session;
use crate::numbers::{BAD_NUMBER, DONE, IN_USE, NO_MANAGER, detect_at, victims_at};
use gl_modes::Refusal;
use gl_slots::SLOTS;
use gl_table::Detect;
use gl_waits::Victims;
use std::alloc::Global;

/// The greatest limit of nodes or of bounds.
const GREATEST_LIMIT: u32 = 2_147_483_648;

/// How many slots there are, as in the arrays of C's structs.
#[unsafe(no_mangle)]
pub extern "C" fn bs_call_slots() -> u32
    ensures { result ≡ most_slots }
{
    SLOTS as u32
}

/// Makes a manager at a place that has none, by the numbers of a way of detection and of a choice of
/// victims: for `most` transactions at once, 1 to `SLOTS`, with how many nodes may live at once and how
/// many bounds an index may have, each 1 to 2^31. Takes memory.
#[unsafe(no_mangle)]
pub extern "C" fn bs_call_make_with(
    manager: &mut Handle,
    alloc: Global,
    detect: u32,
    victims: u32,
    most: u32,
    nodes: u32,
    bounds: u32,
) -> Reply
    ensures { Makes (guarded_in manager.old) detect victims most nodes bounds result (guarded_in manager.new) }
{
    if manager.has_session() {
        return Reply::with_status(IN_USE);
    }
    match (detect_at(detect), victims_at(victims)) {
        (Some(detect), Some(victims)) if can_have(most, nodes, bounds) => {
            make(
                manager,
                alloc,
                detect,
                victims,
                most as usize,
                nodes,
                bounds,
            )
        }
        _ => Reply::with_status(BAD_NUMBER),
    }
}

/// Whether these limits are allowed.
fn can_have(most: u32, nodes: u32, bounds: u32) -> bool
    ensures { result ≡ can_have most nodes bounds }
{
    (most >= 1 && most as usize <= SLOTS) && (can_be_limit(nodes) && can_be_limit(bounds))
}

/// Whether this can be the limit of nodes, or of an index's bounds.
fn can_be_limit(number: u32) -> bool
    ensures { result ≡ can_be_limit number }
{
    number >= 1 && number <= GREATEST_LIMIT
}

/// Makes a manager at a place that has none.
fn make(
    manager: &mut Handle,
    alloc: Global,
    detect: Detect,
    victims: Victims,
    most: usize,
    nodes: u32,
    bounds: u32,
) -> Reply
    requires none { guarded_in manager.old ≡ None }
    requires some { 1 ≤ most }
    requires few { most ≤ most_slots }
    requires low { nodes ≤ 2 ^ 31 }
    ensures { Begins detect victims most nodes bounds result (guarded_in manager.new) }
{
    let Ok(session) = Session::new(alloc, detect, victims, most, nodes, bounds) else {
        return Reply::refused(Refusal::NoMemory);
    };
    let Ok(session) = Box::new(alloc, session) else {
        return Reply::refused(Refusal::NoMemory);
    };
    *manager = Handle::of(alloc, session);
    Reply::with_status(DONE)
}

/// Ends a manager, and frees all memory that it took. The place then has no manager.
#[unsafe(no_mangle)]
pub extern "C" fn bs_call_end(manager: &mut Handle) -> Reply
    ensures replied { result ≡ ended (guarded_in manager.old) }
    ensures none { guarded_in manager.new ≡ None }
{
    match manager.take() {
        Some(_) => Reply::with_status(DONE),
        None => Reply::with_status(NO_MANAGER),
    }
}
