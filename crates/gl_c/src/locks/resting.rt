//! Exports about those who rest: active transactions that have done nothing, and hold intentions for the next
//! transaction of their session. After a call that left a request waiting the caller ends those who are in its
//! way by `bs_call_clear_way`, until none is, before it releases its latch. The number `one` is 0 to end all of
//! them, up to one whose end tells somebody.

ghost use Rattle.std.specs.Prelude.{◌≡◌, []};
ghost use Rattle.gl_waiting.specs.declared.resting.Number.TheVariants as number;
ghost use Rattle.gl_waiting.specs.declared.resting.Whom.TheVariants as whom;
ghost use Rattle.gl_c.specs.answers.Notices.{Tells};
ghost use Rattle.gl_c.specs.Numbers.{bad_number, mode_at};
ghost use Rattle.gl_c.specs.locks.Resting.{CountsIntentionsIn, FindsResting, RestsIn, WakesIn, end_call, number_of_ends};
ghost use Rattle.gl_c.specs.managers.Carries.{Carries, Declines, Where};
ghost use Rattle.gl_c.specs.managers.Handle.{guarded_in};
ghost use Rattle.gl_c.specs.Names.{node_id, txn_id};

use crate::answers::found::Found;
use crate::answers::notices::Notices;
use crate::answers::reply::Reply;
use crate::managers::handle::Handle;
use crate::names::{Node, Txn};
use crate::numbers::{BAD_NUMBER, mode_at};
use gl_waiting::{Number, Whom};

/// As `bs_call_commit_keeping`, of the first locks that are intentions, up to `most`, of which the caller knows
/// that the first `known` are; the transaction that begins rests. The reply has the number of locks that it
/// keeps. `BS_NO_PLACE` if the first lock is no intention: then nothing changes.
#[unsafe(no_mangle)]
pub extern "C" fn bs_call_commit_and_rest(
    manager: &mut Handle,
    txn: Txn,
    known: usize,
    most: usize,
    since: u64,
    told: &mut Notices,
) -> Reply
    ensures { RestsIn (guarded_in manager.old) (txn_id txn) known most since result told.new (guarded_in manager.new) }
{
    manager.commit_and_rest(txn.id(), known, most, since, told)
}

/// How many locks that keeps, in `count`.
#[unsafe(no_mangle)]
pub extern "C" fn bs_call_first_intentions(
    manager: &mut Handle,
    txn: Txn,
    known: usize,
    most: usize,
) -> Reply
    ensures { CountsIntentionsIn (guarded_in manager.old) (txn_id txn) known most result (guarded_in manager.new) }
{
    manager.first_intentions(txn.id(), known, most)
}

/// How many of those who rest to end.
fn number_of_ends(one: u32) -> Number
    ensures { result ≡ number_of_ends one }
{
    if one == 0 { Number::All } else { Number::One }
}

/// Ends those who rest and for whom somebody waits. The reply has the name of the last. `BS_NO_PLACE` if nobody
/// waits for one who rests.
#[unsafe(no_mangle)]
pub extern "C" fn bs_call_clear_way(manager: &mut Handle, one: u32, told: &mut Notices) -> Reply
    ensures { Carries (guarded_in manager.old) (end_call whom.InTheWay (number_of_ends one)) result told.new (guarded_in manager.new) }
{
    manager.end_resting(Whom::InTheWay, number_of_ends(one), told)
}

/// Ends those who rest and hold a node in a mode that does not go with this one. The reply has the name of the
/// last. `BS_NO_PLACE` if nobody who rests does.
#[unsafe(no_mangle)]
pub extern "C" fn bs_call_clear_node(
    manager: &mut Handle,
    node: Node,
    mode: u32,
    one: u32,
    told: &mut Notices,
) -> Reply
    ensures { Where (mode_at mode) (λ wanted. Carries (guarded_in manager.old) (end_call (whom.Holding (node_id node) wanted) (number_of_ends one))
        result told.new (guarded_in manager.new)) (Declines (guarded_in manager.old) bad_number result (guarded_in manager.new) × Tells told.new []) }
{
    let Some(mode) = mode_at(mode) else {
        told.clear();
        return Reply::with_status(BAD_NUMBER);
    };
    let node = node.id();
    manager.end_resting(Whom::Holding { node, mode }, number_of_ends(one), told)
}

/// Ends the one that has rested longest. The reply has its name. `BS_NO_PLACE` if nobody rests.
#[unsafe(no_mangle)]
pub extern "C" fn bs_call_make_room(manager: &mut Handle, told: &mut Notices) -> Reply
    ensures { Carries (guarded_in manager.old) (end_call whom.Longest number.One) result told.new (guarded_in manager.new) }
{
    manager.end_resting(Whom::Longest, Number::One, told)
}

/// Lets a transaction work again that rested. `BS_NO_PLACE` if it did not rest.
#[unsafe(no_mangle)]
pub extern "C" fn bs_call_wake(manager: &mut Handle, txn: Txn) -> Reply
    ensures { WakesIn (guarded_in manager.old) (txn_id txn) result (guarded_in manager.new) }
{
    manager.wake(txn.id())
}

/// The slots of those who rest.
#[unsafe(no_mangle)]
pub extern "C" fn bs_call_resting(manager: &mut Handle) -> Found
    ensures { FindsResting (guarded_in manager.old) result (guarded_in manager.new) }
{
    manager.resting()
}
