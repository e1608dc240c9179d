//! Calls that make, use and end watchers.

ghost use Rattle.std.specs.Prelude.{◌≡◌, None};
ghost use Rattle.gl_c.specs.managers.Handle.{guarded_in};
ghost use Rattle.gl_c.specs.watchers.Lookout.{watcher_in};
ghost use Rattle.gl_c.specs.watchers.Watching.{Sees, Watches, left};

use crate::answers::reply::Reply;
use crate::boards::board::Board;
use crate::managers::handle::Handle;
use crate::numbers::{DONE, IN_USE, NO_MANAGER, NO_WATCHER, TOO_MANY_WATCHERS};
use crate::watchers::lookout::Lookout;
use crate::watchers::watcher::Watcher;
use gl_modes::Refusal;
use gl_window::WatchFault;
use std::alloc::Global;

/// Makes a watcher of a manager at a place that has none; it starts with the board of this moment.
/// There are at most eight at once. Takes memory.
#[unsafe(no_mangle)]
pub extern "C" fn bs_call_watch(manager: &mut Handle, watcher: &mut Lookout, alloc: Global) -> Reply
    ensures { Watches (guarded_in manager.old) (watcher_in watcher.old) result (guarded_in manager.new) (watcher_in watcher.new) }
{
    if !manager.has_session() {
        return Reply::with_status(NO_MANAGER);
    }
    if watcher.has_watcher() {
        return Reply::with_status(IN_USE);
    }
    let eye = match manager.watch() {
        None => return Reply::with_status(NO_MANAGER),
        Some(Err(WatchFault::TooMany)) => return Reply::with_status(TOO_MANY_WATCHERS),
        Some(Err(WatchFault::NoMemory)) => return Reply::refused(Refusal::NoMemory),
        Some(Ok(eye)) => eye,
    };
    let Ok(made) = Box::new(alloc, Watcher::of(eye)) else {
        return Reply::refused(Refusal::NoMemory);
    };
    *watcher = Lookout::of(alloc, made);
    Reply::with_status(DONE)
}

/// Writes the last board that was shown, without a lock: never older than one that this watcher was
/// given before.
#[unsafe(no_mangle)]
pub extern "C" fn bs_call_look(watcher: &mut Lookout, board: &mut Board) -> Reply
    ensures { Sees (watcher_in watcher.old) result board.old board.new (watcher_in watcher.new) }
{
    watcher.look(board)
}

/// Ends a watcher, and frees its memory. The place then has no watcher.
#[unsafe(no_mangle)]
pub extern "C" fn bs_call_watch_end(watcher: &mut Lookout) -> Reply
    ensures replied { result ≡ left (watcher_in watcher.old) }
    ensures none { watcher_in watcher.new ≡ None }
{
    match watcher.take() {
        Some(_) => Reply::with_status(DONE),
        None => Reply::with_status(NO_WATCHER),
    }
}
