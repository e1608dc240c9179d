//! Boards, and what is found on them: a board is a value that any thread may read.

ghost use Rattle.std.specs.Prelude.{◌≡◌, ℕ};
ghost use Rattle.gl_c.specs.Boards.{FindsCycle, FindsSuspects, Joins, PicksFor, Shows};
ghost use Rattle.gl_c.specs.managers.Handle.{guarded_in};

use crate::answers::found::Found;
use crate::answers::reply::Reply;
use crate::boards::board::{Board, Slots};
use crate::managers::handle::Handle;
use crate::numbers::{BAD_NUMBER, NO_PLACE};
use gl_parts::join_board;
use gl_slots::SLOTS;
use gl_waits::{on_cycle, suspects, youngest};

/// Writes the board of this moment; its epoch is the count of accepted commands.
#[unsafe(no_mangle)]
pub extern "C" fn bs_call_board(manager: &mut Handle, board: &mut Board) -> Reply
    ensures { Shows (guarded_in manager.old) result board.old board.new (guarded_in manager.new) }
{
    manager.show(board)
}

/// Adds to a board who waits for whom on another.
#[unsafe(no_mangle)]
pub extern "C" fn bs_call_join_board(joined: &mut Board, added: &Board)
    ensures { Joins joined.old added.now joined.new }
{
    let mut board = joined.read();
    join_board(&mut board, &added.read());
    joined.put(board);
}

/// The slots on a cycle of waits with this slot.
#[unsafe(no_mangle)]
pub extern "C" fn bs_call_on_cycle(board: &Board, slot: u32) -> Found
    ensures { FindsCycle board.now slot result }
{
    let slot = slot as usize;
    if slot < SLOTS {
        let set = on_cycle(&board.read(), slot);
        Found::of(set)
    } else {
        Found::none(BAD_NUMBER)
    }
}

/// The slots that are on any cycle of waits.
#[unsafe(no_mangle)]
pub extern "C" fn bs_call_suspects(board: &Board) -> Found
    ensures { FindsSuspects board.now result }
{
    Found::of(suspects(&board.read()))
}

/// The youngest of these slots; of equal ages, the lowest slot.
#[unsafe(no_mangle)]
pub extern "C" fn bs_call_youngest(board: &Board, slots: &Slots) -> Reply
    ensures { PicksFor board.now slots.now result }
{
    match youngest(&board.read(), slots.set()) {
        Some(slot) => Reply::with_count(slot as u64),
        None => Reply::with_status(NO_PLACE),
    }
}
