//! The watcher that looks for deadlocks while the sessions of a crew work.

ghost use Rattle.std.specs.Prelude.{◌≡◌, ◌↔◌, ◌+◌, ℕ, IsNone, IfNone, IfSome};
ghost use Rattle.gl_model.specs.Tellings.{Told};
ghost use Rattle.gl_steps.specs.declared.command.Command.TheVariants.{Settle as Settling};
ghost use Rattle.gl_steps.specs.Served.{accepts};
ghost use Rattle.gl_shared.specs.Batches.{one_if};
ghost use Rattle.gl_shared.specs.Sessions.{IsServed};
ghost use Rattle.gl_waits.specs.Boards.{age_in, board_edge};
ghost use Rattle.gl_waits.specs.Waits.{IsLowestYoungest, IsOnCycle, IsOnNoCycle};

use gl_catalog::{Answer, Command};
use gl_shared::{Naming, Session, Share, Shared, Watcher};
use gl_table::TxnId;
use gl_waits::{Board, Slot, suspects, youngest};
use std::sync::Wait;
use std::sync::atomic::{AtomicBool, Ordering};
use std::thread::yield_now;

/// Looks until the sessions have ended, and settles deadlocks on each board that it sees. Only tests
/// show that it looks, and how often.
pub(crate) fn look_out<N: Naming, R: Wait>(
    rt: &R,
    shared: &Shared<N>,
    share: Share<N>,
    watcher: Watcher<N>,
    ended: &AtomicBool,
) -> Share<N> {
    let mut session = Session::new(shared, share);
    let mut watcher = watcher;
    for _ in rt.forever() {
        if ended.load(Ordering::SeqCst) {
            break;
        }
        if let Some(board) = watcher.look() {
            settle_by(rt, &mut session, &board);
        }
        yield_now();
    }
    session.end()
}

/// Settles the youngest transaction on a cycle of waits of this board, and returns its name and the
/// answer. If there is none, nothing is asked.
fn settle_by<N: Naming, R: Wait>(
    rt: &R,
    session: &mut Session<'_, N>,
    board: &Board,
) -> Option<(TxnId, Answer)>
    ensures none { IsNone result ↔ ((s : ℕ) → IsOnNoCycle (board_edge board.now) s) }
    ensures some { IfSome result (λ t. IsLowestYoungest (IsOnCycle (board_edge board.now)) (age_in board.now) t.0.slot) }
    ensures age { IfSome result (λ t. t.0.age ≡ age_in board.now t.0.slot) }
    ensures settled { IfSome result (λ t. (told : Told) × IsServed (Settling t.0) t.1 told session.new.served_at) }
    ensures share { IfSome result (λ t. session.new.share ≡ session.old.share + one_if (accepts (Settling t.0) t.1)) }
    ensures idle { IfNone result (session.new ≡ session.old) }
{
    let Some(txn) = youngest_suspect(board) else {
        return None;
    };
    let reply = session.ask(rt, Command::Settle { txn });
    Some((txn, reply.answer))
}

/// The youngest transaction on a cycle of waits, by slot and age; `None` exactly if nobody is on one.
fn youngest_suspect(board: &Board) -> Option<TxnId>
    ensures none { IsNone result ↔ ((s : ℕ) → IsOnNoCycle (board_edge board.now) s) }
    ensures some { IfSome result (λ txn. IsLowestYoungest (IsOnCycle (board_edge board.now)) (age_in board.now) txn.slot) }
    ensures age { IfSome result (λ txn. txn.age ≡ age_in board.now txn.slot) }
{
    let at = youngest(board, suspects(board))?;
    Some(TxnId {
        slot: at as Slot,
        age: board.ages[at],
    })
}
