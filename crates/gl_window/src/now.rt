//! The current snapshot, which every watcher may read.

ghost use Rattle.std.specs.Prelude.{◌≡◌};
ghost use Rattle.gl_table.specs.Table.{board_of};
ghost use Rattle.gl_catalog.specs.Manager.{IsLawfulManager, state_of};
ghost use Rattle.gl_window.specs.Boards.{Fine};

use gl_catalog::Manager;
use gl_waits::Board;

/// The waits-for snapshot of a manager. In it no slot waits for itself or for a free slot, and with
/// detection at block no slot is on a cycle of waits.
pub fn board_now(manager: &Manager) -> Board
    ensures board { result ≡ board_of (state_of manager.now) }
    ensures fine { Fine manager.now.table.detect result }
    ensures epoch { result.epoch ≡ manager.now.accepted }
    ensures law { IsLawfulManager manager.now }
{
    manager.law();
    manager.board()
}
