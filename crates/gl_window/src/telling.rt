//! When watchers are told, and which commands are known to change no wait.

ghost use Rattle.std.specs.Prelude.{◌≡◌, false};
ghost use Rattle.gl_waits.specs.Boards.{ShowsNobody};
ghost use Rattle.gl_window.specs.Tellings.{is_due, leaves_waits, spares_waits};
ghost use Rattle.gl_window.specs.declared.telling.Telling.TheVariants.{WhileWaiting};

use gl_model::{Notice, TxnId};
use gl_slots::Slots;
use gl_steps::{Answer, Command, leaves_waiting};
use gl_waits::Board;

/// When a session tells watchers of an accepted command. A note always tells them.
#[derive(Clone, Copy, PartialEq, Eq, Debug)]
pub enum Telling {
    /// After each one.
    Always,
    /// If a transaction waits then, or waited when watchers were last told. Otherwise the snapshot
    /// would show no wait, as the last one does, so watchers miss only ages and epochs.
    WhileWaiting,
}

/// Whether watchers are told of an accepted command.
pub fn is_due(telling: Telling, waited: bool) -> bool
    ensures { result ≡ is_due telling waited }
{
    match telling {
        Telling::Always => true,
        Telling::WhileWaiting => waited,
    }
}

/// Whether a snapshot that is told may show a wait. With `Always` nobody needs the answer, so the
/// snapshot is not read.
pub fn may_show_waits(telling: Telling, board: &Board) -> bool
    ensures none { result ≡ false → ShowsNobody board.now }
    ensures some { telling ≡ WhileWaiting → ShowsNobody board.now → result ≡ false }
{
    telling == Telling::Always || !board.shows_nobody()
}

/// Whether an accepted command is known to have changed no wait, by the parties to waits before it.
pub fn leaves_waits(
    parties: Slots,
    command: &Command<'_>,
    answer: &Answer,
    told: &[(TxnId, Notice)],
) -> bool
    ensures { result ≡ leaves_waits parties command.now answer.now told.now }
{
    if parties.is_empty() {
        !leaves_waiting(answer)
    } else {
        told.is_empty() && spares_waits(parties, command, answer)
    }
}

/// Whether a command of this kind changes no wait if it tells nobody, and none of these parties to
/// waits gives it. A transaction that holds no node with a waiter is granted no such node, since it
/// would queue there.
fn spares_waits(parties: Slots, command: &Command<'_>, answer: &Answer) -> bool
    ensures { result ≡ spares_waits parties command.now answer.now }
{
    match command {
        Command::Lock { txn, .. } => {
            matches!(answer, Answer::Granted(_)) && !parties.contains(txn.slot)
        }
        Command::Try { txn, .. }
        | Command::Unlock { txn, .. }
        | Command::Commit { txn }
        | Command::Renew { txn, .. }
        | Command::Abort { txn } => !parties.contains(txn.slot),
        Command::Inner { .. }
        | Command::File { .. }
        | Command::Index { .. }
        | Command::Begin
        | Command::BeginAgain { .. }
        | Command::Join { .. }
        | Command::Insert { .. }
        | Command::Adopt { .. }
        | Command::Forget { .. }
        | Command::IndexBy { .. } => true,
        _ => false,
    }
}
