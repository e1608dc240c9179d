//! What watchers are shown, and what is known of the waits on the last snapshot.

ghost use Rattle.std.specs.Prelude.{◌≡◌, ◌≤◌, ◌⊎◌, ◌∷◌, ◌++◌, ◌↔◌, [], true, IfNone, IfOk, IfSome, IsSomeAnd, IsTrue, None, Ok, Some, is_none};
ghost use Rattle.gl_slots.specs.Slots.{HasNoSlot, has_none};
ghost use Rattle.gl_table.specs.Table.{board_of};
ghost use Rattle.gl_catalog.specs.Manager.{IsLawfulManager, state_of};
ghost use Rattle.gl_rows.specs.Applying.{answer_in};
ghost use Rattle.gl_window.specs.Boards.{Ends, Fine, HasParties, last_epoch};
ghost use Rattle.gl_window.specs.Tellings.{leaves_waits, still_known};
ghost use Rattle.gl_c.specs.locks.Paths.{ends_waiting, goes_well, leaves_on_path};
ghost use Rattle.gl_c.specs.managers.Carries.{spared_by};
ghost use Rattle.gl_c.specs.managers.Serving.{KnowsWaits, ShowsOn, known_after};
ghost use Rattle.gl_c.specs.managers.Showing.{parties_in, shown_in};
ghost use Rattle.gl_c.specs.watchers.Watching.{Continues};

use gl_catalog::replies::answer_of_lock;
use gl_catalog::{Answer, Command, Manager, Reached};
use gl_modes::Refusal;
use gl_rows::RowAnswer;
use gl_slots::Slots;
use gl_steps::leaves_waiting;
use gl_table::{Detect, Locked, Notice, TxnId};
use gl_waits::Board;
use gl_window::{Publisher, WatchFault, Watcher, board_now, leaves_waits, parties_of};
use std::alloc::{AllocError, Global};

/// The side that shows snapshots, made with the first watcher.
#[derive(Drop)]
pub(crate) struct Showing {
    publisher: Publisher,
    /// All parties to waits, if it is known that the last snapshot that was shown has every wait; then
    /// watchers need no other.
    parties: Option<Slots>,
}

impl Showing {
    /// Updates what is known of the waits, after an accepted command. If nobody waited and nobody
    /// waits, nothing changes.
    #[inline(always)]
    fn keep(&mut self, command: &Command<'_>, answer: &Answer, told: &[(TxnId, Notice)])
        ensures shown { self.new.publisher ≡ self.old.publisher }
        ensures parties { self.new.parties ≡ still_known self.old.parties (λ known. leaves_waits known command.now answer.now told.now) }
    {
        if self.is_idle() && !leaves_waiting(answer) {
            return;
        }
        self.keep_waits(*command, *answer, told);
    }

    /// Whether it is known that nobody waits.
    #[inline(always)]
    fn is_idle(&self) -> bool
        ensures { IsTrue result ↔ IsSomeAnd self.now.parties HasNoSlot }
    {
        match self.parties {
            Some(known) => known.is_empty(),
            None => false,
        }
    }

    /// Updates what is known of the waits, after an accepted command. It takes copies, so that a caller
    /// with one kind of command needs none in memory.
    #[inline(never)]
    fn keep_waits(&mut self, command: Command<'_>, answer: Answer, told: &[(TxnId, Notice)])
        ensures shown { self.new.publisher ≡ self.old.publisher }
        ensures parties { self.new.parties ≡ still_known self.old.parties (λ known. leaves_waits known command.entry answer told.now) }
    {
        if let Some(known) = self.parties {
            if !leaves_waits(known, &command, &answer, told) {
                self.parties = None;
            }
        }
    }

    /// Shows a manager's snapshot if there is a watcher and the last snapshot may lack a wait.
    #[inline(always)]
    pub(crate) fn show_if_due(&mut self, manager: &Manager)
        requires rises { last_epoch 0 self.old.publisher.list ≤ manager.now.accepted }
        requires detect { self.old.publisher.detect ≡ manager.now.table.detect }
        requires known { KnowsWaits (state_of manager.now) (Some self.old.publisher) self.old.parties }
        ensures shown { ShowsOn (is_none self.old.parties) (board_of (state_of manager.now)) (Some self.old.publisher) (Some self.new.publisher) }
        ensures known { KnowsWaits (state_of manager.now) (Some self.new.publisher) self.new.parties }
        ensures epoch { last_epoch 0 self.new.publisher.list ≤ manager.now.accepted }
        ensures detect { self.new.publisher.detect ≡ manager.now.table.detect }
    {
        if self.parties.is_none() {
            self.show_if_watched(manager);
        }
    }

    /// Shows a manager's snapshot if there is a watcher. Not inlined: a command whose waits are known
    /// never gets here, and should not pay for the stack that this needs.
    #[inline(never)]
    fn show_if_watched(&mut self, manager: &Manager)
        requires rises { last_epoch 0 self.old.publisher.list ≤ manager.now.accepted }
        requires detect { self.old.publisher.detect ≡ manager.now.table.detect }
        requires known { KnowsWaits (state_of manager.now) (Some self.old.publisher) self.old.parties }
        ensures shown { ShowsOn true (board_of (state_of manager.now)) (Some self.old.publisher) (Some self.new.publisher) }
        ensures known { KnowsWaits (state_of manager.now) (Some self.new.publisher) self.new.parties }
        ensures epoch { last_epoch 0 self.new.publisher.list ≤ manager.now.accepted }
        ensures detect { self.new.publisher.detect ≡ manager.now.table.detect }
    {
        if self.publisher.is_watched() {
            self.parties = show(manager, &mut self.publisher);
        }
    }
}

/// Updates what is known of the waits, after a call that carried out this command, if it was answered,
/// and by which somebody went on, or nobody. Without a first watcher nothing is known.
#[inline(always)]
pub(crate) fn keep(
    showing: &mut Option<Showing>,
    went_on: bool,
    command: &Command<'_>,
    answer: Option<Answer>,
    told: &[(TxnId, Notice)],
)
    ensures shown { shown_in showing.new ≡ shown_in showing.old }
    ensures parties { parties_in showing.new ≡ known_after went_on (parties_in showing.old) (spared_by command.now answer told.now) }
{
    let Some(showing) = showing else {
        return;
    };
    if went_on {
        showing.parties = None;
    } else if let Some(answer) = answer {
        showing.keep(command, &answer, told);
    }
}

/// The same after a path.
#[inline(always)]
pub(crate) fn keep_on_path(
    showing: &mut Option<Showing>,
    went_on: bool,
    txn: TxnId,
    reached: Result<Reached, Refusal>,
    told: &[(TxnId, Notice)],
)
    ensures shown { shown_in showing.new ≡ shown_in showing.old }
    ensures parties { parties_in showing.new ≡ known_after went_on (parties_in showing.old) (λ known. leaves_on_path known txn reached told.now) }
{
    let Some(showing) = showing else {
        return;
    };
    if went_on {
        showing.parties = None;
        return;
    }
    showing.parties = showing
        .parties
        .filter(|known| leaves_on_path(*known, txn, reached, told));
}

/// The same after a call that is only known to leave nobody waiting if nobody waited.
#[inline(always)]
pub(crate) fn keep_nobody(showing: &mut Option<Showing>, went_on: bool)
    ensures shown { shown_in showing.new ≡ shown_in showing.old }
    ensures parties { parties_in showing.new ≡ known_after went_on (parties_in showing.old) has_none }
{
    let Some(showing) = showing else {
        return;
    };
    if went_on {
        showing.parties = None;
        return;
    }
    showing.parties = showing.parties.filter(|known| known.is_empty());
}

/// The answer to the command of a call about rows; `None` if its file is not a file of rows.
#[inline(always)]
pub(crate) fn answer_of(answer: RowAnswer) -> Option<Answer>
    ensures { result ≡ answer_in answer }
{
    match answer {
        RowAnswer::Locked(row) => Some(answer_of_lock(row.locked)),
        RowAnswer::Answered(answer) => Some(answer),
        RowAnswer::NotRows => None,
    }
}

/// Whether a path is known to have left all waits as they were, by the parties to waits before it.
fn leaves_on_path(
    parties: Slots,
    txn: TxnId,
    reached: Result<Reached, Refusal>,
    told: &[(TxnId, Notice)],
) -> bool
    ensures { result ≡ leaves_on_path parties txn reached told.now }
{
    if parties.is_empty() {
        !ends_waiting(reached)
    } else {
        told.is_empty() && (goes_well(reached) && !parties.contains(txn.slot))
    }
}

/// Whether the last request of a path is granted, or refused.
fn goes_well(reached: Result<Reached, Refusal>) -> bool
    ensures { result ≡ goes_well reached }
{
    match reached {
        Ok(reached) => matches!(reached.locked, Locked::Granted(_)),
        Err(_) => true,
    }
}

/// Whether a path leaves its transaction waiting.
fn ends_waiting(reached: Result<Reached, Refusal>) -> bool
    ensures { result ≡ ends_waiting reached }
{
    matches!(
        reached,
        Ok(Reached {
            locked: Locked::Waiting,
            ..
        })
    )
}

/// Shows a manager's snapshot, and answers the parties to its waits; `None` if out of memory. Not
/// inlined: a command that shows nothing should not pay for the stack that a snapshot needs.
#[inline(never)]
fn show(manager: &Manager, publisher: &mut Publisher) -> Option<Slots>
    requires rises { last_epoch 0 publisher.old.list ≤ manager.now.accepted }
    requires detect { publisher.old.detect ≡ manager.now.table.detect }
    ensures law { IsLawfulManager manager.now }
    ensures shown { IfSome result (λ set. (publisher.new.list ≡ publisher.old.list ++ board_of (state_of manager.now) ∷ [])
        × HasParties (state_of manager.now) set) }
    ensures list { (publisher.new.list ≡ publisher.old.list) ⊎ (publisher.new.list ≡ publisher.old.list ++ board_of (state_of manager.now) ∷ []) }
    ensures of { (publisher.new.book ≡ publisher.old.book) × (publisher.new.detect ≡ publisher.old.detect) }
{
    let board = board_now(manager);
    if publisher.publish(board) {
        Some(parties_of(manager))
    } else {
        None
    }
}

/// A watcher that starts with the present snapshot.
pub(crate) fn watch(
    showing: &mut Option<Showing>,
    manager: &Manager,
    alloc: Global,
) -> Result<Watcher, WatchFault>
    requires rises { IfSome (shown_in showing.old) (λ p. last_epoch 0 p.list ≤ manager.now.accepted) }
    requires detect { IfSome (shown_in showing.old) (λ p. p.detect ≡ manager.now.table.detect) }
    ensures goes_on { Continues (shown_in showing.old) (shown_in showing.new) }
    ensures watcher { IfOk result (λ watcher. (shown_in showing.new ≡ Some watcher) × Ends watcher.list (board_of (state_of manager.now))) }
    ensures unknown { parties_in showing.new ≡ None }
    ensures epoch { IfSome (shown_in showing.new) (λ p. last_epoch 0 p.list ≤ manager.now.accepted) }
    ensures detect { IfSome (shown_in showing.new) (λ p. p.detect ≡ manager.now.table.detect) }
{
    let now = board_now(manager);
    let Ok(mut publisher) = publisher_of(showing.take(), alloc, now, manager.detect()) else {
        return Err(WatchFault::NoMemory);
    };
    let watcher = publisher.watch(now);
    *showing = Some(Showing {
        publisher,
        parties: None,
    });
    watcher
}

/// The publisher; if there is none yet, a new one that shows this board.
fn publisher_of(
    showing: Option<Showing>,
    alloc: Global,
    board: Board,
    detect: Detect,
) -> Result<Publisher, AllocError>
    requires fine { Fine detect board }
    ensures same { IfSome (shown_in showing) (λ p. result ≡ Ok p) }
    ensures first { IfNone (shown_in showing) (IfOk result (λ p. (p.list ≡ board ∷ []) × (p.detect ≡ detect))) }
{
    match showing {
        Some(showing) => Ok(showing.publisher),
        None => Publisher::new(alloc, board, detect),
    }
}
