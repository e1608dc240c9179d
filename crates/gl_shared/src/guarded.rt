//! What the latch protects.

ghost use Rattle.gl_slots.specs.Limit.{most_slots};
ghost use Rattle.std.specs.Prelude.{◌≡◌, ◌+◌, ◌++◌, ◌∷◌, ◌≤◌, ◌⊎◌, [], true, false, None, Some, Ok, replicate, IfSome, is_some};
ghost use Rattle.gl_modes.specs.declared.mode.Mode.{Mode as AMode};
ghost use Rattle.gl_modes.specs.Modes.{is_at_least};
ghost use Rattle.gl_table.specs.Table.{board_of};
ghost use Rattle.gl_model.specs.declared.answers.Detect.TheVariants.{AtBlock};
ghost use Rattle.gl_model.specs.State.{is_waiting_at, lives, HasNoCycle};
ghost use Rattle.gl_steps.specs.declared.command.Answer.TheVariants.{Granted};
ghost use Rattle.gl_steps.specs.declared.command.Command.TheVariants.{Lock};
ghost use Rattle.gl_catalog.specs.Manager.{IsLawfulManager, state_of};
ghost use Rattle.gl_steps.specs.Promises.{KeepsCaller};
ghost use Rattle.gl_wakes.specs.Boxes.{verdict_of};
ghost use Rattle.gl_steps.specs.Served.{accepts};
ghost use Rattle.gl_wakes.specs.Notices.{RisingTo};
ghost use Rattle.gl_wakes.specs.Wakes.{HasEnded};
ghost use Rattle.gl_window.specs.Tellings.{is_due};
ghost use Rattle.gl_wakes.specs.declared.grant.Grant.{Grant};
ghost use Rattle.gl_window.specs.Boards.{last_epoch, IsLawful};
ghost use Rattle.gl_shared.specs.Batches.{ServesOne, one_if};
ghost use Rattle.gl_shared.specs.Sessions.{AreWoken};
ghost use Rattle.gl_shared.specs.State.{Remembers, StaysUntold, Told};

use crate::naming::Naming;
use crate::note::Note;
use crate::publisher::Publisher;
use crate::share::Share;
use gl_catalog::{Answer, Command, Counters, Manager, Reply};
use gl_modes::{Mode, NodeId};
use gl_slots::Slots;
use gl_steps::{is_accepted, leaves_waiting};
use gl_table::{Told, TxnId};
use gl_wakes::{Boxes, Grant, Stop};
use gl_window::{Telling, board_now, is_due, may_show_waits};
use std::marker::Model;
use std::sync::Wait;
use std::sync::ledger::Book;

/// The outcome of a publication.
#[derive(Clone, Copy, PartialEq, Eq, Debug)]
pub enum Tell {
    /// The snapshot of this epoch was published.
    Published(u64),
    /// It was not published for lack of memory.
    NoMemory,
}

/// What the latch protects: the manager, the count of accepted commands that were served, a notice box
/// for each slot, and the writer of the published snapshots.
pub struct Guarded<N: Naming> {
    pub(crate) manager: Manager,
    pub(crate) served: u64,
    pub(crate) book: Book<N>,
    pub(crate) boxes: Boxes,
    pub(crate) publisher: Publisher<N>,
    pub(crate) telling: Telling,
    /// Whether somebody waited when watchers were last told, or a lock was left waiting since.
    pub(crate) waited: bool,
}

impl<N: Naming> Model for Guarded<N> {
    ghost use Rattle.std.specs.Prelude.{◌≡◌, ◌+◌, ◌≤◌};
    ghost use Rattle.std.specs.Prelude.{false};
    ghost use Rattle.gl_catalog.specs.Manager.{state_of};
    ghost use Rattle.gl_steps.specs.Promises.{NobodyWaits};
    ghost use Rattle.gl_window.specs.Boards.{EndsIdle, last_epoch};
    ghost use Rattle.gl_shared.specs.State.{GuardedView};

    ghost Value = { GuardedView };

    ghost view = { λ g. record { manager = g.manager; book = g.book.total; boxes = g.boxes; list = g.publisher; telling = g.telling; waited = g.waited } };

    ghost invariant = { λ g.
        (N.shares ≡ N.parts)
        × (g.served ≡ g.book.total)
        × (g.manager.accepted ≡ N.opening + g.book.total)
        × (g.manager.table.detect ≡ N.detect)
        × (last_epoch 0 g.publisher ≤ g.manager.accepted)
        × (g.waited ≡ false → NobodyWaits (state_of g.manager) × EndsIdle g.publisher) };
}

impl<N: Naming> Guarded<N> {
    /// What holds whenever the latch is free.
    pub fn law(&self)
        ensures manager { IsLawfulManager self.now.manager }
        ensures counted { self.now.manager.accepted ≡ N.opening + self.now.book }
        ensures detect { self.now.manager.table.detect ≡ N.detect }
        ensures told { last_epoch 0 self.now.list ≤ self.now.manager.accepted }
        ensures lawful { IsLawful N.detect N.first self.now.list }
    {
        self.manager.law();
        self.publisher.law();
    }

    /// What the table's manager has done since it was made.
    pub fn counters(&self) -> Counters
        ensures { result ≡ self.now.manager.counters }
    {
        self.manager.counters()
    }

    /// How many commands the table has accepted: at least those before it was made, and those that were
    /// served for this share.
    pub(crate) fn accepted_beside(&mut self, share: &mut Share<N>) -> u64
        ensures count { result ≡ self.old.manager.accepted }
        ensures bound { N.opening + share.old ≤ result }
        ensures kept { (self.new ≡ self.old) × (share.new ≡ share.old) }
    {
        self.book.audit(&mut share.token);
        self.manager.accepted()
    }

    /// The contents of a table before its first command.
    pub(crate) fn new(
        manager: Manager,
        book: Book<N>,
        publisher: Publisher<N>,
        telling: Telling,
    ) -> Guarded<N>
        requires whole { N.shares ≡ N.parts }
        requires book { book.total ≡ 0 }
        requires opening { (manager.accepted ≡ N.opening) × (manager.table.detect ≡ N.detect) }
        requires told { publisher ≡ board_of (state_of manager) ∷ [] }
        ensures start { (result.manager ≡ manager) × (result.book ≡ 0) × (result.list ≡ board_of (state_of manager) ∷ []) }
        ensures boxes { result.boxes ≡ replicate most_slots None }
        ensures telling { (result.telling ≡ telling) × (result.waited ≡ true) }
    {
        Guarded {
            manager,
            served: 0,
            book,
            boxes: Boxes::new(),
            publisher,
            telling,
            waited: true,
        }
    }

    /// The published list, after publishing the present snapshot if there is memory for it.
    pub fn note<R: Wait>(&mut self, rt: &R) -> Note<N>
        ensures list { result ≡ self.new.list }
        ensures told { (self.new.list ≡ self.old.list) ⊎ (self.new.list ≡ self.old.list ++ board_of (state_of self.old.manager) ∷ []) }
        ensures kept { (self.new.manager ≡ self.old.manager) × (self.new.book ≡ self.old.book) × (self.new.boxes ≡ self.old.boxes)
            × (self.new.telling ≡ self.old.telling) }
    {
        let _ = self.tell(rt);
        self.publisher.note(rt)
    }

    /// What became of a transaction's request for this node. The first that applies: refused with
    /// `NoSuchTxn` if the transaction does not live; `None` if it waits for the node; the notice in its
    /// slot's box, a grant only if it holds the node in that mode and the mode covers the requested
    /// one; refused with `NotWaiting`.
    pub fn verdict(&self, txn: TxnId, node: NodeId, mode: Mode) -> Option<Result<Grant, Stop>>
        ensures verdict { result ≡ verdict_of (state_of self.now.manager) self.now.boxes txn node mode }
        ensures waits { lives (state_of self.now.manager) txn ≡ true → is_waiting_at (state_of self.now.manager) txn.slot node ≡ true → result ≡ None }
        ensures grant { (x : Grant) → result ≡ Some (Ok x) → (x.txn ≡ txn) × (x.node ≡ node)
            × (x.mode ≡ (state_of self.now.manager).held txn.slot node) × (is_at_least x.mode mode ≡ true)
            × (is_waiting_at (state_of self.now.manager) txn.slot node ≡ false) }
    {
        self.boxes.verdict(&self.manager, txn, node, mode)
    }

    /// Publishes the present snapshot.
    pub fn tell<R: Wait>(&mut self, rt: &R) -> Tell
        ensures kept { (self.new.manager ≡ self.old.manager) × (self.new.book ≡ self.old.book) × (self.new.boxes ≡ self.old.boxes)
            × (self.new.telling ≡ self.old.telling) }
        ensures told { Told self.old.list (board_of (state_of self.old.manager)) result self.new.list }
        ensures waited { Remembers self.old.telling (board_of (state_of self.old.manager)) result self.old.waited self.new.waited }
    {
        let board = board_now(&self.manager);
        if !self.publisher.publish(rt, board) {
            return Tell::NoMemory;
        }
        self.waited = may_show_waits(self.telling, &board);
        Tell::Published(board.epoch)
    }

    /// Publishes the present snapshot if it is due: always, or only if somebody waits or waited when
    /// watchers were last told.
    pub fn tell_if_due<R: Wait>(&mut self, rt: &R) -> Option<Tell>
        ensures kept { (self.new.manager ≡ self.old.manager) × (self.new.book ≡ self.old.book) × (self.new.boxes ≡ self.old.boxes)
            × (self.new.telling ≡ self.old.telling) }
        ensures told { IfSome result (λ t. Told self.old.list (board_of (state_of self.old.manager)) t self.new.list) }
        ensures due { is_some result ≡ is_due self.old.telling self.old.waited }
        ensures waited { IfSome result (λ t. Remembers self.old.telling (board_of (state_of self.old.manager)) t self.old.waited self.new.waited) }
        ensures still { result ≡ None → self.new ≡ self.old }
        ensures untold { result ≡ None → StaysUntold self.old.telling (state_of self.old.manager) self.old.list self.new.list }
    {
        if !is_due(self.telling, self.waited) {
            return None;
        }
        Some(self.tell(rt))
    }

    /// Serves one command, and puts its notices into their boxes. An accepted lock empties the box of
    /// its own slot, so a later notice there is about that lock.
    pub fn serve(&mut self, share: &mut Share<N>, command: Command<'_>) -> Reply
        ensures serves { ServesOne self.old command.entry result.answer result.told.items self.new }
        ensures share { share.new ≡ share.old + one_if (accepts command.entry result.answer) }
        ensures caller { KeepsCaller command.entry (state_of self.old.manager) (state_of self.new.manager) }
        ensures calm { N.detect ≡ AtBlock → HasNoCycle (state_of self.new.manager) }
    {
        let mut told = Told::new();
        let (answer, _) = self.serve_telling(share, command, &mut told);
        self.law();
        Reply { answer, told }
    }

    /// As `serve`, with the notices put into an empty list, which the caller may use again. Also answers the slots whose
    /// wait the command may have ended.
    pub fn serve_telling(
        &mut self,
        share: &mut Share<N>,
        command: Command<'_>,
        told: &mut Told,
    ) -> (Answer, Slots)
        requires empty { told.old.items ≡ [] }
        ensures serves { ServesOne self.old command.entry result.0 told.new.items self.new }
        ensures share { share.new ≡ share.old + one_if (accepts command.entry result.0) }
        ensures caller { KeepsCaller command.entry (state_of self.old.manager) (state_of self.new.manager) }
        ensures rising { RisingTo 0 told.new.items most_slots }
        ensures ended { HasEnded (state_of self.old.manager) (state_of self.new.manager) result.1 }
        ensures woken { accepts command.entry result.0 ≡ true → AreWoken command.entry told.new.items result.1 }
    {
        self.manager.law();
        let answer = self.manager.apply_telling(command, told);
        let _counted = self.manager.accepted();
        if !is_accepted(&command, &answer) {
            return (answer, Slots::empty());
        }
        self.book.add(&mut share.token, 1);
        self.served += 1;
        self.waited |= leaves_waiting(&answer);
        let ended = self.boxes.deliver(&command, told);
        (answer, ended)
    }

    /// As `serve_telling`, for a lock.
    pub(crate) fn serve_lock(
        &mut self,
        share: &mut Share<N>,
        txn: TxnId,
        node: NodeId,
        mode: Mode,
        told: &mut Told,
    ) -> (Answer, Slots)
        requires empty { told.old.items ≡ [] }
        ensures serves { ServesOne self.old (Lock txn node mode) result.0 told.new.items self.new }
        ensures share { share.new ≡ share.old + one_if (accepts (Lock txn node mode) result.0) }
        ensures rising { RisingTo 0 told.new.items most_slots }
        ensures covers { (held : AMode) → result.0 ≡ Granted held → is_at_least held mode ≡ true }
        ensures woken { accepts (Lock txn node mode) result.0 ≡ true → AreWoken (Lock txn node mode) told.new.items result.1 }
    {
        self.law();
        self.serve_telling(share, Command::Lock { txn, node, mode }, told)
    }
}
