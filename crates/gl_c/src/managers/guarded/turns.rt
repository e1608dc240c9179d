//! Begins in turn.

ghost use Rattle.std.specs.Prelude.{◌≡◌, [], drop, slice_get};
ghost use Rattle.std.specs.List.{find, list_any};
ghost use Rattle.gl_waiting.specs.Begins.{has_word, is_late, without_first};
ghost use Rattle.gl_c.specs.locks.Turns.{turn_call, turn_said};
ghost use Rattle.gl_c.specs.managers.Carries.{Performs};

use super::Guarded;
use crate::managers::showing::keep;
use gl_catalog::Answer;
use gl_modes::Refusal;
use gl_table::TxnId;
use gl_waiting::{QueuedBegin, Turn, begin_command};

impl Guarded {
    /// Begins a transaction if nobody waits for a slot and one is free; otherwise the begin waits for
    /// one, after all who wait already.
    pub(crate) fn begin_in_turn(&mut self, begin: QueuedBegin) -> Turn
        ensures { Performs self.old (turn_call begin) result [] self.new }
    {
        self.waiting.law();
        let before = self.waiting.manager().accepted();
        let (turn, ended) = self.waiting.begin_in_turn(begin);
        if self.waiting.manager().accepted() == before {
            return turn;
        }
        self.ended = ended;
        self.resting.rouse(&self.waiting, None);
        let command = begin_command(begin.since);
        keep(&mut self.showing, false, &command, said(turn), &[]);
        self.show_if_due();
        turn
    }

    /// Takes the first of the begins that were handed on, with its answer; `None` if there is none.
    pub(crate) fn take_begun(&mut self) -> Option<(QueuedBegin, Result<TxnId, Refusal>)>
        ensures taken { result ≡ slice_get self.old.begun 0 }
        ensures rest { self.new ≡ record self.old { begun = drop 1 self.old.begun } }
    {
        self.waiting.take_begun()
    }

    /// Takes a begin of this name out of those that wait for a slot; whether there was one.
    pub(crate) fn withdraw_begin(&mut self, word: u64) -> bool
        ensures found { result ≡ list_any (has_word word) self.old.queue }
        ensures rest { self.new ≡ record self.old { queue = without_first (has_word word) self.old.queue } }
    {
        self.waiting.withdraw_begin(word)
    }

    /// Takes a begin whose time is at or before now out of those that wait for a slot, the first of
    /// them.
    pub(crate) fn take_late_begin(&mut self, now: u64) -> Option<QueuedBegin>
        ensures taken { result ≡ find (is_late now) self.old.queue }
        ensures rest { self.new ≡ record self.old { queue = without_first (is_late now) self.old.queue } }
    {
        self.waiting.take_late_begin(now)
    }
}

/// What its command was answered; `None` if it was not carried out.
fn said(turn: Turn) -> Option<Answer>
    ensures { result ≡ turn_said turn }
{
    match turn {
        Turn::Came(Ok(txn)) => Some(Answer::Begun(txn)),
        Turn::Came(Err(refusal)) => Some(Answer::Refused(refusal)),
        Turn::Queued | Turn::NoMemory => None,
    }
}
