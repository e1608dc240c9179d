//! The begin queue: begins that wait until a slot is free, first come, first served.

ghost use Rattle.std.specs.Prelude.{◌≡◌, ◌==◌, ◌∷◌, ◌++◌, [], IfErr, OnErr, OnOk, Some, drop, length, slice_get};
ghost use Rattle.std.specs.List.{find, list_any, position};
ghost use Rattle.gl_modes.specs.declared.refusal.Refusal.{Refusal as ARefusal};
ghost use Rattle.gl_waiting.specs.Asking.{IsBeginAnswer, begin_of, begin_said, is_too_many};
ghost use Rattle.gl_waiting.specs.Begins.{earliest_of, has_word, is_late, is_over, without_first};
ghost use Rattle.gl_waiting.specs.declared.begins.QueuedBegin.{QueuedBegin as ABegin};

use gl_catalog::{Answer, Command};
use gl_modes::Refusal;
use gl_table::TxnId;
use std::alloc::Global;
use std::collections::VecDeque;
use std::marker::Model;

/// A begin that waits for a slot.
#[derive(Clone, Copy, PartialEq, Eq, Debug)]
pub struct QueuedBegin {
    /// The caller's own name for it.
    pub word: u64,
    /// For work that an earlier begin left undone, the age of the first of them; `None` for new work.
    pub since: Option<u64>,
    /// When it ends at the latest, by the caller's clock, in nanoseconds.
    pub until: Option<u64>,
}

impl QueuedBegin {
    /// Whether its time is over.
    fn is_late(&self, now: u64) -> bool
        ensures { result ≡ is_late now self.now }
    {
        is_over(self.until, now)
    }
}

/// What a begin in turn came to.
#[derive(Clone, Copy, PartialEq, Eq, Debug)]
pub enum Turn {
    /// It began, or was refused.
    Came(Result<TxnId, Refusal>),
    /// It waits for a slot.
    Queued,
    /// It would have to wait for a slot, and there is no memory for that.
    NoMemory,
}

/// Whether this time is at or before now; `None` never is.
pub(crate) fn is_over(until: Option<u64>, now: u64) -> bool
    ensures { result ≡ is_over now until }
{
    match until {
        Some(until) => until <= now,
        None => false,
    }
}

/// A begin that was handed on, with its answer.
pub(crate) type Begun = (QueuedBegin, Result<TxnId, Refusal>);

/// Begins that wait for a slot, in the order of their requests, and those that were handed on. For each that waits there
/// is room among those.
#[derive(Drop)]
pub(crate) struct BeginQueue {
    waiting: VecDeque<QueuedBegin>,
    begun: VecDeque<Begun>,
}

impl Model for BeginQueue {
    ghost use Rattle.gl_waiting.specs.Begins.{BeginsView};

    ghost Value = { BeginsView };

    ghost use Rattle.gl_waiting.specs.Owned.{begins_of, HasRoom};

    ghost view = { begins_of };

    ghost invariant = { HasRoom };
}

impl BeginQueue {
    /// No begins.
    pub(crate) fn new(alloc: Global) -> Self
        ensures { result ≡ record { waiting = []; begun = [] } }
    {
        BeginQueue {
            waiting: VecDeque::new(alloc),
            begun: VecDeque::new(alloc),
        }
    }

    /// Whether no begin waits.
    pub(crate) fn is_empty(&self) -> bool
        ensures { result ≡ (length self.now.waiting == 0) }
    {
        self.waiting.is_empty()
    }

    /// How many begins wait.
    pub(crate) fn len(&self) -> usize
        ensures { result ≡ length self.now.waiting }
    {
        self.waiting.len()
    }

    /// Appends a begin. The only refusal is `NoMemory`.
    pub(crate) fn enter(&mut self, begin: QueuedBegin) -> Result<(), Refusal>
        ensures entered { OnOk result (self.new ≡ record self.old { waiting = self.old.waiting ++ begin ∷ [] }) }
        ensures unchanged { OnErr result (self.new ≡ self.old) }
        ensures no_memory { IfErr result (λ refusal. refusal ≡ ARefusal.NoMemory) }
    {
        if self.begun.reserve(self.waiting.len() + 1).is_err() {
            return Err(Refusal::NoMemory);
        }
        match self.waiting.push_back(begin) {
            Ok(()) => Ok(()),
            Err(_) => Err(Refusal::NoMemory),
        }
    }

    /// The next begin: the first of the queue.
    pub(crate) fn first(&self) -> Option<QueuedBegin>
        ensures { result ≡ slice_get self.now.waiting 0 }
    {
        self.waiting.front().copied()
    }

    /// Hands on the next begin, with this answer.
    pub(crate) fn hand_on(&mut self, came: Result<TxnId, Refusal>)
        ensures { (first : ABegin) → slice_get self.old.waiting 0 ≡ Some first
            → self.new ≡ record { waiting = drop 1 self.old.waiting; begun = self.old.begun ++ (first, came) ∷ [] } }
    {
        if let Some(first) = self.waiting.pop_front() {
            self.begun.push_back_reserved((first, came));
        }
    }

    /// Removes the first of the begins that were handed on.
    pub(crate) fn take_begun(&mut self) -> Option<Begun>
        ensures taken { result ≡ slice_get self.old.begun 0 }
        ensures rest { self.new ≡ record self.old { begun = drop 1 self.old.begun } }
    {
        self.begun.pop_front()
    }

    /// Removes the first begin of this name. Answers whether there was one.
    pub(crate) fn withdraw(&mut self, word: u64) -> bool
        ensures found { result ≡ list_any (has_word word) self.old.waiting }
        ensures rest { self.new ≡ record self.old { waiting = without_first (has_word word) self.old.waiting } }
    {
        match self.place_of(word) {
            Some(place) => self.waiting.remove(place).is_some(),
            None => false,
        }
    }

    /// Removes the first begin whose time is over; `None` if no begin's is.
    pub(crate) fn take_late(&mut self, now: u64) -> Option<QueuedBegin>
        ensures taken { result ≡ find (is_late now) self.old.waiting }
        ensures rest { self.new ≡ record self.old { waiting = without_first (is_late now) self.old.waiting } }
    {
        let place = self.place_of_late(now)?;
        self.waiting.remove(place)
    }

    /// The earliest time at which a begin ends; `None` if none has such a time.
    pub(crate) fn earliest(&self) -> Option<u64>
        ensures { result ≡ earliest_of self.now.waiting }
    {
        self.waiting.iter().filter_map(|begin| begin.until).min()
    }

    /// The place of the first begin of this name.
    fn place_of(&self, word: u64) -> Option<usize>
        ensures { result ≡ position (has_word word) self.now.waiting }
    {
        self.waiting.iter().position(|begin| begin.word == word)
    }

    /// The place of the first begin whose time is over.
    fn place_of_late(&self, now: u64) -> Option<usize>
        ensures { result ≡ position (is_late now) self.now.waiting }
    {
        self.waiting.iter().position(|begin| begin.is_late(now))
    }
}

/// The command of a begin, for new work or for work since an earlier begin.
pub fn begin_command(since: Option<u64>) -> Command<'static>
    ensures { result ≡ begin_of since }
{
    match since {
        Some(since) => Command::BeginAgain { since },
        None => Command::Begin,
    }
}

/// What a begin came to that was answered so.
pub(crate) fn begun_in(answer: Answer) -> Result<TxnId, Refusal>
    requires { IsBeginAnswer answer }
    ensures { begin_said result ≡ answer }
{
    match answer {
        Answer::Begun(txn) => Ok(txn),
        Answer::Refused(refusal) => Err(refusal),
        _ => unreachable!(),
    }
}

/// Whether a begin was refused since every slot is taken.
pub(crate) fn is_too_many(came: Result<TxnId, Refusal>) -> bool
    ensures { result ≡ is_too_many came }
{
    matches!(came, Err(Refusal::TooManyTxns))
}
