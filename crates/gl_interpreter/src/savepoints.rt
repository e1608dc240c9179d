//! Savepoints of a script's transactions.

ghost use Rattle.std.specs.Prelude.{◌≡◌, []};
ghost use Rattle.gl_interpreter.specs.Script.{IsStoodFor, Releases, counted, mark_of};
ghost use Rattle.gl_interpreter.specs.Views.{names_of, script_of};

use crate::desk::Desk;
use crate::request::Said;
use gl_catalog::Answer;
use gl_modes::Refusal;
use gl_table::{Told, TxnId};

impl Desk {
    /// How many nodes a transaction holds or waits for, if it lives.
    pub(crate) fn mark(&self, txn: TxnId) -> Said
        ensures stood { IsStoodFor (script_of self.now) }
        ensures mark { result ≡ mark_of (script_of self.now) txn }
    {
        self.manager.law(); // Its list has each of them once.
        match self.manager.lock_count(txn) {
            Some(count) => Said::Count(count),
            None => Said::Answer(Answer::Refused(Refusal::NoSuchTxn)),
        }
    }

    /// Rolls back a transaction to a savepoint, and answers how many nodes were released.
    pub(crate) fn release(&mut self, txn: TxnId, mark: u64, told: &mut Told) -> Said
        requires empty { told.old.items ≡ [] }
        ensures releases { Releases (script_of self.old) txn mark result told.new.items (script_of self.new) }
        ensures names { names_of self.new ≡ names_of self.old }
        ensures language { self.new.language ≡ self.old.language }
    {
        self.manager.law();
        let released = self.manager.release_since_telling(txn, mark as usize, told);
        self.manager.law();
        said_of(released)
    }
}

/// A count of nodes, or the refusal.
fn said_of(count: Result<usize, Refusal>) -> Said
    ensures { result ≡ counted count }
{
    match count {
        Ok(count) => Said::Count(count),
        Err(refusal) => Said::Answer(Answer::Refused(refusal)),
    }
}
