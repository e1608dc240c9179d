//! The one call for every command.

ghost use Rattle.std.specs.Prelude.{◌≡◌, []};
ghost use Rattle.gl_table.specs.Table.{KeepsOrders};
ghost use Rattle.gl_catalog.specs.Deadlocks.{KeepsDeadlock};
ghost use Rattle.gl_catalog.specs.Completes.{IsCarriedOut};
ghost use Rattle.gl_catalog.specs.Counters.{counted};
ghost use Rattle.gl_catalog.specs.Manager.{state_of};
ghost use Rattle.gl_steps.specs.Promises.{KeepsCaller, SettlesIdle, StepLeavesOthers};
ghost use Rattle.gl_steps.specs.Step.{Step};

use super::Manager;
use crate::replies::{
    begun_answer, done_answer, effect_answer, escalate_answer, lock_answer, mode_answer,
    node_answer, try_answer,
};
use gl_steps::{Answer, Command, Reply};
use gl_table::Told;

impl Manager {
    /// Carries out one command, and answers it. A command that is no query and is not refused is
    /// counted, also if it waits or its requester is condemned. A refused command and a query
    /// change nothing.
    ///
    /// A living transaction that the command does not name keeps its effective mode on each record
    /// that lives before and after, unless the reply tells it of a grant, which may raise it. If it
    /// reads a node, the records below that node stay, with their keys, except rows that are
    /// adopted or forgotten, which no transaction holds or waits for. A rekey and a move leave the
    /// effective modes of their caller, and an escalation lowers none. A settle of a transaction
    /// that is on no cycle tells nobody. A lock or a settle that condemns victims records the
    /// deadlock of the last; otherwise the recorded one stays.
    pub fn apply(&mut self, command: Command<'_>) -> Reply
        ensures step { Step (state_of self.old) command.entry result.answer result.told.items (state_of self.new) }
        ensures deadlock { KeepsDeadlock command.entry self.old result.answer self.new }
        ensures caller { KeepsCaller command.entry (state_of self.old) (state_of self.new) }
        ensures others { StepLeavesOthers (state_of self.old) command.entry (result.answer, result.told.items) (state_of self.new) }
        ensures settles { SettlesIdle (state_of self.old) command.entry result.answer result.told.items (state_of self.new) }
        ensures counters { self.new.counters ≡ counted (state_of self.old) command.entry result.answer result.told.items (state_of self.new) self.old.counters }
        ensures same { self.new.accepted ≡ self.old.accepted → self.new ≡ self.old }
        ensures orders { KeepsOrders self.old.table self.new.table }
    {
        let mut told = Told::new();
        let answer = self.apply_apart(command, &mut told);
        Reply { answer, told }
    }

    /// As `apply_telling`, but not inlined: else each caller of `apply` would have the code of
    /// every command.
    #[inline(never)]
    fn apply_apart(&mut self, command: Command<'_>, told: &mut Told) -> Answer
        requires empty { told.old.items ≡ [] }
        ensures step { Step (state_of self.old) command.entry result told.new.items (state_of self.new) }
        ensures deadlock { KeepsDeadlock command.entry self.old result self.new }
        ensures caller { KeepsCaller command.entry (state_of self.old) (state_of self.new) }
        ensures others { StepLeavesOthers (state_of self.old) command.entry (result, told.new.items) (state_of self.new) }
        ensures settles { SettlesIdle (state_of self.old) command.entry result told.new.items (state_of self.new) }
        ensures counters { self.new.counters ≡ counted (state_of self.old) command.entry result told.new.items (state_of self.new) self.old.counters }
        ensures same { self.new.accepted ≡ self.old.accepted → self.new ≡ self.old }
        ensures orders { KeepsOrders self.old.table self.new.table }
    {
        self.apply_telling(command, told)
    }

    /// As `apply`, with the notices put into an empty list that the caller may use again: a reply
    /// has some six kilobytes. Inlined, so that a caller with one kind of command tests for no
    /// other.
    #[inline(always)]
    pub fn apply_telling(&mut self, command: Command<'_>, told: &mut Told) -> Answer
        requires empty { told.old.items ≡ [] }
        ensures step { Step (state_of self.old) command.entry result told.new.items (state_of self.new) }
        ensures deadlock { KeepsDeadlock command.entry self.old result self.new }
        ensures caller { KeepsCaller command.entry (state_of self.old) (state_of self.new) }
        ensures others { StepLeavesOthers (state_of self.old) command.entry (result, told.new.items) (state_of self.new) }
        ensures settles { SettlesIdle (state_of self.old) command.entry result told.new.items (state_of self.new) }
        ensures counters { self.new.counters ≡ counted (state_of self.old) command.entry result told.new.items (state_of self.new) self.old.counters }
        ensures same { self.new.accepted ≡ self.old.accepted → self.new ≡ self.old }
        ensures orders { KeepsOrders self.old.table self.new.table }
    {
        self.law();
        self.carry_out(command, told)
    }

    /// Carries out one command by its call.
    #[inline(always)]
    fn carry_out(&mut self, command: Command<'_>, told: &mut Told) -> Answer
        requires empty { told.old.items ≡ [] }
        ensures { IsCarriedOut self.old command.entry result told.new.items self.new }
    {
        match command {
            Command::Inner { parents } => node_answer(self.add_inner(parents)),
            Command::File { parents } => node_answer(self.add_file(parents)),
            Command::Index {
                parents,
                file,
                bounds,
            } => node_answer(self.add_index(parents, file, bounds)),
            Command::Begin => begun_answer(self.begin()),
            Command::BeginAgain { since } => begun_answer(self.begin_again(since)),
            Command::Join { slot, since } => begun_answer(self.join(slot, since)),
            Command::Lock { txn, node, mode } => lock_answer(self.lock_telling(
                txn, node, mode, told,
            )),
            Command::Try { txn, node, mode } => try_answer(self.try_lock(txn, node, mode)),
            Command::Unlock { txn, node } => done_answer(self.unlock_telling(txn, node, told)),
            Command::Escalate { txn, node } => {
                escalate_answer(self.escalate_telling(txn, node, told))
            }
            Command::Cancel { txn } => done_answer(self.cancel_telling(txn, told)),
            Command::Commit { txn } => done_answer(self.commit_telling(txn, told)),
            Command::Renew { txn, since } => begun_answer(self.renew(txn, since)),
            Command::Abort { txn } => done_answer(self.abort_telling(txn, told)),
            Command::Settle { txn } => done_answer(self.settle_telling(txn, told)),
            Command::Insert { txn, file, keys } => node_answer(self.insert(txn, file, keys)),
            Command::Delete { txn, rec } => done_answer(self.delete_telling(txn, rec, told)),
            Command::Rekey {
                txn,
                rec,
                index,
                key,
            } => done_answer(self.rekey_telling(txn, rec, index, key, told)),
            Command::Move { txn, node, parents } => {
                done_answer(self.relocate_telling(txn, node, parents, told))
            }
            Command::Group { node } => mode_answer(self.table.group(node)),
            Command::Held { txn, node } => mode_answer(self.table.held(txn, node)),
            Command::Effective { txn, node } => effect_answer(self.table.effective(txn, node)),
            Command::Adopt { file, keys } => node_answer(self.adopt(file, keys)),
            Command::Forget { rec } => done_answer(self.forget(rec)),
            Command::Drop { txn, node } => done_answer(self.drop_telling(txn, node, told)),
            Command::IndexBy {
                txn,
                parents,
                file,
                bounds,
                records,
                keys,
            } => node_answer(self.index_by(txn, parents, file, bounds, records, keys)),
            Command::Split { txn, interval, at } => {
                node_answer(self.split_telling(txn, interval, at, told))
            }
            Command::Merge { txn, interval } => {
                done_answer(self.merge_telling(txn, interval, told))
            }
        }
    }
}
