//! The rounds of a crew: each locks a record after what is above it.

ghost use Rattle.std.specs.Prelude.{◌≡◌, ◌+◌, ◌*◌, [], IfOk};
ghost use Rattle.gl_model.specs.declared.txn.TxnId.{TxnId as ATxnId};
ghost use Rattle.gl_crew.specs.Locked.{IsLocked, record_of};

use crate::fault::CrewFault;
use crate::field::Field;
use crate::gate::{Gate, Point};
use crate::work::Work;
use gl_catalog::{Answer, Command};
use gl_modes::{Mode, NodeId, Refusal};
use gl_shared::{Grant, Naming, Session, Stop};
use gl_table::TxnId;
use std::sync::Wait;

/// Rounds of seven commands, as `crew_with` describes, over these nodes and with this gate.
#[derive(Drop)]
pub struct RecordRounds<'a, G: Gate> {
    /// The nodes that are locked.
    pub field: Field,
    /// What a session passes after the lock on the record and after the commit.
    pub gate: &'a G,
}

impl<G: Gate> Work for RecordRounds<'_, G> {
    ghost commands = { 7 };

    fn round<N: Naming, R: Wait>(
        &self,
        rt: &R,
        session: &mut Session<'_, N>,
        number: u32,
        round: u32,
    ) -> Result<(), CrewFault> {
        do_round(rt, self.gate, &self.field, session, number, round)?;
        Ok(())
    }
}

/// One round: a transaction that locks a record and commits. Returns its grants.
fn do_round<N: Naming, G: Gate, R: Wait>(
    rt: &R,
    gate: &G,
    field: &Field,
    session: &mut Session<'_, N>,
    number: u32,
    round: u32,
) -> Result<[Grant; 5], CrewFault>
    ensures share { IfOk result (λ _. session.new.share ≡ session.old.share + 7) }
    ensures locked { IfOk result (λ grants. (t : ATxnId) × IsLocked t field.now.path (record_of field.now.records.items number round) grants) }
{
    let txn = begin(rt, session)?;
    let record = field.record(number, round);
    let grants = match lock_all(rt, &field.path, session, txn, record) {
        Ok(grants) => grants,
        Err(stop) => {
            session.ask(rt, Command::Abort { txn });
            return Err(fault_of(stop));
        }
    };
    let goes_on = gate.pass(rt, number, round, Point::Locked);
    commit(rt, session, txn)?;
    if goes_on && gate.pass(rt, number, round, Point::Committed) {
        Ok(grants)
    } else {
        Err(CrewFault::Gate)
    }
}

/// Begins a transaction.
fn begin<N: Naming, R: Wait>(rt: &R, session: &mut Session<'_, N>) -> Result<TxnId, CrewFault>
    ensures { IfOk result (λ _. session.new.share ≡ session.old.share + 1) }
{
    match session.ask(rt, Command::Begin).answer {
        Answer::Begun(txn) => Ok(txn),
        answer => Err(fault_in(answer)),
    }
}

/// Locks a record in X, after what is above it in IX.
fn lock_all<N: Naming, R: Wait>(
    rt: &R,
    path: &[NodeId; 4],
    session: &mut Session<'_, N>,
    txn: TxnId,
    record: NodeId,
) -> Result<[Grant; 5], Stop>
    ensures share { IfOk result (λ _. session.new.share ≡ session.old.share + 5) }
    ensures locked { IfOk result (λ grants. IsLocked txn path.now «record» grants) }
{
    Ok([
        session.lock(rt, txn, path[0], Mode::IX)?,
        session.lock(rt, txn, path[1], Mode::IX)?,
        session.lock(rt, txn, path[2], Mode::IX)?,
        session.lock(rt, txn, path[3], Mode::IX)?,
        session.lock(rt, txn, record, Mode::X)?,
    ])
}

/// Ends a transaction.
fn commit<N: Naming, R: Wait>(
    rt: &R,
    session: &mut Session<'_, N>,
    txn: TxnId,
) -> Result<(), CrewFault>
    ensures { IfOk result (λ _. session.new.share ≡ session.old.share + 1) }
{
    match session.ask(rt, Command::Commit { txn }).answer {
        Answer::Done => Ok(()),
        answer => {
            session.ask(rt, Command::Abort { txn });
            Err(fault_in(answer))
        }
    }
}

/// The fault for a lock without a grant.
fn fault_of(stop: Stop) -> CrewFault {
    match stop {
        Stop::Refused(refusal) => CrewFault::Refused(refusal),
        Stop::Victim | Stop::Moved | Stop::Gone => CrewFault::Refused(Refusal::TxnCondemned),
    }
}

/// The fault for a command with this answer.
fn fault_in(answer: Answer) -> CrewFault {
    match answer {
        Answer::Refused(refusal) => CrewFault::Refused(refusal),
        _ => CrewFault::Refused(Refusal::TxnCondemned),
    }
}
