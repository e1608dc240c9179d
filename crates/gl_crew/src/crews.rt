//! Sessions, each in its own thread, over one table.

ghost use Rattle.std.specs.Prelude.{◌≡◌, ◌<◌, ◌≤◌, IfOk};
ghost use Rattle.gl_crew.specs.Crews.{IsCount};

use crate::fault::CrewFault;
use crate::field::lay_out;
use crate::gate::{Gate, Open};
use crate::over::crew_over;
use crate::rounds::RecordRounds;
use gl_table::Detect;
use gl_waits::Victims;
use std::alloc::Global;
use std::sync::Wait;
use std::thread::Threads;

/// Runs `sessions` sessions, 1 to 128, of `rounds` rounds each over one new table, and answers how many
/// commands were accepted. As `crew_with`, with a gate that every session passes.
///
/// # Errors
///
/// Those of `crew_with`, except `Gate`.
pub fn crew<R: Threads + Wait + Sync>(
    rt: &R,
    alloc: Global,
    sessions: u32,
    rounds: u32,
    detect: Detect,
) -> Result<u64, CrewFault>
    requires { (0 < sessions) × (sessions ≤ 128) }
    ensures { IfOk result (λ count. IsCount detect sessions rounds count) }
{
    crew_through(
        rt,
        alloc,
        &Open,
        sessions,
        rounds,
        detect,
        Victims::Youngest,
    )
}

/// As `crew`, with this choice of victims.
///
/// # Errors
///
/// Those of `crew`.
pub fn crew_choosing<R: Threads + Wait + Sync>(
    rt: &R,
    alloc: Global,
    sessions: u32,
    rounds: u32,
    detect: Detect,
    victims: Victims,
) -> Result<u64, CrewFault>
    requires { (0 < sessions) × (sessions ≤ 128) }
    ensures { IfOk result (λ count. IsCount detect sessions rounds count) }
{
    crew_through(rt, alloc, &Open, sessions, rounds, detect, victims)
}

/// Runs `sessions` sessions, 1 to 128, of `rounds` rounds each over one new table, each in its own
/// thread, and answers how many commands were accepted: seven a round, and with detection by a watcher
/// those by which it settled deadlocks. The victim is the youngest on a cycle.
///
/// In each round a session begins a transaction, locks a database, a file, an index and its first
/// interval in IX and a record in X, and commits. In odd rounds it locks its own record, in even ones
/// the common record. It passes the gate after the lock on the record and after the commit.
///
/// A session for which no thread can be started runs on one that exists. With detection by a watcher
/// one more thread looks for deadlocks until the sessions have ended; if it cannot be started, there is
/// none.
///
/// # Errors
///
/// A session that is refused or stopped aborts its transaction and ends; one that the gate stops
/// commits and ends. Of several such faults, that of the session with the least number is answered.
/// Lack of memory for the sessions is reported before the first of them starts.
pub fn crew_with<G: Gate + Sync, R: Threads + Wait + Sync>(
    rt: &R,
    alloc: Global,
    gate: &G,
    sessions: u32,
    rounds: u32,
    detect: Detect,
) -> Result<u64, CrewFault>
    requires { (0 < sessions) × (sessions ≤ 128) }
    ensures { IfOk result (λ count. IsCount detect sessions rounds count) }
{
    crew_through(rt, alloc, gate, sessions, rounds, detect, Victims::Youngest)
}

/// A crew with this gate and this choice of victims.
fn crew_through<G: Gate + Sync, R: Threads + Wait + Sync>(
    rt: &R,
    alloc: Global,
    gate: &G,
    sessions: u32,
    rounds: u32,
    detect: Detect,
    victims: Victims,
) -> Result<u64, CrewFault>
    requires { (0 < sessions) × (sessions ≤ 128) }
    ensures { IfOk result (λ count. IsCount detect sessions rounds count) }
{
    let (manager, field) = lay_out(alloc, sessions, detect, victims)?;
    let work = RecordRounds { field, gate };
    crew_over(rt, alloc, manager, &work, sessions, rounds)?.answer()
}
