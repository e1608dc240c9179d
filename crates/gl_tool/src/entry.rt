//! The whole program.

ghost use Rattle.std.specs.Prelude.{◌≡◌, ◌≤◌, map};
ghost use Rattle.gl_options.specs.Planned.{HasNoPlan};
ghost use Rattle.gl_tool.specs.Outcome.{Ends, PutsCount, Stops, Works, status_of};

use arrayvec::ArrayString;
use gl_crew::{CrewFault, crew_choosing};
use gl_interpreter::{RunFault, flush, new_sink, put, put_number, run_choosing, send};
use gl_options::{Asked, asked};
use std::alloc::Global;
use std::convert::AsStr;
use std::fmt::Write as FormatWrite;
use std::io::{Read, Write};
use std::sync::Wait;
use std::thread::Threads;
use thiserror::Error as FaultText;

/// Why the program ended early.
#[derive(Clone, Copy, Debug, PartialEq, Eq, FaultText)]
pub enum ToolFault {
    /// The run met a fault, or the count of a crew could not be written.
    #[error("{0}")]
    Run(RunFault),
    /// The crew did not do all its rounds.
    #[error("crew stopped")]
    Crew(CrewFault),
    /// The words ask for nothing that the program does, or could not be read.
    #[error("bad words")]
    Words,
}

/// Does what the words after the program's name ask for. `--detect` says how deadlocks are detected,
/// and `--victims` how victims are chosen. Runs the script that `reader` gives, with listings, schema
/// changes, savepoints and lines of a trace if `--listings`, `--schema`, `--savepoints` and `--trace`
/// are among the words; or runs a crew of sessions, and writes how many of its commands were accepted.
/// Returns the exit status: 0 at the end, 1 after a fault, 2 for words that ask for nothing that the
/// program does. If it is not 0, one line that says why was written to `faults`.
pub fn program<H: Threads + Wait + Sync, S: AsStr, R: Read, W: Write, E: Write>(
    rt: &H,
    alloc: Global,
    words: &[S],
    reader: &mut R,
    writer: &mut W,
    faults: &mut E,
) -> u8
    ensures done { result ≡ 0 → Ends (map S.text words.now) (R.remaining reader.old) (R.remaining reader.new) (W.contents writer.old) (W.contents writer.new) }
    ensures fault { result ≡ 1 → Stops (map S.text words.now) (R.remaining reader.old) (R.remaining reader.new) (W.contents writer.old)
        (W.contents writer.new) }
    ensures bad_words { result ≡ 2 → (R.remaining reader.new ≡ R.remaining reader.old) × (W.contents writer.new ≡ W.contents writer.old) }
    ensures no_plan { HasNoPlan (map S.text words.now) → result ≡ 2 }
    ensures bound { result ≤ 2 }
{
    match work(rt, alloc, words, reader, writer) {
        Ok(()) => 0,
        Err(fault) => complain(fault, faults),
    }
}

/// Writes to the given stream why the program ended, and returns the status. A fault of that write
/// changes nothing.
pub fn complain<E: Write>(fault: ToolFault, faults: &mut E) -> u8
    ensures { result ≡ status_of fault }
{
    let mut line = ArrayString::<64>::new();
    let _ = writeln!(line, "gltool: {fault}");
    send(faults, line.as_bytes());
    match fault {
        ToolFault::Words => 2,
        ToolFault::Run(_) | ToolFault::Crew(_) => 1,
    }
}

/// Does what the words ask for.
fn work<H: Threads + Wait + Sync, S: AsStr, R: Read, W: Write>(
    rt: &H,
    alloc: Global,
    words: &[S],
    reader: &mut R,
    writer: &mut W,
) -> Result<(), ToolFault>
    ensures { Works (map S.text words.now) (R.remaining reader.old) (R.remaining reader.new) (W.contents writer.old) (W.contents writer.new) result }
{
    match asked(alloc, words) {
        Some(Asked::Script(choices)) => {
            run_choosing(alloc, reader, writer, choices).map_err(ToolFault::Run)
        }
        Some(
            Asked::Crew {
                sessions,
                rounds,
                detect,
                victims,
            },
        ) => match crew_choosing(rt, alloc, sessions, rounds, detect, victims) {
            Ok(count) => put_count(writer, count),
            Err(fault) => Err(ToolFault::Crew(fault)),
        },
        None => Err(ToolFault::Words),
    }
}

/// Writes how many commands of a crew were accepted.
fn put_count<W: Write>(writer: &mut W, count: u64) -> Result<(), ToolFault>
    ensures { PutsCount count (W.contents writer.old) (W.contents writer.new) result }
{
    let mut sink = new_sink();
    put(&mut sink, writer, b"accepted ");
    put_number(&mut sink, writer, count);
    put(&mut sink, writer, b"\n");
    flush(&mut sink, writer);
    if sink.broken {
        Err(ToolFault::Run(RunFault::Write))
    } else {
        Ok(())
    }
}
