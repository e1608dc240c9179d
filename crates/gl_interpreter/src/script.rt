//! A script, from a reader to a writer.

ghost use Rattle.std.specs.Prelude.{◌≡◌, ℕ, ◌<◌, List, [], ◌∷◌, ◌++◌, IfSome, OnOk, Option, length, vec_len};
ghost use Rattle.std.specs.Io.KnownBytes.{IsAtEnd};
ghost use Rattle.gl_options.specs.Planned.{plain};
ghost use Rattle.gl_interpreter.specs.Report.{IsOpen, Ran, ReadsWithin};
ghost use Rattle.gl_interpreter.specs.SoFar.{Finishes, HasReported, IsNew, Takes, choices_now};

use crate::interpreter::Interpreter;
use crate::sink::{Sink, flush, new_sink};
use arrayvec::ArrayVec;
use gl_options::Choices;
use gl_table::Detect;
use memchr::memchr;
use std::alloc::Global;
use std::io::{Read, Write};
use thiserror::Error as FaultText;

/// Why a run ended before its script did.
#[derive(Clone, Copy, Debug, PartialEq, Eq, FaultText)]
pub enum RunFault {
    /// A read failed. The whole lines read before it are answered.
    #[error("read fault")]
    Read,
    /// A write failed or wrote nothing. What was written is a prefix of the report.
    #[error("write fault")]
    Write,
    /// The script has more than 16,777,216 bytes. Its whole lines within these are answered.
    #[error("input too long")]
    TooMuch,
    /// There was no memory to begin with. Nothing was read or written.
    #[error("no memory")]
    Memory,
}

/// The most bytes of a script.
const LIMIT: usize = 16_777_216;

/// How many bytes are read at once.
const BLOCK: usize = 65_536;

/// A run, after the bytes so far.
#[derive(Drop)]
pub(crate) struct Tool {
    pub(crate) interpreter: Interpreter,
    /// The first 257 bytes of the line that has not ended.
    pub(crate) line: ArrayVec<u8, 257>,
    pub(crate) sink: Sink,
}

/// Answers a script, line by line as it is read, with deadlocks detected as `detect` says. The victim
/// is the youngest, and there are no listings, schema changes, savepoints or lines of a trace. All else
/// is as for [`run_choosing`].
///
/// # Errors
///
/// As for [`run_choosing`].
pub fn run<R: Read, W: Write>(
    alloc: Global,
    reader: &mut R,
    writer: &mut W,
    detect: Detect,
) -> Result<(), RunFault>
    ensures report { Ran (plain detect) (R.remaining reader.old) (R.remaining reader.new) (W.contents writer.old) (W.contents writer.new) result }
    ensures whole { OnOk result (IsAtEnd (R.remaining reader.new)) }
    ensures limit { ReadsWithin (R.remaining reader.old) (R.remaining reader.new) result }
{
    run_choosing(alloc, reader, writer, Choices::plain(detect))
}

/// Answers a script, line by line as it is read. `choices` says how deadlocks are detected and victims
/// chosen, and whether there are listings, schema changes, savepoints and lines of a trace.
///
/// What is written is the report of what is read; with `Ok` all of the reader was read. Whatever the
/// outcome, at most 16,777,217 bytes were read, and with `Ok` at most 16,777,216. The answers to all
/// lines read are written before the next read. The managers are made before the first read. After
/// that, memory is taken only for the names and locks of the script: a line for which there is none is
/// answered `no 1 NoMemory`.
///
/// # Errors
///
/// The first fault ends the run; an interrupted read or write is a fault too.
pub fn run_choosing<R: Read, W: Write>(
    alloc: Global,
    reader: &mut R,
    writer: &mut W,
    choices: Choices,
) -> Result<(), RunFault>
    ensures report { Ran choices (R.remaining reader.old) (R.remaining reader.new) (W.contents writer.old) (W.contents writer.new) result }
    ensures whole { OnOk result (IsAtEnd (R.remaining reader.new)) }
    ensures limit { ReadsWithin (R.remaining reader.old) (R.remaining reader.new) result }
{
    let Some(mut block) = new_block(alloc) else {
        return Err(RunFault::Memory);
    };
    let Some(mut tool) = new_tool(alloc, choices) else {
        return Err(RunFault::Memory);
    };
    answer_script(&mut tool, reader, writer, &mut block)
}

/// A buffer for one read.
pub(crate) fn new_block(alloc: Global) -> Option<Vec<u8>>
    ensures { IfSome result (λ block. 0 < vec_len block) }
{
    vec![in alloc; 0u8; BLOCK].ok()
}

/// A tool before its first byte. `None` if out of memory.
pub(crate) fn new_tool(alloc: Global, choices: Choices) -> Option<Tool>
    ensures { IfSome result (λ tool. IsNew choices tool) }
{
    Some(Tool {
        interpreter: Interpreter::new(alloc, choices)?,
        line: ArrayVec::new(),
        sink: new_sink(),
    })
}

/// Answers a script by a new tool.
pub(crate) fn answer_script<R: Read, W: Write>(
    tool: &mut Tool,
    reader: &mut R,
    writer: &mut W,
    block: &mut [u8],
) -> Result<(), RunFault>
    requires fresh { IsNew (choices_now tool.old) tool.old }
    requires room { 0 < length block.old }
    ensures report { Ran (choices_now tool.old) (R.remaining reader.old) (R.remaining reader.new) (W.contents writer.old) (W.contents writer.new) result }
    ensures whole { OnOk result (IsAtEnd (R.remaining reader.new)) }
    ensures limit { ReadsWithin (R.remaining reader.old) (R.remaining reader.new) result }
{
    let mut total = 0;
    while total <= LIMIT {
        let most = block.len().min(LIMIT + 1 - total);
        let part = &mut block[..most];
        let Ok(count) = reader.read(part) else {
            return Err(RunFault::Read);
        };
        if count == 0 {
            return finish(tool, writer);
        }
        take_block(tool, writer, &part[..count]);
        if tool.sink.broken {
            // The last line is answered too, to the broken sink: then what was written is a prefix of a
            // report on all that was read.
            let _ = finish(tool, writer);
            return Err(RunFault::Write);
        }
        total += count;
    }
    Err(RunFault::TooMuch)
}

/// Processes the next bytes of the script, and writes the answers to the lines that they end.
fn take_block<W: Write>(tool: &mut Tool, writer: &mut W, block: &[u8])
    ensures takes { Takes (W.contents writer.old) tool.old (W.contents writer.new) tool.new block.now }
    ensures empty { tool.new.sink.held.items ≡ [] }
{
    let mut at = 0;
    while let Some(count) = memchr(b'\n', &block[at..]) {
        take_line(tool, writer, &block[at..at + count]);
        at += count + 1;
    }
    keep(tool, &block[at..]);
    flush(&mut tool.sink, writer);
}

/// Appends bytes without a newline.
fn keep(tool: &mut Tool, bytes: &[u8])
    requires { IsOpen bytes.now }
    ensures { (written : Option (List ℕ)) → Takes written tool.old written tool.new bytes.now }
{
    let count = tool.line.remaining_capacity().min(bytes.len());
    let _ = tool.line.try_extend_from_slice(&bytes[..count]);
}

/// Processes the last bytes of a line, and its newline. A line that is whole in the block is not
/// copied.
fn take_line<W: Write>(tool: &mut Tool, writer: &mut W, bytes: &[u8])
    requires { IsOpen bytes.now }
    ensures { Takes (W.contents writer.old) tool.old (W.contents writer.new) tool.new (bytes.now ++ 10 ∷ []) }
{
    if tool.line.is_empty() {
        tool.interpreter.answer(&mut tool.sink, writer, bytes);
    } else {
        keep(tool, bytes);
        answer_line(tool, writer);
        tool.line.clear();
    }
}

/// Answers the line.
fn answer_line<W: Write>(tool: &mut Tool, writer: &mut W)
    ensures answers { HasReported (W.contents writer.old) tool.old (W.contents writer.new) tool.new }
    ensures line { tool.new.line ≡ tool.old.line }
{
    tool.interpreter
        .answer(&mut tool.sink, writer, tool.line.as_slice());
}

/// Answers what follows the last newline, if anything does.
fn finish<W: Write>(tool: &mut Tool, writer: &mut W) -> Result<(), RunFault>
    ensures { Finishes (W.contents writer.old) tool.old (W.contents writer.new) result }
{
    if !tool.line.is_empty() {
        answer_line(tool, writer);
    }
    flush(&mut tool.sink, writer);
    if tool.sink.broken {
        Err(RunFault::Write)
    } else {
        Ok(())
    }
}
