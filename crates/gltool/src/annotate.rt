//! A script's report beside its lines, and why lines were refused.

use crate::hints::{Lines, is_long, put_reason};
use crate::usage::Wishes;
use std::io;
use std::io::Write;

/// How many blanks are between the longest line and its answer.
const BETWEEN: usize = 2;

/// The first line of a text, and what follows it.
fn first_line(text: &[u8]) -> (&[u8], &[u8]) {
    match text.iter().position(|byte| *byte == b'\n') {
        Some(end) => (&text[..end], &text[end + 1..]),
        None => (text, &[]),
    }
}

/// Whether a line of a script has an answer: it is neither empty nor a comment, or it is too long to be one.
fn has_answer(line: &[u8]) -> bool {
    match line.first() {
        Some(byte) => *byte != b'#' || is_long(line),
        None => false,
    }
}

/// Whether a line of a report is below an answer: a notice, or a row of a listing.
fn is_below(line: &[u8]) -> bool {
    line.starts_with(b"told ")
        || line.starts_with(b"holder ")
        || line.starts_with(b"waiter ")
        || line.starts_with(b"lock ")
        || line.starts_with(b"blocker ")
        || line.starts_with(b"txn ")
        || line.starts_with(b"victim ")
        || line.starts_with(b"stuck ")
}

/// How many bytes the longest line with an answer has, without those that are too long.
fn longest(script: &[u8]) -> usize {
    let mut left = script;
    let mut most = 0;
    for _line in 0..script.len() {
        let (line, after) = first_line(left);
        if has_answer(line) && !is_long(line) {
            most = most.max(line.len());
        }
        left = after;
    }
    most
}

/// Writes a line and its end.
fn put_line<W: Write>(writer: &mut W, line: &[u8]) -> io::Result<()> {
    writer.write_all(line)?;
    writer.write_all(b"\n")
}

/// Writes so many blanks.
fn put_blanks<W: Write>(writer: &mut W, count: usize) -> io::Result<()> {
    for _blank in 0..count {
        writer.write_all(b" ")?;
    }
    Ok(())
}

/// Writes what is below an answer, each line after so many blanks. Answers the rest of the report.
fn put_below<'a, W: Write>(
    writer: &mut W,
    report: &'a [u8],
    blanks: usize,
) -> io::Result<&'a [u8]> {
    let mut left = report;
    for _line in 0..report.len() {
        let (line, after) = first_line(left);
        if !is_below(line) {
            break;
        }
        put_blanks(writer, blanks)?;
        put_line(writer, line)?;
        left = after;
    }
    Ok(left)
}

/// Writes the number of a line and why it was refused.
fn put_fault<W: Write>(
    faults: &mut W,
    number: usize,
    line: &[u8],
    answer: &[u8],
    lines: Lines,
) -> io::Result<()> {
    write!(faults, "line {number}: ")?;
    put_reason(faults, line, answer, lines)?;
    faults.write_all(b"\n")
}

/// Writes the report of a script, each answer to the right of its line if that is wished; and why each refused line was
/// refused. If it is to end at the first of these, answers whether there was one.
pub fn annotate<W: Write, E: Write>(
    script: &[u8],
    report: &[u8],
    wishes: Wishes,
    lines: Lines,
    writer: &mut W,
    faults: &mut E,
) -> io::Result<bool> {
    let width = if wishes.echo {
        longest(script).saturating_add(BETWEEN)
    } else {
        0
    };
    let (mut left, mut answers) = (script, report);
    for place in 0..script.len() {
        if left.is_empty() {
            break;
        }
        let (line, after) = first_line(left);
        left = after;
        if !has_answer(line) {
            if wishes.echo {
                put_line(writer, line)?;
            }
            continue;
        }
        if answers.is_empty() {
            break;
        }
        let (answer, below) = first_line(answers);
        if wishes.echo {
            writer.write_all(line)?;
            put_blanks(writer, width.saturating_sub(line.len()).max(BETWEEN))?;
        }
        put_line(writer, answer)?;
        answers = put_below(writer, below, width)?;
        if !answer.starts_with(b"no ") {
            continue;
        }
        if wishes.explain {
            put_fault(faults, place + 1, line, answer, lines)?;
        }
        if wishes.strict {
            return Ok(true);
        }
    }
    Ok(false)
}
