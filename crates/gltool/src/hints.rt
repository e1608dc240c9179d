//! Why a line of a script was refused, for whoever wrote it.

use gl_modes::Mode;
use std::io;
use std::io::Write;

/// Which lines a script may have beside the usual ones.
#[derive(Clone, Copy)]
pub struct Lines {
    pub listings: bool,
    pub schema: bool,
    pub savepoints: bool,
    pub trace: bool,
}

/// The first field of a text, up to a blank, and what follows the blank.
fn first_field(text: &[u8]) -> (&[u8], &[u8]) {
    match text.iter().position(|byte| *byte == b' ') {
        Some(end) => (&text[..end], &text[end + 1..]),
        None => (text, &[]),
    }
}

/// A field of a text, by its place from 0 on; empty if there is none.
fn field(text: &[u8], place: usize) -> &[u8] {
    let mut rest = text;
    for _field in 0..place {
        rest = first_field(rest).1;
    }
    first_field(rest).0
}

/// Writes why a line was refused that was answered so, without the end of the line.
pub fn put_reason<W: Write>(
    writer: &mut W,
    line: &[u8],
    answer: &[u8],
    lines: Lines,
) -> io::Result<()> {
    let named = field(answer, 3);
    match field(answer, 1) {
        b"7" => {
            writer.write_all(named)?;
            writer.write_all(b" has to be held in ")?;
            writer.write_all(intention(line))?;
            writer.write_all(b" first")
        },
        b"11" if is_join(line) => writer.write_all(
            b"another transaction has the slot, or there are not so many: 64, or 128 after the line `granular 2`",
        ),
        b"20" => put_form(writer, line, lines),
        number => {
            writer.write_all(named)?;
            if !named.is_empty() {
                writer.write_all(b" ")?;
            }
            writer.write_all(reason(number))
        },
    }
}

/// The intention that a request needs on parents, or greater.
fn intention(line: &[u8]) -> &'static [u8] {
    match (field(line, 0), field(line, 2)) {
        (b"lock" | b"try", b"IS" | b"S") => b"IS",
        _ => b"IX",
    }
}

/// What the fields of a line may be.
const FIELDS: &[u8] =
    b" (names: 1 to 16 of a to z, 0 to 9 and _, the first a letter, not on, not at; INDEX.0 is an interval; numbers: \
no sign, no 0 in front, below 2^64)";

/// The commands that every script has.
const COMMANDS: &[u8] =
    b"inner, file, index, begin, lock, try, unlock, cancel, commit, abort, settle, insert, delete, rekey, escalate, \
group, held, effective";

/// What a refusal says, after the name that it has, if it has one.
fn reason(number: &[u8]) -> &'static [u8] {
    match number {
        b"1" => b"there is no memory for it",
        b"2" => b"names no node",
        b"3" => b"names no transaction",
        b"4" => b"the transaction waits: it can only be cancelled or aborted",
        b"5" => b"the transaction is a victim: it can only abort",
        b"6" => b"the mode is NL, or a record's lock is neither S nor X",
        b"8" => b"the transaction does not hold it",
        b"9" => b"is a child of it and held: unlock that first",
        b"10" => b"another transaction holds it or waits for it, so it is not locked",
        b"11" =>
            b"there are as many transactions as there may be: 64, or 128 after the line `granular 2`",
        b"12" => b"there are as many nodes as there may be",
        b"13" =>
            b"a node is of the wrong kind for its place, named twice, missing, or one too many",
        b"14" => b"it needs X on the node or its file, and on what the change touches",
        b"15" => b"the transaction waits for nothing",
        b"16" => b"is a name in use",
        b"17" =>
            b"the file has records (an index names them all, and its transaction holds none), or indexes if it is dropped",
        b"18" =>
            b"bounds have to rise from above 0, that of a split is inside its interval, a record has one key for each index of its file, \
and an index over records names each of its file, the oldest first, and as many keys",
        b"19" => b"a counter is at its end",
        b"21" => b"is the node itself or below it",
        b"22" => b"a transaction holds the record or waits for it",
        b"23" => b"the node has children",
        b"24" => b"the transaction holds more than intentions, or a node for which another waits",
        _ => b"it is refused",
    }
}

/// Writes why a line is none.
fn put_form<W: Write>(writer: &mut W, line: &[u8], lines: Lines) -> io::Result<()> {
    if let Some(fault) = layout(line) {
        return writer.write_all(fault);
    }
    let verb = first_field(line).0;
    if let Some(word) = needs(line, lines) {
        writer.write_all(b"it needs the word ")?;
        return writer.write_all(word);
    }
    if is_request(verb) && Mode::read(field(line, 2)).is_none() {
        writer.write_all(b"unknown mode \"")?;
        put_shown(writer, field(line, 2))?;
        return writer.write_all(b"\"; modes are IS, IX, S, SIX, X");
    }
    match form(verb) {
        Some(form) => {
            writer.write_all(b"it is to be: ")?;
            writer.write_all(form)?;
            writer.write_all(FIELDS)
        },
        None => {
            writer.write_all(b"unknown command \"")?;
            put_shown(writer, verb)?;
            writer.write_all(b"\"; commands are ")?;
            writer.write_all(COMMANDS)
        },
    }
}

/// Writes a field as a terminal can show it.
fn put_shown<W: Write>(writer: &mut W, field: &[u8]) -> io::Result<()> {
    for byte in field {
        let shown = if *byte > b' ' && *byte < 127 {
            *byte
        } else {
            b'?'
        };
        writer.write_all(&[shown])?;
    }
    Ok(())
}

/// Whether a line has more bytes than a line may have.
pub fn is_long(line: &[u8]) -> bool {
    line.len() > 256
}

/// What is wrong with the bytes between the fields.
fn layout(line: &[u8]) -> Option<&'static [u8]> {
    if is_long(line) {
        return Some(b"it has more than 256 bytes");
    }
    if line.contains(&b'\t') {
        return Some(b"it has a tab: fields have one blank between them");
    }
    if line.contains(&b'\r') {
        return Some(b"it has a carriage return: lines end by a newline alone");
    }
    if line.first() == Some(&b' ') {
        return Some(b"it begins with a blank");
    }
    if line.last() == Some(&b' ') {
        return Some(b"it ends with a blank");
    }
    if has_two_blanks(line) {
        return Some(b"it has two blanks side by side");
    }
    None
}

fn has_two_blanks(line: &[u8]) -> bool {
    let mut was_blank = false;
    for byte in line {
        if was_blank && *byte == b' ' {
            return true;
        }
        was_blank = *byte == b' ';
    }
    false
}

/// The word of the program that the line needs and does not have.
fn needs(line: &[u8], lines: Lines) -> Option<&'static [u8]> {
    match field(line, 0) {
        b"holders" | b"queue" | b"locks" | b"waits" | b"txns" | b"cycle" if !lines.listings => {
            Some(b"--listings")
        }
        b"drop" | b"split" | b"merge" if !lines.schema => Some(b"--schema"),
        b"index" if !lines.schema && is_name_first(line) => Some(b"--schema"),
        b"mark" | b"release" if !lines.savepoints => Some(b"--savepoints"),
        b"adopt" | b"forget" | b"renew" if !lines.trace => Some(b"--trace"),
        b"begin" if !lines.trace && (is_join(line) || matches!(field(line, 2), b"again")) => Some(
            b"--trace",
        ),
        _ => None,
    }
}

/// Whether a line about an index names its transaction: its name, and not a colon, is after the next field.
fn is_name_first(line: &[u8]) -> bool {
    !matches!(field(line, 2), b":") && matches!(field(line, 3), b":")
}

fn is_request(verb: &[u8]) -> bool {
    matches!(verb, b"lock" | b"try")
}

/// Whether a line begins a transaction in a slot that it names.
fn is_join(line: &[u8]) -> bool {
    matches!(field(line, 0), b"begin") && matches!(field(line, 2), b"join")
}

/// The form of a command.
fn form(verb: &[u8]) -> Option<&'static [u8]> {
    let form: &'static [u8] = match verb {
        b"granular" => b"`granular 2`, as the first line",
        b"inner" => b"inner NODE, or inner NODE : PARENT..",
        b"file" => b"file NODE : PARENT..",
        b"index" =>
            b"index NODE : PARENT.. on FILE at BOUND.., or by --schema index TXN NODE : PARENT.. on FILE at BOUND.., \
perhaps with RECORD.. at KEY..",
        b"begin" => b"begin TXN, or by --trace begin TXN again AGE or begin TXN join SLOT AGE",
        b"commit" => b"commit TXN",
        b"abort" => b"abort TXN",
        b"cancel" => b"cancel TXN",
        b"settle" => b"settle TXN",
        b"lock" => b"lock TXN MODE NODE",
        b"try" => b"try TXN MODE NODE",
        b"unlock" => b"unlock TXN NODE",
        b"escalate" => b"escalate TXN NODE",
        b"insert" => b"insert TXN RECORD FILE KEY..",
        b"delete" => b"delete TXN RECORD",
        b"rekey" => b"rekey TXN RECORD INDEX KEY",
        b"move" => b"move TXN NODE, or move TXN NODE : PARENT.., after the first line `granular 2`",
        b"drop" => b"drop TXN NODE",
        b"split" => b"split TXN INTERVAL at BOUND",
        b"merge" => b"merge TXN INTERVAL",
        b"mark" => b"mark TXN",
        b"release" => b"release TXN MARK",
        b"adopt" => b"adopt RECORD FILE KEY..",
        b"forget" => b"forget RECORD",
        b"renew" => b"renew TXN AGE",
        b"group" => b"group NODE",
        b"held" => b"held TXN NODE",
        b"effective" => b"effective TXN NODE",
        b"holders" => b"holders NODE",
        b"queue" => b"queue NODE",
        b"locks" => b"locks TXN",
        b"waits" => b"waits TXN",
        b"txns" => b"txns",
        b"cycle" => b"cycle",
        _ => return None,
    };
    Some(form)
}
