//! `gltool`: runs a script of lock commands, or a crew of sessions in threads, as `program` of `gl_tool` does. Here are
//! the words that go beyond it.
#![tactic(auto)]

mod annotate;
mod call;
mod hints;
mod usage;

use annotate::annotate;
use call::Call;
use gl_tool::{RunFault, ToolFault, complain, program};
use hints::Lines;
use std::alloc::Global;
use std::fs::File;
use std::io::{Read, Write};
use std::process::ExitCode;
use std::sync::Wait;
use std::thread::Threads;
use std::{env, io};
use usage::{USAGE, VERSION};

/// The most bytes of a script, and one more.
const TOO_MANY: u64 = 16_777_217;

fn main(rt: HostRuntime) -> ExitCode {
    let mut faults = rt.stderr();
    let Ok(args) = env::args(&rt) else {
        return ExitCode::from(complain(ToolFault::Words, &mut faults));
    };
    let Ok(words) = args.skip(1).collect::<Vec<String>>(rt.alloc()) else {
        return ExitCode::from(complain(ToolFault::Run(RunFault::Memory), &mut faults));
    };
    if let Some(text) = told_of_itself(words.as_slice()) {
        let _ = rt.stdout().write_all(text.as_bytes());
        return ExitCode::from(0);
    }
    let Ok(call) = Call::of(rt.alloc(), words.as_slice()) else {
        return ExitCode::from(complain(ToolFault::Run(RunFault::Memory), &mut faults));
    };
    let status = match call.script {
        None => run(
            &rt,
            rt.alloc(),
            &call,
            &mut rt.stdin(),
            &mut rt.stdout(),
            &mut faults,
        ),
        Some(name) => match File::open(&rt, name) {
            Ok(mut file) => run(
                &rt,
                rt.alloc(),
                &call,
                &mut file,
                &mut rt.stdout(),
                &mut faults,
            ),
            Err(_) => cannot_read(name, &mut faults),
        },
    };
    if status == 2 {
        let _ = put_usage(&call, &mut faults);
    }
    ExitCode::from(status)
}

/// What the program says of itself, if a word asks for it.
fn told_of_itself(words: &[String]) -> Option<&'static str> {
    for word in words {
        match word.as_str() {
            "--help" => return Some(USAGE),
            "--version" => return Some(VERSION),
            _ => {},
        }
    }
    None
}

/// Says that a file cannot be read, and answers the status.
fn cannot_read<E: Write>(name: &str, faults: &mut E) -> u8 {
    let _ = writeln!(faults, "gltool: {name}: cannot be read");
    1
}

/// Says which word is bad, and how the program is called.
fn put_usage<E: Write>(call: &Call<'_>, faults: &mut E) -> io::Result<()> {
    match call.first_bad() {
        Some(word) => writeln!(
            faults,
            "unknown, or not a value of the word before it, or without its value: {word}"
        )?,
        None => faults.write_all(
            b"these words do not go together (--crew needs --rounds, and neither a script nor other words), or one is there \
twice, or there was no memory for them\n",
        )?,
    }
    faults.write_all(USAGE.as_bytes())
}

/// Does what the words ask for.
fn run<H: Threads + Wait + Sync, R: Read, W: Write, E: Write>(
    rt: &H,
    alloc: Global,
    call: &Call<'_>,
    reader: &mut R,
    writer: &mut W,
    faults: &mut E,
) -> u8 {
    if call.is_of_crew() && (call.script.is_some() || !call.wishes.is_none()) {
        return complain(ToolFault::Words, faults);
    }
    if call.wishes.is_none() {
        return program(rt, alloc, call.rest.as_slice(), reader, writer, faults);
    }
    let Ok(script) = read_all(alloc, reader) else {
        return complain(ToolFault::Run(RunFault::Read), faults);
    };
    let mut report: Vec<u8> = Vec::new(alloc);
    let mut left = script.as_slice();
    let status = program(
        rt,
        alloc,
        call.rest.as_slice(),
        &mut left,
        &mut report,
        faults,
    );
    let lines = Lines {
        listings: call.has("--listings"),
        schema: call.has("--schema"),
        savepoints: call.has("--savepoints"),
        trace: call.has("--trace"),
    };
    let (mut answers, mut reasons): (Vec<u8>, Vec<u8>) = (Vec::new(alloc), Vec::new(alloc));
    let Ok(ends_early) = annotate(
        script.as_slice(),
        report.as_slice(),
        call.wishes,
        lines,
        &mut answers,
        &mut reasons,
    ) else {
        return complain(ToolFault::Run(RunFault::Memory), faults);
    };
    let _ = faults.write_all(reasons.as_slice());
    if writer.write_all(answers.as_slice()).is_err() {
        return complain(ToolFault::Run(RunFault::Write), faults);
    }
    if ends_early { 3 } else { status }
}

/// Reads all bytes, up to one more than a script may have.
fn read_all<R: Read>(alloc: Global, reader: &mut R) -> io::Result<Vec<u8>> {
    let mut all: Vec<u8> = Vec::new(alloc);
    reader.take(TOO_MANY).read_to_end(&mut all)?;
    Ok(all)
}
