//! The interpreter, which answers the lines of a script one by one.

ghost use Rattle.std.specs.Prelude.{◌≡◌, IfSome};
ghost use Rattle.gl_script.specs.Views.{command_of};
ghost use Rattle.gl_interpreter.specs.Report.{version_of};
ghost use Rattle.gl_interpreter.specs.SoFar.{Answered, CarriesOut, IsFresh, Obeys};

use crate::answers::{put_notices, put_said};
use crate::desk::{Desk, Ids};
use crate::listings::put_listing;
use crate::sink::{Sink, put};
use arrayvec::ArrayVec;
use gl_catalog::Manager;
use gl_options::Choices;
use gl_script::{Form, Language, Line, Lists, Version, parse};
use gl_table::Told;
use std::alloc::Global;
use std::io::Write;

/// The longest line that can be a command, in bytes.
const LONGEST: usize = 256;

/// The first line of a script of version 2.
const VERSION_TWO: &[u8] = b"granular 2";

/// The output for a line that is no command.
const BAD_LINE: &[u8] = b"no 20 BadLine\n";

/// A script that is being answered. Each line fills the lists anew.
#[derive(Drop)]
pub(crate) struct Interpreter {
    pub(crate) desk: Desk,
    /// The manager for a script of version 2, until the first line has chosen.
    two: Option<Manager>,
    lists: Lists,
    ids: Ids,
    records: Ids,
    told: Told,
}

impl Interpreter {
    /// A script before its first line. `None` if out of memory.
    pub(crate) fn new(alloc: Global, choices: Choices) -> Option<Interpreter>
        ensures { IfSome result (λ interpreter. IsFresh choices interpreter) }
    {
        let Choices {
            detect,
            victims,
            listings,
            schema,
            savepoints,
            trace,
        } = choices;
        let language = Language {
            version: Version::One,
            listings,
            schema,
            savepoints,
            trace,
        };
        let Ok(one) = Manager::choosing(alloc, detect, victims, 64) else {
            return None;
        };
        let Ok(two) = Manager::choosing(alloc, detect, victims, 128) else {
            return None;
        };
        one.law(); // Its lists are empty.
        two.law();
        Some(Interpreter {
            desk: Desk::new(alloc, language, one),
            two: Some(two),
            lists: Lists::new(),
            ids: ArrayVec::new(),
            records: ArrayVec::new(),
            told: Told::new(),
        })
    }

    /// Answers a line. Of a longer line the first 257 bytes are enough.
    pub(crate) fn answer<W: Write>(&mut self, sink: &mut Sink, writer: &mut W, line: &[u8])
        ensures { Answered (W.contents writer.old) sink.old self.old line.now (W.contents writer.new) sink.new self.new }
    {
        if self.two.is_none() {
            self.carry_out(sink, writer, line);
        } else {
            self.answer_first(sink, writer, line);
        }
    }

    /// Answers the first line, which chooses the version.
    fn answer_first<W: Write>(&mut self, sink: &mut Sink, writer: &mut W, line: &[u8])
        ensures { Answered (W.contents writer.old) sink.old self.old line.now (W.contents writer.new) sink.new self.new }
    {
        match (self.two.take(), chosen_version(line)) {
            (Some(manager), Some(version)) => {
                self.desk.begin_version(version, manager);
                put(sink, writer, b"ok\n");
            }
            _ => self.carry_out(sink, writer, line),
        }
    }

    /// Answers a line of a script whose version is known.
    fn carry_out<W: Write>(&mut self, sink: &mut Sink, writer: &mut W, line: &[u8])
        ensures { CarriesOut (W.contents writer.old) sink.old self.old line.now (W.contents writer.new) sink.new self.new }
    {
        if line.len() > LONGEST {
            put(sink, writer, BAD_LINE);
            return;
        }
        if line.is_empty() || line[0] == b'#' {
            return;
        }
        self.lists.nodes.clear(); // The nodes of an earlier line are not looked up again.
        self.lists.records.clear();
        match parse(self.desk.language, line, &mut self.lists) {
            None => put(sink, writer, BAD_LINE),
            Some(line) => match line {
                Line::Order(form) => self.obey(sink, writer, &form),
                Line::List(listing) => put_listing(sink, writer, &self.desk, &listing),
            },
        }
    }

    /// Carries out the command of a line. A separate function, so that a bad line does not pay for its
    /// stack.
    #[inline(never)]
    fn obey<W: Write>(&mut self, sink: &mut Sink, writer: &mut W, form: &Form)
        ensures { Obeys (W.contents writer.old) sink.old self.old (command_of form.now self.old.lists) (W.contents writer.new) sink.new self.new }
    {
        self.told.clear();
        let said = self.desk.serve(
            form,
            &self.lists,
            &mut self.ids,
            &mut self.records,
            &mut self.told,
        );
        put_said(sink, writer, &self.desk, form, &self.lists, said);
        put_notices(sink, writer, &self.desk, self.told.as_slice());
    }
}

/// The version that a first line chooses, if it chooses one.
fn chosen_version(line: &[u8]) -> Option<Version>
    ensures { result ≡ version_of line.now }
{
    if line == VERSION_TWO {
        Some(Version::Two)
    } else {
        None
    }
}
