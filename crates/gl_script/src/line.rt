//! A line.

ghost use Rattle.std.specs.Prelude.{◌≤◌, IfSome, IfNone, length};
ghost use Rattle.gl_script.specs.Grammar.{Says, LineSaysOneCommand, Line as TheLine};
ghost use Rattle.gl_script.specs.Views.{line_of};

use crate::fields::Fields;
use crate::form::{Form, Language, Lists, read_command};
use crate::listing::{Listing, read_listing};
use crate::topic::read_topic;
use crate::verb::read_verb;

/// The meaning of a line.
#[derive(Drop)]
pub enum Line {
    /// A command or a question.
    Order(Form),
    /// A listing.
    List(Listing),
}

/// The meaning of a line of at most 256 bytes in the language, if it has one. The parents, bounds and
/// keys of its command then replace the contents of `lists`.
pub fn parse(language: Language, line: &[u8], lists: &mut Lists) -> Option<Line>
    requires short { length line.now ≤ 256 }
    ensures says { IfSome result (λ said. Says language line.now (line_of said lists.new)) }
    ensures none { IfNone result ((l : TheLine) → Says language line.now l → ⊥) }
{
    let mut fields = Fields::of(line);
    let first = fields.next()?;
    match read_verb(first) {
        Some(verb) => Some(Line::Order(read_command(language, verb, &mut fields, lists)?)),
        None => {
            let topic = read_topic(first)?;
            Some(Line::List(read_listing(language.listings, topic, &mut fields)?))
        }
    }
}

/// A line has at most one meaning.
pub fn one_command()
    ensures { LineSaysOneCommand }
{}
