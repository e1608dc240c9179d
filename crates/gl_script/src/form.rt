//! The forms of a line.

ghost use Rattle.std.specs.Prelude.{◌≡◌, ◌≤◌, [], IfSome, IfNone, length};
ghost use Rattle.gl_script.specs.Grammar.{Command, SaysParts};
ghost use Rattle.gl_script.specs.Left.{left};
ghost use Rattle.gl_script.specs.Views.{command_of};
ghost use Rattle.gl_script.specs.declared.verb.Verb.TheVariants.{Begin, Index};
ghost use Rattle.gl_script.specs.declared.form.Lists.{Lists as TheLists};

use crate::fields::Fields;
use crate::reads::{Name, Used, next_name, next_number};
use crate::series::MOST_LISTED;
use crate::shapes::{
    adopt_parts, index_parts, insert_parts, last_number, name_parents, name_some_parents,
    only_name, only_node, over_parts, rekey_parts, split_parts, txn_mode_node, txn_name, txn_node,
    txn_node_parents, txn_number,
};
use crate::verb::{LockVerb, NumberVerb, RemovalVerb, RequestVerb, TxnVerb, Verb, has_verb};
use arrayvec::ArrayVec;
use gl_modes::Mode;

/// The version of a script, which says which commands it may have.
#[derive(Clone, Copy, PartialEq, Eq, Debug)]
pub enum Version {
    /// All except `move`.
    One,
    /// All.
    Two,
}

/// Which lines a script may have.
#[derive(Clone, Copy, PartialEq, Eq, Debug)]
pub struct Language {
    pub version: Version,
    /// Whether it may have listings.
    pub listings: bool,
    /// Whether it may have schema changes: `drop`, `split`, `merge`, and `index` by a transaction.
    pub schema: bool,
    /// Whether it may have savepoints: `mark` and `release`.
    pub savepoints: bool,
    /// Whether it may have what only a trace needs: `adopt`, `forget`, `begin` again and in a slot, and
    /// `renew`.
    pub trace: bool,
}

/// The command of a line, by what follows its verb, without the parents, bounds and keys that the line
/// lists: those are in [`Lists`].
#[derive(Drop)]
pub enum Form {
    /// Make an inner node under these parents.
    Inner {
        name: Name,
    },
    /// Make a file under these parents.
    File {
        name: Name,
    },
    /// Make an index of a file, with these parents and bounds.
    Index {
        name: Name,
        file: Name,
    },
    /// Make an index of a file that may have had records, with these parents and bounds.
    IndexBy {
        txn: Name,
        name: Name,
        file: Name,
    },
    /// Make an index of a file with these parents and bounds, over these records with these keys.
    IndexOver {
        txn: Name,
        name: Name,
        file: Name,
    },
    /// Begin a transaction.
    Begin {
        txn: Name,
    },
    /// Begin a transaction for work that began with the transaction of this age.
    BeginAgain {
        txn: Name,
        since: u64,
    },
    /// Begin a transaction in this slot, with this number for the choice of victims.
    Join {
        txn: Name,
        slot: u64,
        since: u64,
    },
    /// Insert a record into a file, with these keys.
    Insert {
        txn: Name,
        name: Name,
        file: Name,
    },
    /// Make a record of a file that nobody holds, with these keys.
    Adopt {
        name: Name,
        file: Name,
    },
    /// Remove a record that nobody holds or waits for.
    Forget {
        rec: Name,
    },
    /// Give a record another key for one index.
    Rekey {
        txn: Name,
        rec: Name,
        index: Name,
        key: u64,
    },
    /// Give a node other parents.
    Move {
        txn: Name,
        node: Used,
    },
    /// Split an interval of an index at this bound.
    Split {
        txn: Name,
        node: Used,
        at: u64,
    },
    /// Merge an interval of an index with the next one.
    Merge {
        txn: Name,
        node: Used,
    },
    /// The group mode of a node.
    Group {
        node: Used,
    },
    /// Do something to a transaction.
    OfTxn {
        verb: TxnVerb,
        txn: Name,
    },
    /// Do something to the lock of a transaction on a node.
    OfLock {
        verb: LockVerb,
        txn: Name,
        node: Used,
    },
    /// Request a lock.
    OfRequest {
        verb: RequestVerb,
        txn: Name,
        mode: Mode,
        node: Used,
    },
    /// Remove a node.
    OfRemoval {
        verb: RemovalVerb,
        txn: Name,
        node: Name,
    },
    /// Do something with a number: a savepoint or an age.
    OfNumber {
        verb: NumberVerb,
        txn: Name,
        number: u64,
    },
}

/// What a line lists: the parents of a node, the bounds of an index or the keys of a record, and the
/// records that an index is made over with their keys. A line of 256 bytes has at most 257 fields.
#[derive(Drop)]
pub struct Lists {
    pub nodes: ArrayVec<Used, MOST_LISTED>,
    pub numbers: ArrayVec<u64, MOST_LISTED>,
    pub records: ArrayVec<Used, MOST_LISTED>,
    pub keys: ArrayVec<u64, MOST_LISTED>,
}

impl Lists {
    /// Empty lists.
    pub fn new() -> Lists
        ensures nodes { result.nodes.items ≡ [] }
        ensures numbers { result.numbers.items ≡ [] }
        ensures records { result.records.items ≡ [] }
        ensures keys { result.keys.items ≡ [] }
    {
        Lists {
            nodes: ArrayVec::new(),
            numbers: ArrayVec::new(),
            records: ArrayVec::new(),
            keys: ArrayVec::new(),
        }
    }
}

/// The command of a verb and the fields after it, if it is one.
pub(crate) fn read_command(
    language: Language,
    verb: Verb,
    fields: &mut Fields,
    lists: &mut Lists,
) -> Option<Form>
    requires room { length (left fields.old) ≤ 257 }
    ensures says { IfSome result (λ form. SaysParts language verb (left fields.old) (command_of form lists.new)) }
    ensures none { IfNone result ((c : Command) → SaysParts language verb (left fields.old) c → ⊥) }
{
    if !has_verb(language, verb) {
        return None;
    }
    match verb {
        Verb::Inner => name_parents(fields, &mut lists.nodes, |name| Form::Inner { name }),
        Verb::File => name_some_parents(fields, &mut lists.nodes, |name| Form::File { name }),
        Verb::Index => read_index(language, fields, lists),
        Verb::Begin => read_begin(language, fields),
        Verb::Insert => insert_parts(fields, &mut lists.numbers, |txn, name, file| {
            Form::Insert { txn, name, file }
        }),
        Verb::Adopt => adopt_parts(
            fields,
            &mut lists.numbers,
            |name, file| Form::Adopt { name, file },
        ),
        Verb::Forget => only_name(fields, |rec| Form::Forget { rec }),
        Verb::Rekey => rekey_parts(
            fields,
            |txn, rec, index, key| Form::Rekey {
                txn,
                rec,
                index,
                key,
            },
        ),
        Verb::Move => txn_node_parents(
            fields,
            &mut lists.nodes,
            |txn, node| Form::Move { txn, node },
        ),
        Verb::Split => split_parts(fields, |txn, node, at| Form::Split { txn, node, at }),
        Verb::Merge => txn_node(fields, |txn, node| Form::Merge { txn, node }),
        Verb::Group => only_node(fields, |node| Form::Group { node }),
        Verb::OfTxn(verb) => only_name(fields, |txn| Form::OfTxn { verb, txn }),
        Verb::OfLock(verb) => txn_node(fields, |txn, node| Form::OfLock { verb, txn, node }),
        Verb::OfRequest(verb) => txn_mode_node(fields, |txn, mode, node| {
            Form::OfRequest {
                verb,
                txn,
                mode,
                node,
            }
        }),
        Verb::OfRemoval(verb) => txn_name(fields, |txn, node| Form::OfRemoval { verb, txn, node }),
        Verb::OfNumber(verb) => txn_number(fields, |txn, number| {
            Form::OfNumber { verb, txn, number }
        }),
    }
}

/// The form after the word `begin`: a transaction, and in a trace perhaps the word `again` and the
/// number of the transaction that began the work, or the word `join`, a slot and such a number.
fn read_begin(language: Language, fields: &mut Fields) -> Option<Form>
    ensures says { IfSome result (λ form. (lists : TheLists) → SaysParts language Begin (left fields.old) (command_of form lists)) }
    ensures none { IfNone result ((c : Command) → SaysParts language Begin (left fields.old) c → ⊥) }
{
    let txn = next_name(fields)?;
    if fields.is_done() {
        return Some(Form::Begin { txn });
    }
    if !language.trace {
        return None;
    }
    match fields.next()? {
        b"again" => {
            let since = last_number(fields)?;
            Some(Form::BeginAgain { txn, since })
        }
        b"join" => {
            let slot = next_number(fields)?;
            let since = last_number(fields)?;
            Some(Form::Join { txn, slot, since })
        }
        _ => None,
    }
}

/// The form after the word `index`: one name before the colon, or, with schema changes, a transaction
/// and a name, and perhaps records at the end.
fn read_index(language: Language, fields: &mut Fields, lists: &mut Lists) -> Option<Form>
    requires room { length (left fields.old) ≤ 257 }
    ensures says { IfSome result (λ form. SaysParts language Index (left fields.old) (command_of form lists.new)) }
    ensures none { IfNone result ((c : Command) → SaysParts language Index (left fields.old) c → ⊥) }
{
    let first = next_name(fields)?;
    if fields.is_at_colon() {
        let file = index_parts(fields, lists)?;
        return Some(Form::Index { name: first, file });
    }
    if !language.schema {
        return None;
    }
    let name = next_name(fields)?;
    let mut ahead = fields.ahead();
    if let Some(file) = index_parts(&mut ahead, lists) {
        return Some(Form::IndexBy {
            txn: first,
            name,
            file,
        });
    }
    let file = over_parts(fields, lists)?;
    Some(Form::IndexOver {
        txn: first,
        name,
        file,
    })
}
