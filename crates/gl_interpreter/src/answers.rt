//! The output for a command: the line of its answer, and one for each transaction that is told.

ghost use Rattle.std.specs.Prelude.{◌≡◌, ◌∷◌, ◌++◌, [], codes, decimal, flat_map, is_none};
ghost use Rattle.gl_modes.specs.Modes.{mode_text};
ghost use Rattle.gl_modes.specs.Refusals.{refusal_name, refusal_number};
ghost use Rattle.gl_script.specs.Grammar.{Plain};
ghost use Rattle.gl_script.specs.declared.form.Lists.{Lists as TheLists};
ghost use Rattle.gl_script.specs.Views.{command_of, node_of, nodes_of};
ghost use Rattle.gl_interpreter.specs.Held.{Hands};
ghost use Rattle.gl_interpreter.specs.Printed.{
  answer_line,
  called,
  declared_text,
  effect_text,
  first_unused,
  notice_text,
  place_text,
  refusal_line,
  said_line,
  some_unused,
  told_line,
  used_nodes,
  used_txn,
  who_text,
};
ghost use Rattle.gl_interpreter.specs.Script.{does_to_names, node_named};
ghost use Rattle.gl_interpreter.specs.Views.{script_of};

use crate::desk::Desk;
use crate::request::Said;
use crate::sink::{Sink, put};
use gl_catalog::{Answer, Escalated};
use gl_modes::{NodeId, Refusal};
use gl_script::{Form, Lists, Name, NumberVerb, Used};
use gl_table::{Effect, Notice, TxnId};
use itoa::Buffer;
use std::io::Write;

/// Prints the lines of notices, by rising slot. The desk must be in its state after the command.
pub(crate) fn put_notices<W: Write>(
    sink: &mut Sink,
    writer: &mut W,
    desk: &Desk,
    told: &[(TxnId, Notice)],
)
    ensures { Hands (W.contents writer.old) sink.old (W.contents writer.new) sink.new (flat_map (told_line (script_of desk.now)) told.now) }
{
    for (txn, notice) in told {
        put_told(sink, writer, desk, *txn, *notice);
    }
}

/// Prints the line of the answer. The desk must be in its state after the command.
pub(crate) fn put_said<W: Write>(
    sink: &mut Sink,
    writer: &mut W,
    desk: &Desk,
    form: &Form,
    lists: &Lists,
    said: Said,
)
    ensures { Hands (W.contents writer.old) sink.old (W.contents writer.new) sink.new
        (said_line (script_of desk.now) (command_of form.now lists.now) said) }
{
    match said {
        Said::Answer(answer) => put_answer(sink, writer, desk, form, lists, answer),
        Said::Count(count) => put_count(sink, writer, count),
    }
}

/// Prints `ok` and a count.
fn put_count<W: Write>(sink: &mut Sink, writer: &mut W, count: usize)
    ensures { Hands (W.contents writer.old) sink.old (W.contents writer.new) sink.new (codes "ok " ++ decimal count ++ 10 ∷ []) }
{
    put(sink, writer, b"ok ");
    put_number(sink, writer, count as u64);
    put(sink, writer, b"\n");
}

/// Prints the line of an answer of the manager.
fn put_answer<W: Write>(
    sink: &mut Sink,
    writer: &mut W,
    desk: &Desk,
    form: &Form,
    lists: &Lists,
    answer: Answer,
)
    ensures { Hands (W.contents writer.old) sink.old (W.contents writer.new) sink.new
        (answer_line (script_of desk.now) (command_of form.now lists.now) answer) }
{
    match answer {
        Answer::Done | Answer::Node(_) | Answer::Begun(_) => put(sink, writer, b"ok\n"),
        Answer::Granted(mode) | Answer::Mode(mode) => put_ok(sink, writer, mode.text()),
        Answer::Waiting => put(sink, writer, b"wait\n"),
        Answer::Victim => put(sink, writer, b"victim\n"),
        Answer::Escalated(escalated) => put_escalated(sink, writer, escalated),
        Answer::Effect(effect) => put_ok(sink, writer, effect_name(effect)),
        Answer::Refused(refusal) => put_refusal(sink, writer, desk, form, lists, refusal),
    }
}

/// Prints `ok` and a word.
fn put_ok<W: Write>(sink: &mut Sink, writer: &mut W, word: &str)
    ensures { Hands (W.contents writer.old) sink.old (W.contents writer.new) sink.new (codes "ok " ++ word.now ++ 10 ∷ []) }
{
    put(sink, writer, b"ok ");
    put(sink, writer, word.as_bytes());
    put(sink, writer, b"\n");
}

/// The text of an effective mode.
fn effect_name(effect: Effect) -> &'static str
    ensures { result.now ≡ effect_text effect }
{
    match effect {
        Effect::None => "none",
        Effect::S => "S",
        Effect::X => "X",
    }
}

/// Prints what an escalation did.
fn put_escalated<W: Write>(sink: &mut Sink, writer: &mut W, escalated: Escalated)
    ensures { Hands (W.contents writer.old) sink.old (W.contents writer.new) sink.new
        (codes "ok " ++ mode_text escalated.mode ++ codes " released " ++ decimal escalated.released ++ codes " kept " ++ decimal escalated.kept ++ 10 ∷ []) }
{
    put(sink, writer, b"ok ");
    put(sink, writer, escalated.mode.text().as_bytes());
    put(sink, writer, b" released ");
    put_number(sink, writer, escalated.released as u64);
    put(sink, writer, b" kept ");
    put_number(sink, writer, escalated.kept as u64);
    put(sink, writer, b"\n");
}

/// Prints the line of a refusal.
fn put_refusal<W: Write>(
    sink: &mut Sink,
    writer: &mut W,
    desk: &Desk,
    form: &Form,
    lists: &Lists,
    refusal: Refusal,
)
    ensures { Hands (W.contents writer.old) sink.old (W.contents writer.new) sink.new
        (refusal_line refusal (who_text (script_of desk.now) (command_of form.now lists.now) refusal)) }
{
    put_no(sink, writer, refusal);
    put_who(sink, writer, desk, form, lists, refusal);
    put(sink, writer, b"\n");
}

/// Prints the refusal of a node's listing; with the node, if its name is not in use.
pub(crate) fn put_no_node<W: Write>(
    sink: &mut Sink,
    writer: &mut W,
    desk: &Desk,
    node: &Used,
    refusal: Refusal,
)
    ensures { Hands (W.contents writer.old) sink.old (W.contents writer.new) sink.new
        (refusal_line refusal (first_unused (script_of desk.now) (node_of node.now ∷ []))) }
{
    put_no(sink, writer, refusal);
    put_unused(sink, writer, desk, node);
    put(sink, writer, b"\n");
}

/// Prints the refusal of a transaction's listing.
pub(crate) fn put_no_txn<W: Write>(sink: &mut Sink, writer: &mut W, name: &Name, refusal: Refusal)
    ensures { Hands (W.contents writer.old) sink.old (W.contents writer.new) sink.new (refusal_line refusal (32 ∷ name.now.items)) }
{
    put_no(sink, writer, refusal);
    put_name(sink, writer, name.as_slice());
    put(sink, writer, b"\n");
}

/// Prints `no`, with the number and the name of a refusal.
fn put_no<W: Write>(sink: &mut Sink, writer: &mut W, refusal: Refusal)
    ensures { Hands (W.contents writer.old) sink.old (W.contents writer.new) sink.new
        (codes "no " ++ decimal (refusal_number refusal) ++ 32 ∷ [] ++ refusal_name refusal) }
{
    put(sink, writer, b"no ");
    put_number(sink, writer, refusal.number() as u64);
    put(sink, writer, b" ");
    put(sink, writer, refusal.name().as_bytes());
}

/// Prints a space and what a refusal names, if anything.
fn put_who<W: Write>(
    sink: &mut Sink,
    writer: &mut W,
    desk: &Desk,
    form: &Form,
    lists: &Lists,
    refusal: Refusal,
)
    ensures { Hands (W.contents writer.old) sink.old (W.contents writer.new) sink.new (who_text (script_of desk.now) (command_of form.now lists.now) refusal) }
{
    match refusal {
        Refusal::NoSuchNode => put_first_unused(sink, writer, desk, form, lists),
        Refusal::NoSuchTxn => put_name(sink, writer, txn_name(form)),
        Refusal::NameTaken => put_name(sink, writer, declared_name(form)),
        Refusal::NeedParents { node } => put_called(sink, writer, desk, node),
        Refusal::HeldChild { node } => put_called(sink, writer, desk, node),
        Refusal::Cycle { node } => put_called(sink, writer, desk, node),
        _ => {}
    }
}

/// The name of the transaction that a line uses, empty if it uses none.
fn txn_name(form: &Form) -> &[u8]
    ensures { (lists : TheLists) → result.now ≡ used_txn (command_of form.entry.now lists) }
{
    match form {
        Form::IndexBy { txn, .. } => txn.as_slice(),
        Form::IndexOver { txn, .. } => txn.as_slice(),
        Form::Insert { txn, .. } => txn.as_slice(),
        Form::Rekey { txn, .. } => txn.as_slice(),
        Form::Move { txn, .. } => txn.as_slice(),
        Form::Split { txn, .. } => txn.as_slice(),
        Form::Merge { txn, .. } => txn.as_slice(),
        Form::OfTxn { txn, .. } => txn.as_slice(),
        Form::OfLock { txn, .. } => txn.as_slice(),
        Form::OfRequest { txn, .. } => txn.as_slice(),
        Form::OfRemoval { txn, .. } => txn.as_slice(),
        Form::OfNumber { txn, .. } => txn.as_slice(),
        _ => &[],
    }
}

/// The name that a line declares, empty if it declares none.
fn declared_name(form: &Form) -> &[u8]
    ensures { (lists : TheLists) → result.now ≡ declared_text (does_to_names (command_of form.entry.now lists)) }
{
    match form {
        Form::Inner { name } => name.as_slice(),
        Form::File { name } => name.as_slice(),
        Form::Index { name, .. } => name.as_slice(),
        Form::IndexBy { name, .. } => name.as_slice(),
        Form::IndexOver { name, .. } => name.as_slice(),
        Form::Insert { name, .. } => name.as_slice(),
        Form::Adopt { name, .. } => name.as_slice(),
        Form::Begin { txn } => txn.as_slice(),
        Form::BeginAgain { txn, .. } => txn.as_slice(),
        Form::Join { txn, .. } => txn.as_slice(),
        Form::OfNumber {
            verb: NumberVerb::Renew,
            txn,
            ..
        } => txn.as_slice(),
        _ => &[],
    }
}

/// Prints a space, and the first node of a line whose name is not in use.
fn put_first_unused<W: Write>(
    sink: &mut Sink,
    writer: &mut W,
    desk: &Desk,
    form: &Form,
    lists: &Lists,
)
    ensures { Hands (W.contents writer.old) sink.old (W.contents writer.new) sink.new
        (first_unused (script_of desk.now) (used_nodes (command_of form.now lists.now))) }
{
    match form {
        Form::Inner { .. } | Form::File { .. } => {
            put_unused_listed(sink, writer, desk, lists);
        }
        Form::Index { file, .. } => put_unused_of_index(sink, writer, desk, lists, file),
        Form::IndexBy { file, .. } => put_unused_of_index(sink, writer, desk, lists, file),
        Form::IndexOver { file, .. } => put_unused_of_index(sink, writer, desk, lists, file),
        Form::Move { node, .. } => {
            if !put_unused(sink, writer, desk, node) {
                put_unused_listed(sink, writer, desk, lists);
            }
        }
        Form::Rekey { rec, index, .. } => {
            if !put_unused_name(sink, writer, desk, rec) {
                put_unused_name(sink, writer, desk, index);
            }
        }
        Form::Insert { file, .. } => {
            put_unused_name(sink, writer, desk, file);
        }
        Form::Adopt { file, .. } => {
            put_unused_name(sink, writer, desk, file);
        }
        Form::Forget { rec } => {
            put_unused_name(sink, writer, desk, rec);
        }
        Form::OfRemoval { node, .. } => {
            put_unused_name(sink, writer, desk, node);
        }
        Form::Group { node }
        | Form::Split { node, .. }
        | Form::Merge { node, .. }
        | Form::OfLock { node, .. }
        | Form::OfRequest { node, .. } => {
            put_unused(sink, writer, desk, node);
        }
        Form::Begin { .. } => {}
        Form::BeginAgain { .. } => {}
        Form::Join { .. } => {}
        Form::OfTxn { .. } => {}
        Form::OfNumber { .. } => {}
    }
}

/// Prints a space, and the first of an index's parents and its file whose name is not in use.
fn put_unused_of_index<W: Write>(
    sink: &mut Sink,
    writer: &mut W,
    desk: &Desk,
    lists: &Lists,
    file: &Name,
)
    ensures { Hands (W.contents writer.old) sink.old (W.contents writer.new) sink.new
        (first_unused (script_of desk.now) (nodes_of lists.now ++ Plain file.now.items ∷ [])) }
{
    if !put_unused_listed(sink, writer, desk, lists) {
        put_unused_name(sink, writer, desk, file);
    }
}

/// Prints a space, and the first listed node whose name is not in use. Returns whether there is one.
fn put_unused_listed<W: Write>(sink: &mut Sink, writer: &mut W, desk: &Desk, lists: &Lists) -> bool
    ensures text { Hands (W.contents writer.old) sink.old (W.contents writer.new) sink.new (first_unused (script_of desk.now) (nodes_of lists.now)) }
    ensures is { result ≡ some_unused (script_of desk.now) (nodes_of lists.now) }
{
    for node in lists.nodes.as_slice() {
        if put_unused(sink, writer, desk, node) {
            return true;
        }
    }
    false
}

/// Prints a space and a node as the line writes it, if its name is not in use. Returns whether it
/// printed.
fn put_unused<W: Write>(sink: &mut Sink, writer: &mut W, desk: &Desk, node: &Used) -> bool
    ensures text { Hands (W.contents writer.old) sink.old (W.contents writer.new) sink.new (first_unused (script_of desk.now) (node_of node.now ∷ [])) }
    ensures is { result ≡ is_none (node_named (script_of desk.now) (node_of node.now)) }
{
    if desk.find(node).is_some() {
        return false;
    }
    put_name(sink, writer, node.name.as_slice());
    put_place(sink, writer, node.interval);
    true
}

/// Prints a space and a name, if it is not in use. Returns whether it printed.
fn put_unused_name<W: Write>(sink: &mut Sink, writer: &mut W, desk: &Desk, name: &Name) -> bool
    ensures text { Hands (W.contents writer.old) sink.old (W.contents writer.new) sink.new (first_unused (script_of desk.now) (Plain name.now.items ∷ [])) }
    ensures is { result ≡ is_none (node_named (script_of desk.now) (Plain name.now.items)) }
{
    if desk.is_node(name) {
        return false;
    }
    put_name(sink, writer, name.as_slice());
    true
}

/// Prints a space and a name.
fn put_name<W: Write>(sink: &mut Sink, writer: &mut W, name: &[u8])
    ensures { Hands (W.contents writer.old) sink.old (W.contents writer.new) sink.new (32 ∷ name.now) }
{
    put(sink, writer, b" ");
    put(sink, writer, name);
}

/// Prints a dot and the place of an interval, if it is one.
pub(crate) fn put_place<W: Write>(sink: &mut Sink, writer: &mut W, place: Option<u64>)
    ensures { Hands (W.contents writer.old) sink.old (W.contents writer.new) sink.new (place_text place) }
{
    if let Some(place) = place {
        put(sink, writer, b".");
        put_number(sink, writer, place);
    }
}

/// Prints a space and a node: by its name, or as an interval of its index.
pub(crate) fn put_called<W: Write>(sink: &mut Sink, writer: &mut W, desk: &Desk, node: NodeId)
    ensures { Hands (W.contents writer.old) sink.old (W.contents writer.new) sink.new (32 ∷ called (script_of desk.now) node) }
{
    match desk.place(node) {
        None => put_name(sink, writer, desk.node_name(node)),
        Some(place) => {
            put_name(sink, writer, desk.index_name(node));
            put_place(sink, writer, Some(place as u64));
        }
    }
}

/// Prints the line of a notice.
fn put_told<W: Write>(sink: &mut Sink, writer: &mut W, desk: &Desk, txn: TxnId, notice: Notice)
    ensures { Hands (W.contents writer.old) sink.old (W.contents writer.new) sink.new (told_line (script_of desk.now) (txn, notice)) }
{
    put(sink, writer, b"told ");
    put(sink, writer, desk.txn_name(txn));
    put_notice(sink, writer, desk, notice);
    put(sink, writer, b"\n");
}

/// Prints the text of a notice.
fn put_notice<W: Write>(sink: &mut Sink, writer: &mut W, desk: &Desk, notice: Notice)
    ensures { Hands (W.contents writer.old) sink.old (W.contents writer.new) sink.new (notice_text (script_of desk.now) notice) }
{
    match notice {
        Notice::Granted(node, mode) => {
            put(sink, writer, b" granted ");
            put(sink, writer, mode.text().as_bytes());
            put_called(sink, writer, desk, node);
        }
        Notice::Victim => put(sink, writer, b" victim"),
        Notice::Moved => put(sink, writer, b" moved"),
        Notice::Gone => put(sink, writer, b" gone"),
    }
}

/// Prints a number, in decimal and without leading zeros.
pub fn put_number<W: Write>(sink: &mut Sink, writer: &mut W, number: u64)
    ensures { Hands (W.contents writer.old) sink.old (W.contents writer.new) sink.new (decimal number) }
{
    let mut buffer = Buffer::new();
    put(sink, writer, buffer.format(number).as_bytes());
}
