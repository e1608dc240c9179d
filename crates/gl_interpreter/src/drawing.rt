//! A picture of the final state of a script, as text for Graphviz.

ghost use Rattle.std.specs.Prelude.{◌≡◌, ◌≢◌, ◌≤◌, IfErr, OnOk, map};
ghost use Rattle.std.specs.Io.KnownBytes.{IsAtEnd};
ghost use Rattle.gl_interpreter.specs.Picture.{AsksForPicture, DrawsWithin, behind_part, behind_shown, status_of};
ghost use Rattle.gl_interpreter.specs.Report.{ReadsWithin};

use crate::answers::{put_number, put_place};
use crate::desk::Desk;
use crate::script::{RunFault, answer_script, new_block, new_tool};
use crate::sink::{Sink, flush, new_sink, put, send};
use arrayvec::ArrayString;
use gl_graph::Kind;
use gl_modes::{Mode, NodeId, sup};
use gl_options::{Asked, Choices, asked};
use gl_slots::Slots;
use gl_table::{Status, TxnId};
use gl_waits::{SLOTS, on_cycle};
use std::alloc::Global;
use std::convert::AsStr;
use std::fmt::Write as FormatWrite;
use std::io;
use std::io::{Read, Write};
use thiserror::Error as FaultText;

/// The most intervals of an index: one more than bounds.
const MOST_INTERVALS: usize = 257;

/// What a picture shows.
#[derive(Clone, Copy, Debug, PartialEq, Eq)]
pub struct Shown {
    pub part: Part,
    /// Nodes that nobody holds or waits for are left out.
    pub held_alone: bool,
}

/// Which part of a state a picture shows.
#[derive(Clone, Copy, Debug, PartialEq, Eq)]
pub enum Part {
    /// The lock graph and the transactions.
    All,
    /// The lock graph alone: each node with its holders and its queue.
    Graph,
    /// The transactions alone, and who waits for whom.
    Waits,
}

/// Why no picture was drawn.
#[derive(Clone, Copy, Debug, PartialEq, Eq, FaultText)]
pub enum PictureFault {
    /// The script's run met a fault, or the picture could not be written.
    #[error("{0}")]
    Run(RunFault),
    /// The words ask for no picture.
    #[error("bad words")]
    Words,
}

/// Draws the final state of the script that `reader` gives. The words are those of a script, after an
/// optional `--graph` or `--waits` and then an optional `--held`. They may include `--listings`, which
/// changes no picture: neither a listing nor a bad line changes the state. They may include `--schema`,
/// `--savepoints` and `--trace`: what was dropped, released or forgotten is then not drawn. Returns the
/// exit status: 0 at the end, 1 after a fault, 2 for words that ask for no picture. If it is not 0, one
/// line that says why was written to `faults`.
pub fn draw_script<S: AsStr, R: Read, W: Write, E: Write>(
    alloc: Global,
    words: &[S],
    reader: &mut R,
    writer: &mut W,
    faults: &mut E,
) -> u8
    ensures drawn { result ≡ 0 → AsksForPicture (map S.text words.now) × IsAtEnd (R.remaining reader.new) }
    ensures fault { result ≡ 1 → AsksForPicture (map S.text words.now) }
    ensures bad_words { result ≡ 2 → (R.remaining reader.new ≡ R.remaining reader.old) × (W.contents writer.new ≡ W.contents writer.old) }
    ensures limit { DrawsWithin (R.remaining reader.old) (R.remaining reader.new) result }
    ensures bound { result ≤ 2 }
{
    let (shown, rest) = shown_by(words);
    let Some(Asked::Script(choices)) = asked(alloc, rest) else {
        return complain_of_picture(PictureFault::Words, faults);
    };
    match picture(alloc, reader, writer, choices, shown) {
        Ok(()) => 0,
        Err(fault) => complain_of_picture(PictureFault::Run(fault), faults),
    }
}

/// Writes to the given stream why no picture was drawn, and returns the status. A fault of that write
/// changes nothing.
pub fn complain_of_picture<E: Write>(fault: PictureFault, faults: &mut E) -> u8
    ensures { result ≡ status_of fault }
{
    let mut line = ArrayString::<64>::new();
    let _ = writeln!(line, "glpicture: {fault}");
    send(faults, line.as_bytes());
    match fault {
        PictureFault::Words => 2,
        PictureFault::Run(_) => 1,
    }
}

/// What the first words ask for, and the words after them.
fn shown_by<S: AsStr>(words: &[S]) -> (Shown, &[S])
    ensures { map S.text result.1.now ≡ behind_shown (map S.text words.now) }
{
    let (part, rest) = part_by(words);
    let held_alone = matches!(rest.first(), Some(word) if word.as_str() == "--held");
    let rest = if held_alone { &rest[1..] } else { rest };
    (Shown { part, held_alone }, rest)
}

/// Which part the first word asks for, and the words after it.
fn part_by<S: AsStr>(words: &[S]) -> (Part, &[S])
    ensures { map S.text result.1.now ≡ behind_part (map S.text words.now) }
{
    match words.first() {
        Some(word) if word.as_str() == "--graph" => (Part::Graph, &words[1..]),
        Some(word) if word.as_str() == "--waits" => (Part::Waits, &words[1..]),
        _ => (Part::All, words),
    }
}

/// Runs a script without writing its answers, and then draws its final state as a graph for Graphviz:
/// the lock graph, each node with its holders and its queue, and the transactions, each with an arrow
/// to each for which it waits; arrows on a cycle are red.
///
/// # Errors
///
/// As `run`: nothing is drawn if the script does not end, and after any fault except that of a write
/// nothing was written.
pub fn picture<R: Read, W: Write>(
    alloc: Global,
    reader: &mut R,
    writer: &mut W,
    choices: Choices,
    shown: Shown,
) -> Result<(), RunFault>
    ensures whole { OnOk result (IsAtEnd (R.remaining reader.new)) }
    ensures limit { ReadsWithin (R.remaining reader.old) (R.remaining reader.new) result }
    ensures undrawn { IfErr result (λ fault. fault ≢ RunFault.Write → W.contents writer.new ≡ W.contents writer.old) }
{
    let Some(mut block) = new_block(alloc) else {
        return Err(RunFault::Memory);
    };
    let Some(mut tool) = new_tool(alloc, choices) else {
        return Err(RunFault::Memory);
    };
    match answer_script(&mut tool, reader, &mut io::sink(), &mut block) {
        Ok(()) => {}
        Err(fault) => return Err(fault),
    }
    let mut sink = new_sink();
    draw(&mut sink, writer, &tool.interpreter.desk, shown);
    flush(&mut sink, writer);
    if sink.broken {
        Err(RunFault::Write)
    } else {
        Ok(())
    }
}

/// Draws a state.
fn draw<W: Write>(sink: &mut Sink, writer: &mut W, desk: &Desk, shown: Shown) {
    put(sink, writer, b"digraph locks {\n");
    if shown.part != Part::Waits {
        draw_nodes(sink, writer, desk, shown);
    }
    if shown.part != Part::Graph {
        draw_txns(sink, writer, desk);
    }
    put(sink, writer, b"}\n");
}

/// Draws the lock graph.
fn draw_nodes<W: Write>(sink: &mut Sink, writer: &mut W, desk: &Desk, shown: Shown) {
    put(
        sink,
        writer,
        b"  node [shape=box, style=filled, fillcolor=white];\n",
    );
    for place in 0..desk.node_count() {
        if let Some(node) = desk.node_at(place) {
            draw_node(sink, writer, desk, node, shown);
            draw_intervals(sink, writer, desk, node, shown);
        }
    }
}

/// Draws the intervals of a node, if it is an index.
fn draw_intervals<W: Write>(
    sink: &mut Sink,
    writer: &mut W,
    desk: &Desk,
    index: NodeId,
    shown: Shown,
) {
    for place in 0..MOST_INTERVALS {
        match desk.manager.graph().interval(index, place) {
            Some(interval) => draw_node(sink, writer, desk, interval, shown),
            None => return,
        }
    }
}

/// Draws a node, if it is to be drawn, and the arrows to it from its parents.
fn draw_node<W: Write>(sink: &mut Sink, writer: &mut W, desk: &Desk, node: NodeId, shown: Shown) {
    if !is_drawn(desk, node, shown) {
        return;
    }
    put(sink, writer, b"  ");
    put_node(sink, writer, node);
    put(sink, writer, b" [label=\"");
    put_node_name(sink, writer, desk, node);
    put_keys(sink, writer, desk, node);
    put_holders(sink, writer, desk, node);
    put_waiters(sink, writer, desk, node);
    put(sink, writer, b"\"");
    put(sink, writer, shape(desk.manager.graph().kind(node)));
    put(sink, writer, colour(group_mode(desk, node)));
    put(sink, writer, b"];\n");
    draw_parents(sink, writer, desk, node, shown);
}

/// Whether a node is drawn: all are, or those alone that somebody holds or waits for.
fn is_drawn(desk: &Desk, node: NodeId, shown: Shown) -> bool {
    !shown.held_alone || !desk.manager.is_idle(node)
}

/// The supremum of the modes in which a node is held.
fn group_mode(desk: &Desk, node: NodeId) -> Mode {
    let Ok(slots) = desk.manager.holders(node) else {
        return Mode::NL;
    };
    let mut group = Mode::NL;
    for slot in slots.iter() {
        group = sup(group, desk.manager.mode_at(slot, node));
    }
    group
}

/// The shape of a kind of nodes; inner nodes have the usual one, a box.
fn shape(kind: Option<Kind>) -> &'static [u8] {
    match kind {
        Some(Kind::File) => b", shape=folder",
        Some(Kind::Index) => b", shape=tab",
        Some(Kind::Interval) => b", style=\"rounded,filled\"",
        Some(Kind::Rec) => b", shape=note",
        Some(Kind::Inner) | None => b"",
    }
}

/// The colour of a node that is held in this group mode.
fn colour(group: Mode) -> &'static [u8] {
    match group {
        Mode::NL => b"",
        Mode::IS => b", fillcolor=\"#cfe3f7\"",
        Mode::IX => b", fillcolor=\"#f6dcb4\"",
        Mode::S => b", fillcolor=\"#7fb2e5\"",
        Mode::SIX => b", fillcolor=\"#c9a3dc\"",
        Mode::X => b", fillcolor=\"#e0803c\"",
    }
}

/// Draws the arrows to a node from its parents.
fn draw_parents<W: Write>(
    sink: &mut Sink,
    writer: &mut W,
    desk: &Desk,
    node: NodeId,
    shown: Shown,
) {
    for parent in desk.manager.graph().parents(node) {
        if is_drawn(desk, *parent, shown) {
            put(sink, writer, b"  ");
            put_node(sink, writer, *parent);
            put(sink, writer, b" -> ");
            put_node(sink, writer, node);
            put(sink, writer, b";\n");
        }
    }
}

/// Prints the id of a node in the picture.
fn put_node<W: Write>(sink: &mut Sink, writer: &mut W, node: NodeId) {
    put(sink, writer, b"n");
    put_number(sink, writer, node.birth);
}

/// Prints the name of a node, or for an interval that of its index, a dot and its place.
fn put_node_name<W: Write>(sink: &mut Sink, writer: &mut W, desk: &Desk, node: NodeId) {
    match desk.place(node) {
        None => put(sink, writer, desk.node_name(node)),
        Some(place) => {
            put(sink, writer, desk.index_name(node));
            put_place(sink, writer, Some(place as u64));
        }
    }
}

/// Prints a line of a label with the keys of an interval, unless it has all keys.
fn put_keys<W: Write>(sink: &mut Sink, writer: &mut W, desk: &Desk, node: NodeId) {
    let graph = desk.manager.graph();
    let (Some(place), Some(index)) = (graph.place(node), graph.parents(node).first()) else {
        return;
    };
    let bounds = graph.bounds(*index);
    let low = if place > 0 {
        bounds.get(place - 1)
    } else {
        None
    };
    match (low, bounds.get(place)) {
        (Some(low), Some(high)) => {
            put(sink, writer, b"\\n[");
            put_number(sink, writer, *low);
            put(sink, writer, b",");
            put_number(sink, writer, *high);
            put(sink, writer, b")");
        }
        (Some(low), None) => {
            put(sink, writer, b"\\nfrom ");
            put_number(sink, writer, *low);
        }
        (None, Some(high)) => {
            put(sink, writer, b"\\nbelow ");
            put_number(sink, writer, *high);
        }
        (None, None) => {}
    }
}

/// Prints a line of a label for each holder of a node.
fn put_holders<W: Write>(sink: &mut Sink, writer: &mut W, desk: &Desk, node: NodeId) {
    let Ok(slots) = desk.manager.holders(node) else {
        return;
    };
    for slot in slots.iter() {
        put(sink, writer, b"\\n");
        put_claim(sink, writer, desk, slot, desk.manager.mode_at(slot, node));
    }
}

/// Prints a line of a label for each waiter of a node, in the order of the queue.
fn put_waiters<W: Write>(sink: &mut Sink, writer: &mut W, desk: &Desk, node: NodeId) {
    let Ok(queue) = desk.manager.queue(node) else {
        return;
    };
    for (slot, wanted) in queue {
        put(sink, writer, b"\\nwaits: ");
        put_claim(sink, writer, desk, *slot, *wanted);
    }
}

/// Prints a holder or waiter of a node, and its mode.
fn put_claim<W: Write>(sink: &mut Sink, writer: &mut W, desk: &Desk, slot: u8, mode: Mode) {
    put(sink, writer, desk.name_at(slot));
    put(sink, writer, b" ");
    put(sink, writer, mode.text().as_bytes());
}

/// Draws the transactions, and who waits for whom.
fn draw_txns<W: Write>(sink: &mut Sink, writer: &mut W, desk: &Desk) {
    put(sink, writer, b"  node [shape=ellipse, style=solid];\n");
    desk.manager.law(); // No slot is past 127.
    for slot in 0..desk.manager.most() {
        if let Some((txn, status)) = desk.manager.living(slot as u8) {
            draw_txn(sink, writer, desk, txn, status);
            draw_waits(sink, writer, desk, txn, status);
        }
    }
}

/// Draws a transaction; one that is condemned is grey.
fn draw_txn<W: Write>(sink: &mut Sink, writer: &mut W, desk: &Desk, txn: TxnId, status: Status) {
    put(sink, writer, b"  ");
    put_slot(sink, writer, txn.slot);
    put(sink, writer, b" [label=\"");
    put(sink, writer, desk.txn_name(txn));
    put(sink, writer, b"\\nage ");
    put_number(sink, writer, txn.age);
    if status == Status::Condemned {
        put(
            sink,
            writer,
            b"\\ncondemned\", style=filled, fillcolor=lightgrey];\n",
        );
    } else {
        put(sink, writer, b"\"];\n");
    }
}

/// Draws an arrow from a transaction to each for which it waits.
fn draw_waits<W: Write>(sink: &mut Sink, writer: &mut W, desk: &Desk, txn: TxnId, status: Status) {
    let (Status::Waiting { node, wanted }, Ok(slots)) = (status, desk.manager.waits_for(txn)) else {
        return;
    };
    let at = (txn.slot as usize).min(SLOTS - 1); // A living transaction has a lower slot.
    let cycle = Slots::from_bits(on_cycle(&desk.manager.board(), at));
    for slot in slots.iter() {
        put(sink, writer, b"  ");
        put_slot(sink, writer, txn.slot);
        put(sink, writer, b" -> ");
        put_slot(sink, writer, slot);
        put(sink, writer, b" [label=\"");
        put(sink, writer, wanted.text().as_bytes());
        put(sink, writer, b" ");
        put_node_name(sink, writer, desk, node);
        put_end(sink, writer, cycle.contains(slot));
    }
}

/// Prints the end of an arrow's line.
fn put_end<W: Write>(sink: &mut Sink, writer: &mut W, is_on_cycle: bool) {
    if is_on_cycle {
        put(sink, writer, b"\", color=red, fontcolor=red];\n");
    } else {
        put(sink, writer, b"\"];\n");
    }
}

/// Prints the id in the picture of the transaction in a slot.
fn put_slot<W: Write>(sink: &mut Sink, writer: &mut W, slot: u8) {
    put(sink, writer, b"t");
    put_number(sink, writer, slot as u64);
}
