//! Text that is buffered for a writer.

ghost use Rattle.std.specs.Prelude.{◌≡◌, [], ◌++◌, true, false};
ghost use Rattle.gl_interpreter.specs.Held.{Sends, Hands};

use arrayvec::ArrayVec;
use std::io::Write;

/// Text for a writer. After a failed write, the rest is discarded.
#[derive(Drop)]
pub struct Sink {
    pub held: ArrayVec<u8, 4096>,
    pub broken: bool,
}

/// An empty sink.
pub fn new_sink() -> Sink
    ensures empty { result.held.items ≡ [] }
    ensures whole { result.broken ≡ false }
{
    Sink {
        held: ArrayVec::new(),
        broken: false,
    }
}

/// Writes text through the buffer.
pub fn put<W: Write>(sink: &mut Sink, writer: &mut W, text: &[u8])
    ensures { Hands (W.contents writer.old) sink.old (W.contents writer.new) sink.new text.now }
{
    if sink.held.try_extend_from_slice(text).is_err() {
        put_by_bytes(sink, writer, text);
    }
}

/// Writes text for which the buffer has no room left.
#[cold]
fn put_by_bytes<W: Write>(sink: &mut Sink, writer: &mut W, text: &[u8])
    ensures { Hands (W.contents writer.old) sink.old (W.contents writer.new) sink.new text.now }
{
    for byte in text {
        if sink.held.is_full() {
            flush(sink, writer);
        }
        sink.held.push(*byte);
    }
}

/// Writes what is buffered.
pub fn flush<W: Write>(sink: &mut Sink, writer: &mut W)
    ensures text { Hands (W.contents writer.old) sink.old (W.contents writer.new) sink.new [] }
    ensures empty { sink.new.held.items ≡ [] }
{
    if !sink.broken {
        sink.broken = !send(writer, sink.held.as_slice());
    }
    sink.held.clear();
}

/// Writes all of the text, and returns whether it did. A write is never retried: an interrupted one is
/// a fault, and so is one that writes nothing.
pub fn send<W: Write>(writer: &mut W, text: &[u8]) -> bool
    ensures { Sends (W.contents writer.old) (W.contents writer.new) text.now result }
{
    let mut at = 0;
    while at < text.len() {
        match writer.write(&text[at..]) {
            Ok(0) => return false,
            Ok(count) => at += count,
            Err(_) => return false,
        }
    }
    true
}
