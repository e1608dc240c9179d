//! Names, nodes and numbers, as a line writes them.

ghost use Rattle.std.specs.Prelude.{◌≡◌, ◌≢◌, ℕ, ◌<◌, ◌^◌, ◌↔◌, ◌∷◌, List, decimal, IfSome, IfNone, IsTrue};
ghost use Rattle.gl_script.specs.Grammar.{Text, IsName, IsNumber, Node, IsNode, node_text};
ghost use Rattle.gl_script.specs.Left.{left};
ghost use Rattle.gl_script.specs.Views.{node_of};
ghost use Rattle.gl_script.specs.Numbers.{IsPlain};

use crate::fields::{Fields, cut};
use arrayvec::ArrayVec;
use std::str;

/// A declared name: 1 to 16 bytes.
pub type Name = ArrayVec<u8, 16>;

/// A node as a line names it: by its own name, or as an interval of an index.
#[derive(Default, Drop)]
pub struct Used {
    /// The name of the node or of the index.
    pub name: Name,
    /// The number of the interval, if it is one.
    pub interval: Option<u64>,
}

/// The name in the next field, if it is one.
pub(crate) fn next_name(fields: &mut Fields) -> Option<Name>
    ensures found { IfSome result (λ name. IsName name.items × (left fields.old ≡ name.items ∷ left fields.new)) }
    ensures none { IfNone result ((n : Text) (more : List Text) → IsName n → left fields.old ≢ n ∷ more) }
{
    read_name(fields.next()?)
}

/// The node in the next field, if it is one.
pub(crate) fn next_node(fields: &mut Fields) -> Option<Used>
    ensures found { IfSome result (λ used. IsNode (node_of used) × (left fields.old ≡ node_text (node_of used) ∷ left fields.new)) }
    ensures none { IfNone result ((n : Node) (more : List Text) → IsNode n → left fields.old ≢ node_text n ∷ more) }
{
    read_used(fields.next()?)
}

/// The number in the next field, if it is one.
pub(crate) fn next_number(fields: &mut Fields) -> Option<u64>
    ensures found { IfSome result (λ number. IsNumber number × (left fields.old ≡ decimal number ∷ left fields.new)) }
    ensures none { IfNone result ((k : ℕ) (more : List Text) → IsNumber k → left fields.old ≢ decimal k ∷ more) }
{
    read_number(fields.next()?)
}

/// The node with this text, if it is one.
pub(crate) fn read_used(text: &[u8]) -> Option<Used>
    ensures found { IfSome result (λ used. IsNode (node_of used) × (text.now ≡ node_text (node_of used))) }
    ensures none { IfNone result ((n : Node) → IsNode n → text.now ≢ node_text n) }
{
    match cut(text, b'.') {
        None => Some(Used {
            name: read_name(text)?,
            interval: None,
        }),
        Some((front, back)) => {
            let name = read_name(front)?;
            let interval = read_number(back)?;
            Some(Used {
                name,
                interval: Some(interval),
            })
        }
    }
}

/// The number with this text, if it is one.
#[tactic(auto, using(crate::proofs::Numbers::plain_unread))]
pub(crate) fn read_number(text: &[u8]) -> Option<u64>
    ensures found { IfSome result (λ n. text.now ≡ decimal n) }
    ensures none { IfNone result ((n : ℕ) → n < 2 ^ 64 → text.now ≢ decimal n) }
{
    if !is_plain(text) {
        return None;
    }
    let Ok(digits) = str::from_utf8(text) else {
        return None;
    };
    match digits.parse::<u64>() {
        Ok(number) => Some(number),
        Err(_) => None,
    }
}

/// Whether the bytes are digits, and the first is no 0 unless it is the only one.
fn is_plain(text: &[u8]) -> bool
    ensures { IsTrue result ↔ IsPlain text.now }
{
    if text.is_empty() {
        return false;
    }
    for byte in text {
        if *byte < b'0' {
            return false;
        }
        if *byte > b'9' {
            return false;
        }
    }
    if text[0] == b'0' {
        return text.len() == 1;
    }
    true
}

/// The name with these bytes, if it is one.
pub(crate) fn read_name(text: &[u8]) -> Option<Name>
    ensures found { IfSome result (λ name. IsName text.now × (name.items ≡ text.now)) }
    ensures none { IfNone result (IsName text.now → ⊥) }
{
    if !is_name(text) {
        return None;
    }
    let mut name = ArrayVec::new();
    for byte in text {
        name.push(*byte);
    }
    Some(name)
}

/// Whether the bytes are a name.
fn is_name(text: &[u8]) -> bool
    ensures { IsTrue result ↔ IsName text.now }
{
    if text.is_empty() || text.len() > 16 {
        return false;
    }
    if !text[0].is_ascii_lowercase() {
        return false;
    }
    for byte in text {
        if !matches!(*byte, b'a'..=b'z' | b'0'..=b'9' | b'_') {
            return false;
        }
    }
    !matches!(text, b"on" | b"at")
}
