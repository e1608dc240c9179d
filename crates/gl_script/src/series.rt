//! Series of fields: nodes or numbers.

ghost use Rattle.std.specs.Prelude.{◌≡◌, ◌≢◌, ℕ, ◌≤◌, ◌↔◌, [], ◌∷◌, ◌++◌, List, All, IfSome, IfNone, IsTrue, codes, decimal, length, map};
ghost use Rattle.gl_script.specs.Grammar.{Text, Node, IsNode, IsNumber, AreSomeNodes, node_text, parents};
ghost use Rattle.gl_script.specs.Left.{left};
ghost use Rattle.gl_script.specs.Views.{node_of};

use crate::fields::Fields;
use crate::reads::{Used, read_number, read_used};
use arrayvec::ArrayVec;

/// The most fields that a line of 256 bytes can list.
pub(crate) const MOST_LISTED: usize = 257;

/// All remaining fields, each of them a number.
pub(crate) fn read_numbers(
    fields: &mut Fields,
    numbers: &mut ArrayVec<u64, MOST_LISTED>,
) -> Option<()>
    requires room { length (left fields.old) ≤ 257 }
    ensures found { IfSome result (λ _. All IsNumber numbers.new.items × (left fields.old ≡ map decimal numbers.new.items)) }
    ensures none { IfNone result ((ks : List ℕ) → All IsNumber ks → left fields.old ≢ map decimal ks) }
{
    numbers.clear();
    while let Some(field) = fields.next() {
        numbers.push(read_number(field)?);
    }
    Some(())
}

/// Parents, if there are any, and nothing after them.
pub(crate) fn read_parents(
    fields: &mut Fields,
    nodes: &mut ArrayVec<Used, MOST_LISTED>,
) -> Option<()>
    requires room { length (left fields.old) ≤ 257 }
    ensures found { IfSome result (λ _. All IsNode (map node_of nodes.new.items) × (left fields.old ≡ parents (map node_of nodes.new.items))) }
    ensures none { IfNone result ((ps : List Node) → All IsNode ps → left fields.old ≢ parents ps) }
{
    nodes.clear();
    let Some(colon) = fields.next() else {
        return Some(());
    };
    if !is_colon(colon) {
        return None;
    }
    read_nodes(fields, nodes)?;
    (!nodes.is_empty()).then_some(())
}

/// Parents, and the word `on` after them.
#[tactic(auto, using(crate::proofs::ListTexts::none_behind_colon))]
pub(crate) fn read_parents_on(
    fields: &mut Fields,
    nodes: &mut ArrayVec<Used, MOST_LISTED>,
) -> Option<()>
    requires room { length (left fields.old) ≤ 257 }
    ensures found { IfSome result (λ _. AreSomeNodes (map node_of nodes.new.items)
        × (left fields.old ≡ parents (map node_of nodes.new.items) ++ codes "on" ∷ left fields.new)) }
    ensures none { IfNone result ((ps : List Node) (more : List Text) → AreSomeNodes ps → left fields.old ≢ parents ps ++ codes "on" ∷ more) }
{
    if !is_colon(fields.next()?) {
        return None;
    }
    nodes.clear();
    read_nodes_on(fields, nodes)
}

/// The fields before the word `with`, each of them a number, and that word.
pub(crate) fn read_numbers_with(
    fields: &mut Fields,
    numbers: &mut ArrayVec<u64, MOST_LISTED>,
) -> Option<()>
    requires room { length (left fields.old) ≤ 257 }
    ensures found { IfSome result (λ _. All IsNumber numbers.new.items
        × (left fields.old ≡ map decimal numbers.new.items ++ codes "with" ∷ left fields.new)) }
    ensures none { IfNone result ((ks : List ℕ) (more : List Text) → All IsNumber ks → left fields.old ≢ map decimal ks ++ codes "with" ∷ more) }
{
    numbers.clear();
    while let Some(field) = fields.next() {
        if is_with(field) {
            return Some(());
        }
        numbers.push(read_number(field)?);
    }
    None
}

/// The fields before the word `at`, each of them a node, and that word.
pub(crate) fn read_nodes_at(
    fields: &mut Fields,
    nodes: &mut ArrayVec<Used, MOST_LISTED>,
) -> Option<()>
    requires room { length (left fields.old) ≤ 257 }
    ensures found { IfSome result (λ _. All IsNode (map node_of nodes.new.items)
        × (left fields.old ≡ map node_text (map node_of nodes.new.items) ++ codes "at" ∷ left fields.new)) }
    ensures none { IfNone result ((ns : List Node) (more : List Text) → All IsNode ns → left fields.old ≢ map node_text ns ++ codes "at" ∷ more) }
{
    nodes.clear();
    while let Some(field) = fields.next() {
        if is_at(field) {
            return Some(());
        }
        nodes.push(read_used(field)?);
    }
    None
}

/// Whether the bytes are a colon.
fn is_colon(text: &[u8]) -> bool
    ensures { IsTrue result ↔ (text.now ≡ codes ":") }
{
    matches!(text, b":")
}

/// Whether the bytes are the word `on`, which is no node.
fn is_on(text: &[u8]) -> bool
    ensures { IsTrue result ↔ (text.now ≡ codes "on") }
{
    matches!(text, b"on")
}

/// Whether the bytes are the word `at`, which is no node.
fn is_at(text: &[u8]) -> bool
    ensures { IsTrue result ↔ (text.now ≡ codes "at") }
{
    matches!(text, b"at")
}

/// Whether the bytes are the word `with`, which is no number.
fn is_with(text: &[u8]) -> bool
    ensures { IsTrue result ↔ (text.now ≡ codes "with") }
{
    matches!(text, b"with")
}

/// All remaining fields, each of them a node.
fn read_nodes(fields: &mut Fields, nodes: &mut ArrayVec<Used, MOST_LISTED>) -> Option<()>
    requires room { length (left fields.old) ≤ 257 }
    requires empty { nodes.old.items ≡ [] }
    ensures found { IfSome result (λ _. All IsNode (map node_of nodes.new.items) × (left fields.old ≡ map node_text (map node_of nodes.new.items))) }
    ensures none { IfNone result ((ns : List Node) → All IsNode ns → left fields.old ≢ map node_text ns) }
{
    while let Some(field) = fields.next() {
        nodes.push(read_used(field)?);
    }
    Some(())
}

/// The fields before the word `on`, one or more, each of them a node, and that word.
fn read_nodes_on(fields: &mut Fields, nodes: &mut ArrayVec<Used, MOST_LISTED>) -> Option<()>
    requires room { length (left fields.old) ≤ 257 }
    requires empty { nodes.old.items ≡ [] }
    ensures found { IfSome result (λ _. AreSomeNodes (map node_of nodes.new.items)
        × (left fields.old ≡ map node_text (map node_of nodes.new.items) ++ codes "on" ∷ left fields.new)) }
    ensures none { IfNone result ((ns : List Node) (more : List Text) → AreSomeNodes ns → left fields.old ≢ map node_text ns ++ codes "on" ∷ more) }
{
    while let Some(field) = fields.next() {
        if is_on(field) {
            if nodes.is_empty() {
                return None;
            }
            return Some(());
        }
        nodes.push(read_used(field)?);
    }
    None
}
