//! What follows the first word of a line.
//!
//! Each of the public calls reads all remaining fields, and returns what `form` makes of them; `None`
//! if a field is missing, is one too many, or is not what its place needs.

ghost use Rattle.std.specs.Prelude.{◌≡◌, ◌≢◌, ℕ, ◌≤◌, [], ◌∷◌, ◌++◌, List, All, IfSome, IfNone, codes, decimal, length, map};
ghost use Rattle.gl_modes.specs.declared.mode.Mode.{Mode};
ghost use Rattle.gl_modes.specs.Modes.{mode_text};
ghost use Rattle.gl_script.specs.Grammar.{Text, Node, IsName, IsNode, IsNumber, AreSomeNodes, node_text, parents, with_records};
ghost use Rattle.gl_script.specs.Left.{left};
ghost use Rattle.gl_script.specs.Views.{node_of, nodes_of, records_of};

use crate::fields::Fields;
use crate::form::{Form, Lists};
use crate::reads::{Name, Used, next_name, next_node, next_number};
use crate::series::{
    MOST_LISTED, read_nodes_at, read_numbers, read_numbers_with, read_parents, read_parents_on,
};
use arrayvec::ArrayVec;
use gl_modes::Mode;

/// A name.
pub(crate) fn only_name<T, F: FnOnce(Name) -> T>(fields: &mut Fields, form: F) -> Option<T>
    requires form { F.IsAlwaysCallable form }
    ensures found { IfSome result (λ r. (name : _) × F.post form name r × IsName name.items × (left fields.old ≡ name.items ∷ [])) }
    ensures none { IfNone result ((n : Text) → IsName n → left fields.old ≢ n ∷ []) }
{
    Some(form(last_name(fields)?))
}

/// A node.
pub(crate) fn only_node<T, F: FnOnce(Used) -> T>(fields: &mut Fields, form: F) -> Option<T>
    requires form { F.IsAlwaysCallable form }
    ensures found { IfSome result (λ r. (node : _) × F.post form node r × IsNode (node_of node) × (left fields.old ≡ node_text (node_of node) ∷ [])) }
    ensures none { IfNone result ((n : Node) → IsNode n → left fields.old ≢ node_text n ∷ []) }
{
    Some(form(last_node(fields)?))
}

/// A transaction and a node.
pub(crate) fn txn_node<F: FnOnce(Name, Used) -> Form>(fields: &mut Fields, form: F) -> Option<Form>
    requires form { F.IsAlwaysCallable form }
    ensures found { IfSome result (λ r. (txn : _) × (node : _) × F.post form txn node r × IsName txn.items × IsNode (node_of node)
        × (left fields.old ≡ txn.items ∷ node_text (node_of node) ∷ [])) }
    ensures none { IfNone result ((t : Text) (n : Node) → IsName t → IsNode n → left fields.old ≢ t ∷ node_text n ∷ []) }
{
    let txn = next_name(fields)?;
    let node = last_node(fields)?;
    Some(form(txn, node))
}

/// A transaction, a mode and a node.
pub(crate) fn txn_mode_node<F: FnOnce(Name, Mode, Used) -> Form>(
    fields: &mut Fields,
    form: F,
) -> Option<Form>
    requires form { F.IsAlwaysCallable form }
    ensures found { IfSome result (λ r. (txn : _) × (mode : _) × (node : _) × F.post form txn mode node r × IsName txn.items × IsNode (node_of node)
        × (left fields.old ≡ txn.items ∷ mode_text mode ∷ node_text (node_of node) ∷ [])) }
    ensures none { IfNone result ((t : Text) (m : Mode) (n : Node) → IsName t → IsNode n → left fields.old ≢ t ∷ mode_text m ∷ node_text n ∷ []) }
{
    let txn = next_name(fields)?;
    let mode = Mode::read(fields.next()?)?;
    let node = last_node(fields)?;
    Some(form(txn, mode, node))
}

/// A transaction and the name of a node.
pub(crate) fn txn_name<F: FnOnce(Name, Name) -> Form>(fields: &mut Fields, form: F) -> Option<Form>
    requires form { F.IsAlwaysCallable form }
    ensures found { IfSome result (λ r. (txn : _) × (name : _) × F.post form txn name r × IsName txn.items × IsName name.items
        × (left fields.old ≡ txn.items ∷ name.items ∷ [])) }
    ensures none { IfNone result ((t n : Text) → IsName t → IsName n → left fields.old ≢ t ∷ n ∷ []) }
{
    let txn = next_name(fields)?;
    let name = last_name(fields)?;
    Some(form(txn, name))
}

/// A transaction and a number.
pub(crate) fn txn_number<F: FnOnce(Name, u64) -> Form>(fields: &mut Fields, form: F) -> Option<Form>
    requires form { F.IsAlwaysCallable form }
    ensures found { IfSome result (λ r. (txn : _) × (number : _) × F.post form txn number r × IsName txn.items × IsNumber number
        × (left fields.old ≡ txn.items ∷ decimal number ∷ [])) }
    ensures none { IfNone result ((t : Text) (k : ℕ) → IsName t → IsNumber k → left fields.old ≢ t ∷ decimal k ∷ []) }
{
    let txn = next_name(fields)?;
    let number = last_number(fields)?;
    Some(form(txn, number))
}

/// A transaction, a node, the word `at`, and a bound.
pub(crate) fn split_parts<F: FnOnce(Name, Used, u64) -> Form>(
    fields: &mut Fields,
    form: F,
) -> Option<Form>
    requires form { F.IsAlwaysCallable form }
    ensures found { IfSome result (λ r. (txn : _) × (node : _) × (bound : _) × F.post form txn node bound r × IsName txn.items × IsNode (node_of node)
        × IsNumber bound × (left fields.old ≡ txn.items ∷ node_text (node_of node) ∷ codes "at" ∷ decimal bound ∷ [])) }
    ensures none { IfNone result ((t : Text) (n : Node) (k : ℕ) → IsName t → IsNode n → IsNumber k → left fields.old ≢ t ∷ node_text n ∷ codes "at"
        ∷ decimal k ∷ []) }
{
    let txn = next_name(fields)?;
    let node = next_node(fields)?;
    if !matches!(fields.next()?, b"at") {
        return None;
    }
    let bound = last_number(fields)?;
    Some(form(txn, node, bound))
}

/// A transaction, a record, an index and a key.
pub(crate) fn rekey_parts<F: FnOnce(Name, Name, Name, u64) -> Form>(
    fields: &mut Fields,
    form: F,
) -> Option<Form>
    requires form { F.IsAlwaysCallable form }
    ensures found { IfSome result (λ r. (txn : _) × (rec : _) × (index : _) × (key : _) × F.post form txn rec index key r × IsName txn.items
        × IsName rec.items × IsName index.items × IsNumber key × (left fields.old ≡ txn.items ∷ rec.items ∷ index.items ∷ decimal key ∷ [])) }
    ensures none { IfNone result ((t r i : Text) (k : ℕ) → IsName t → IsName r → IsName i → IsNumber k → left fields.old ≢ t ∷ r ∷ i ∷ decimal k ∷ []) }
{
    let txn = next_name(fields)?;
    let rec = next_name(fields)?;
    let index = next_name(fields)?;
    let key = last_number(fields)?;
    Some(form(txn, rec, index, key))
}

/// A transaction, a record, a file, and keys.
pub(crate) fn insert_parts<F: FnOnce(Name, Name, Name) -> Form>(
    fields: &mut Fields,
    keys: &mut ArrayVec<u64, MOST_LISTED>,
    form: F,
) -> Option<Form>
    requires room { length (left fields.old) ≤ 257 }
    requires form { F.IsAlwaysCallable form }
    ensures found { IfSome result (λ r. (txn : _) × (rec : _) × (file : _) × F.post form txn rec file r × IsName txn.items × IsName rec.items
        × IsName file.items × All IsNumber keys.new.items × (left fields.old ≡ txn.items ∷ rec.items ∷ file.items ∷ map decimal keys.new.items)) }
    ensures none { IfNone result ((t r f : Text) (ks : List ℕ) → IsName t → IsName r → IsName f → All IsNumber ks → left fields.old ≢ t ∷ r ∷ f
        ∷ map decimal ks) }
{
    let txn = next_name(fields)?;
    let rec = next_name(fields)?;
    let file = next_name(fields)?;
    read_numbers(fields, keys)?;
    Some(form(txn, rec, file))
}

/// A record, a file, and keys.
pub(crate) fn adopt_parts<F: FnOnce(Name, Name) -> Form>(
    fields: &mut Fields,
    keys: &mut ArrayVec<u64, MOST_LISTED>,
    form: F,
) -> Option<Form>
    requires room { length (left fields.old) ≤ 257 }
    requires form { F.IsAlwaysCallable form }
    ensures found { IfSome result (λ r. (rec : _) × (file : _) × F.post form rec file r × IsName rec.items × IsName file.items
        × All IsNumber keys.new.items × (left fields.old ≡ rec.items ∷ file.items ∷ map decimal keys.new.items)) }
    ensures none { IfNone result ((r f : Text) (ks : List ℕ) → IsName r → IsName f → All IsNumber ks → left fields.old ≢ r ∷ f ∷ map decimal ks) }
{
    let rec = next_name(fields)?;
    let file = next_name(fields)?;
    read_numbers(fields, keys)?;
    Some(form(rec, file))
}

/// A name, and parents if there are any.
pub(crate) fn name_parents<F: FnOnce(Name) -> Form>(
    fields: &mut Fields,
    nodes: &mut ArrayVec<Used, MOST_LISTED>,
    form: F,
) -> Option<Form>
    requires room { length (left fields.old) ≤ 257 }
    requires form { F.IsAlwaysCallable form }
    ensures found { IfSome result (λ r. let ps = map node_of nodes.new.items in (name : _) × F.post form name r × IsName name.items × All IsNode ps
        × (left fields.old ≡ name.items ∷ parents ps)) }
    ensures none { IfNone result ((n : Text) (ps : List Node) → IsName n → All IsNode ps → left fields.old ≢ n ∷ parents ps) }
{
    let name = next_name(fields)?;
    read_parents(fields, nodes)?;
    Some(form(name))
}

/// A name, and one or more parents.
pub(crate) fn name_some_parents<F: FnOnce(Name) -> Form>(
    fields: &mut Fields,
    nodes: &mut ArrayVec<Used, MOST_LISTED>,
    form: F,
) -> Option<Form>
    requires room { length (left fields.old) ≤ 257 }
    requires form { F.IsAlwaysCallable form }
    ensures found { IfSome result (λ r. let ps = map node_of nodes.new.items in (name : _) × F.post form name r × IsName name.items × AreSomeNodes ps
        × (left fields.old ≡ name.items ∷ parents ps)) }
    ensures none { IfNone result ((n : Text) (ps : List Node) → IsName n → AreSomeNodes ps → left fields.old ≢ n ∷ parents ps) }
{
    let read = name_parents(fields, nodes, form)?;
    (!nodes.is_empty()).then_some(read)
}

/// A transaction, a node, and parents if there are any.
pub(crate) fn txn_node_parents<F: FnOnce(Name, Used) -> Form>(
    fields: &mut Fields,
    nodes: &mut ArrayVec<Used, MOST_LISTED>,
    form: F,
) -> Option<Form>
    requires room { length (left fields.old) ≤ 257 }
    requires form { F.IsAlwaysCallable form }
    ensures found { IfSome result (λ r. let ps = map node_of nodes.new.items in (txn : _) × (node : _) × F.post form txn node r × IsName txn.items
        × IsNode (node_of node) × All IsNode ps × (left fields.old ≡ txn.items ∷ node_text (node_of node) ∷ parents ps)) }
    ensures none { IfNone result ((t : Text) (n : Node) (ps : List Node) → IsName t → IsNode n → All IsNode ps → left fields.old ≢ t ∷ node_text n
        ∷ parents ps) }
{
    let txn = next_name(fields)?;
    let node = next_node(fields)?;
    read_parents(fields, nodes)?;
    Some(form(txn, node))
}

/// One or more parents, the word `on`, a file, the word `at`, and bounds.
pub(crate) fn index_parts(fields: &mut Fields, lists: &mut Lists) -> Option<Name>
    requires room { length (left fields.old) ≤ 257 }
    ensures found { IfSome result (λ file. let ps = nodes_of lists.new in let bs = lists.new.numbers.items in AreSomeNodes ps × IsName file.items
        × All IsNumber bs × (left fields.old ≡ parents ps ++ codes "on" ∷ file.items ∷ codes "at" ∷ map decimal bs)) }
    ensures none { IfNone result ((f : Text) (ps : List Node) (bs : List ℕ) → AreSomeNodes ps → IsName f → All IsNumber bs
        → left fields.old ≢ parents ps ++ codes "on" ∷ f ∷ codes "at" ∷ map decimal bs) }
{
    read_parents_on(fields, &mut lists.nodes)?;
    file_bounds(fields, &mut lists.numbers)
}

/// One or more parents, the word `on`, a file, the word `at`, bounds, the word `with`, records, the word
/// `at`, and keys.
pub(crate) fn over_parts(fields: &mut Fields, lists: &mut Lists) -> Option<Name>
    requires room { length (left fields.old) ≤ 257 }
    ensures found { IfSome result (λ file. let ps = nodes_of lists.new in let bs = lists.new.numbers.items in let rs = records_of lists.new in
        let ks = lists.new.keys.items in AreSomeNodes ps × IsName file.items × All IsNumber bs × All IsNode rs × All IsNumber ks
        × (left fields.old ≡ parents ps ++ codes "on" ∷ file.items ∷ codes "at" ∷ with_records bs rs ks)) }
    ensures none { IfNone result ((f : Text) (ps : List Node) (bs : List ℕ) (rs : List Node) (ks : List ℕ) → AreSomeNodes ps → IsName f → All IsNumber bs
        → All IsNode rs → All IsNumber ks → left fields.old ≢ parents ps ++ codes "on" ∷ f ∷ codes "at" ∷ with_records bs rs ks) }
{
    read_parents_on(fields, &mut lists.nodes)?;
    file_records(
        fields,
        &mut lists.numbers,
        &mut lists.records,
        &mut lists.keys,
    )
}

/// The last field, a name.
fn last_name(fields: &mut Fields) -> Option<Name>
    ensures found { IfSome result (λ name. IsName name.items × (left fields.old ≡ name.items ∷ [])) }
    ensures none { IfNone result ((n : Text) → IsName n → left fields.old ≢ n ∷ []) }
{
    let name = next_name(fields)?;
    fields.is_done().then_some(name)
}

/// The last field, a node.
fn last_node(fields: &mut Fields) -> Option<Used>
    ensures found { IfSome result (λ node. IsNode (node_of node) × (left fields.old ≡ node_text (node_of node) ∷ [])) }
    ensures none { IfNone result ((n : Node) → IsNode n → left fields.old ≢ node_text n ∷ []) }
{
    let node = next_node(fields)?;
    fields.is_done().then_some(node)
}

/// The last field, a number.
pub(crate) fn last_number(fields: &mut Fields) -> Option<u64>
    ensures found { IfSome result (λ number. IsNumber number × (left fields.old ≡ decimal number ∷ [])) }
    ensures none { IfNone result ((k : ℕ) → IsNumber k → left fields.old ≢ decimal k ∷ []) }
{
    let number = next_number(fields)?;
    fields.is_done().then_some(number)
}

/// A file, the word `at`, and bounds.
fn file_bounds(fields: &mut Fields, bounds: &mut ArrayVec<u64, MOST_LISTED>) -> Option<Name>
    requires room { length (left fields.old) ≤ 257 }
    ensures found { IfSome result (λ file. IsName file.items × All IsNumber bounds.new.items
        × (left fields.old ≡ file.items ∷ codes "at" ∷ map decimal bounds.new.items)) }
    ensures none { IfNone result ((f : Text) (bs : List ℕ) → IsName f → All IsNumber bs → left fields.old ≢ f ∷ codes "at" ∷ map decimal bs) }
{
    let file = next_name(fields)?;
    if !matches!(fields.next()?, b"at") {
        return None;
    }
    read_numbers(fields, bounds)?;
    Some(file)
}

/// A file, the word `at`, bounds, the word `with`, records, the word `at`, and keys.
fn file_records(
    fields: &mut Fields,
    bounds: &mut ArrayVec<u64, MOST_LISTED>,
    records: &mut ArrayVec<Used, MOST_LISTED>,
    keys: &mut ArrayVec<u64, MOST_LISTED>,
) -> Option<Name>
    requires room { length (left fields.old) ≤ 257 }
    ensures found { IfSome result (λ file. let rs = map node_of records.new.items in IsName file.items × All IsNumber bounds.new.items × All IsNode rs
        × All IsNumber keys.new.items × (left fields.old ≡ file.items ∷ codes "at" ∷ with_records bounds.new.items rs keys.new.items)) }
    ensures none { IfNone result ((f : Text) (bs : List ℕ) (rs : List Node) (ks : List ℕ) → IsName f → All IsNumber bs → All IsNode rs → All IsNumber ks
        → left fields.old ≢ f ∷ codes "at" ∷ with_records bs rs ks) }
{
    let file = next_name(fields)?;
    if !matches!(fields.next()?, b"at") {
        return None;
    }
    bounds_records(fields, bounds, records, keys)?;
    Some(file)
}

/// Bounds, the word `with`, records, the word `at`, and keys.
fn bounds_records(
    fields: &mut Fields,
    bounds: &mut ArrayVec<u64, MOST_LISTED>,
    records: &mut ArrayVec<Used, MOST_LISTED>,
    keys: &mut ArrayVec<u64, MOST_LISTED>,
) -> Option<()>
    requires room { length (left fields.old) ≤ 257 }
    ensures found { IfSome result (λ _. let rs = map node_of records.new.items in All IsNumber bounds.new.items × All IsNode rs × All IsNumber keys.new.items
        × (left fields.old ≡ with_records bounds.new.items rs keys.new.items)) }
    ensures none { IfNone result ((bs : List ℕ) (rs : List Node) (ks : List ℕ) → All IsNumber bs → All IsNode rs → All IsNumber ks
        → left fields.old ≢ with_records bs rs ks) }
{
    read_numbers_with(fields, bounds)?;
    records_keys(fields, records, keys)
}

/// Records, the word `at`, and keys.
fn records_keys(
    fields: &mut Fields,
    records: &mut ArrayVec<Used, MOST_LISTED>,
    keys: &mut ArrayVec<u64, MOST_LISTED>,
) -> Option<()>
    requires room { length (left fields.old) ≤ 257 }
    ensures found { IfSome result (λ _. let rs = map node_of records.new.items in All IsNode rs × All IsNumber keys.new.items
        × (left fields.old ≡ map node_text rs ++ codes "at" ∷ map decimal keys.new.items)) }
    ensures none { IfNone result ((rs : List Node) (ks : List ℕ) → All IsNode rs → All IsNumber ks
        → left fields.old ≢ map node_text rs ++ codes "at" ∷ map decimal ks) }
{
    read_nodes_at(fields, records)?;
    read_numbers(fields, keys)
}
