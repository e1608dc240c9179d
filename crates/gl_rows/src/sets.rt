//! For each slot, the rows that its transaction asked for, and those that earlier ones left. From
//! `SLOTS` on there are no transactions and no rows.

ghost use Rattle.gl_slots.specs.Limit.{most_slots};
ghost use Rattle.std.specs.Prelude.{◌≡◌, ◌<◌, ◌&&◌, ◌||◌, ◌==◌, ℕ, [], IfErr, IfOk, OnOk, None, Some, false, true};
ghost use Rattle.std.specs.Prelude.{filter, get_or, is_some, length, not, slice_get, slice_set};
ghost use Rattle.std.specs.Map.{lookup};
ghost use Rattle.gl_modes.specs.declared.refusal.Refusal.{Refusal as ARefusal};
ghost use Rattle.gl_rows.specs.declared.row.Row.{Row as ARow};
ghost use Rattle.gl_rows.specs.Rows.{is_in_any, same_row};
ghost use Rattle.gl_rows.specs.Sound.{HasRoom, is_in, rows_of};

use crate::row::Row;
use gl_modes::{NodeId, Refusal};
use gl_slots::{SLOTS, Slot};
use indexmap::{IndexMap, IndexSet};
use std::alloc::Global;
use std::mem::replace;

/// An empty set for each slot.
pub(crate) fn empty_sets(alloc: Global) -> Result<Vec<IndexSet<Row>>, Refusal>
    ensures sets { IfOk result (λ sets. length sets.items ≡ most_slots) }
    ensures empty { IfOk result (λ sets. (slot : ℕ) (row : ARow) → is_in sets.items slot row ≡ false) }
    ensures refused { IfErr result (λ refusal. refusal ≡ ARefusal.NoMemory) }
{
    let Ok(mut sets) = Vec::with_capacity(alloc, SLOTS) else {
        return Err(Refusal::NoMemory);
    };
    for _set in 0..SLOTS {
        sets.push_reserved(IndexSet::new(alloc));
    }
    Ok(sets)
}

/// Makes room for one more row in a slot's set, if the slot has one.
pub(crate) fn make_room(sets: &mut Vec<IndexSet<Row>>, slot: Slot) -> Result<(), Refusal>
    requires sets { length sets.old.items ≡ most_slots }
    ensures sets { length sets.new.items ≡ most_slots }
    ensures same { rows_of sets.new.items ≡ rows_of sets.old.items }
    ensures room { OnOk result (HasRoom sets.new.items slot) }
    ensures refused { IfErr result (λ refusal. refusal ≡ ARefusal.NoMemory) }
{
    if slot as usize >= SLOTS {
        return Ok(());
    }
    match sets[slot as usize].reserve(1) {
        Ok(()) => Ok(()),
        Err(_) => Err(Refusal::NoMemory),
    }
}

/// Adds a row to a slot's set.
pub(crate) fn put(sets: &mut Vec<IndexSet<Row>>, slot: Slot, row: Row)
    requires sets { length sets.old.items ≡ most_slots }
    requires slot { slot < most_slots }
    requires room { HasRoom sets.old.items slot }
    ensures sets { length sets.new.items ≡ most_slots }
    ensures has { (u : ℕ) (q : ARow) → is_in sets.new.items u q ≡ (is_in sets.old.items u q || ((u == slot) && same_row row q)) }
{
    sets[slot as usize].insert(row).unwrap();
}

/// The rows in a slot's set.
pub(crate) fn rows_in(sets: &Vec<IndexSet<Row>>, slot: Slot) -> &[Row]
    requires sets { length sets.now.items ≡ most_slots }
    ensures rows { result.now ≡ get_or (rows_of sets.now.items) slot [] }
{
    match sets.get(slot as usize) {
        Some(set) => set.as_slice(),
        None => &[],
    }
}

/// Removes a row from a slot's set.
pub(crate) fn take(sets: &mut Vec<IndexSet<Row>>, slot: Slot, row: Row)
    requires sets { length sets.old.items ≡ most_slots }
    ensures sets { length sets.new.items ≡ most_slots }
    ensures has { (u : ℕ) (q : ARow) → is_in sets.new.items u q ≡ (is_in sets.old.items u q && not ((u == slot) && same_row row q)) }
{
    if slot as usize >= SLOTS {
        return;
    }
    sets[slot as usize].swap_remove(&row);
}

/// Empties a slot's set. Clearing a set writes all its room; if that is far more than its rows, they
/// are removed one by one.
fn clear(sets: &mut Vec<IndexSet<Row>>, slot: Slot)
    requires sets { length sets.old.items ≡ most_slots }
    ensures sets { length sets.new.items ≡ most_slots }
    ensures rows { rows_of sets.new.items ≡ slice_set (rows_of sets.old.items) slot [] }
{
    if slot as usize >= SLOTS {
        return;
    }
    let set = &mut sets[slot as usize];
    if set.is_empty() {
        return; // The usual case.
    }
    if set.len() < set.capacity() / 16 {
        set.truncate(0);
    } else {
        set.clear();
    }
}

/// Keeps in a slot's set the rows that have a node.
pub(crate) fn keep_named(sets: &mut Vec<IndexSet<Row>>, slot: Slot, names: &IndexMap<Row, NodeId>)
    requires sets { length sets.old.items ≡ most_slots }
    ensures sets { length sets.new.items ≡ most_slots }
    ensures rows { rows_of sets.new.items ≡ slice_set (rows_of sets.old.items) slot
        (filter (λ row. is_some (lookup (same_row row) names.now.entries)) (get_or (rows_of sets.old.items) slot [])) }
{
    if slot as usize >= SLOTS {
        return;
    }
    sets[slot as usize].retain(
        |row: &Row| -> bool
            ensures { result ≡ is_some (lookup (same_row row.now) names.entry.now.entries) }
        { names.contains_key(row) },
    );
}

/// Keeps in a slot's set the rows that have a node and are in no other set. `none` says that none has a
/// node.
pub(crate) fn end_asking(
    sets: &mut Vec<IndexSet<Row>>,
    slot: Slot,
    names: &IndexMap<Row, NodeId>,
    none: bool,
)
    requires sets { length sets.old.items ≡ most_slots }
    requires none { none ≡ true → (row : ARow) → is_in sets.old.items slot row ≡ true → lookup (same_row row) names.now.entries ≡ None }
    ensures sets { length sets.new.items ≡ most_slots }
    ensures rows { rows_of sets.new.items ≡ slice_set (rows_of sets.old.items) slot
        (filter (λ row. is_some (lookup (same_row row) names.now.entries) && not (is_in_any (slice_set (rows_of sets.old.items) slot []) row))
        (get_or (rows_of sets.old.items) slot [])) }
{
    if none {
        clear(sets, slot);
    } else {
        keep_alone(sets, slot, names);
    }
}

/// Keeps in a slot's set the rows that have a node and are in no other set.
fn keep_alone(sets: &mut Vec<IndexSet<Row>>, slot: Slot, names: &IndexMap<Row, NodeId>)
    requires sets { length sets.old.items ≡ most_slots }
    ensures sets { length sets.new.items ≡ most_slots }
    ensures rows { rows_of sets.new.items ≡ slice_set (rows_of sets.old.items) slot
        (filter (λ row. is_some (lookup (same_row row) names.now.entries) && not (is_in_any (slice_set (rows_of sets.old.items) slot []) row))
        (get_or (rows_of sets.old.items) slot [])) }
{
    if slot as usize >= SLOTS {
        return;
    }
    let alloc = *sets[slot as usize].allocator();
    let mut set = replace(&mut sets[slot as usize], IndexSet::new(alloc));
    retain_alone(&mut set, names, sets);
    sets[slot as usize] = set;
}

/// Keeps in a set the rows that have a node and are in none of the other sets.
fn retain_alone(set: &mut IndexSet<Row>, names: &IndexMap<Row, NodeId>, others: &Vec<IndexSet<Row>>)
    ensures { set.new.keys ≡ filter (λ row. is_some (lookup (same_row row) names.now.entries) && not (is_in_any (rows_of others.now.items) row)) set.old.keys }
{
    set.retain(
        |row: &Row| -> bool
            ensures { result ≡ (is_some (lookup (same_row row.now) names.entry.now.entries)
                && not (is_in_any (rows_of others.entry.now.items) row.now)) }
        { names.contains_key(row) && !is_in_any(others, row) },
    );
}

/// Whether a row is in one of these sets.
fn is_in_any(sets: &Vec<IndexSet<Row>>, row: &Row) -> bool
    ensures { result ≡ is_in_any (rows_of sets.now.items) row.now }
{
    sets.iter().any(|set| set.contains(row))
}
