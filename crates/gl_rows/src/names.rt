//! Forgetting the nodes of rows.

ghost use Rattle.std.specs.Prelude.{◌≡◌, None, true};
ghost use Rattle.std.specs.Map.{lookup};
ghost use Rattle.gl_catalog.specs.Manager.{state_of};
ghost use Rattle.gl_rows.specs.Locking.{ForgetsLiving, LetsGo, SameAccount};
ghost use Rattle.gl_rows.specs.declared.row.Row.{Row as ARow};
ghost use Rattle.gl_rows.specs.Releasing.{LetsEachGo, is_among};
ghost use Rattle.gl_rows.specs.Rows.{same_row};

use crate::row::Row;
use gl_catalog::Manager;
use gl_modes::{NodeId, Refusal};
use indexmap::IndexMap;

/// Forgets the row's node, if that still lives, and removes the row's entry. Refused with `WornOut`,
/// `BadParents` and `RecordInUse`.
pub(crate) fn let_go(
    names: &mut IndexMap<Row, NodeId>,
    manager: &mut Manager,
    row: Row,
) -> Result<(), Refusal>
    ensures goes { LetsGo (state_of manager.old) names.old.entries row result (state_of manager.new) names.new.entries }
    ensures account { SameAccount manager.old manager.new }
{
    let Some((place, _, node)) = names.get_full(&row) else {
        return Ok(());
    };
    forget_living(manager, *node)?;
    names.swap_remove_index(place);
    Ok(())
}

/// Forgets a node, if it still lives.
fn forget_living(manager: &mut Manager, node: NodeId) -> Result<(), Refusal>
    ensures forgets { ForgetsLiving (state_of manager.old) node result (state_of manager.new) }
    ensures account { SameAccount manager.old manager.new }
{
    let Err(refusal) = manager.forget(node) else {
        return Ok(());
    };
    if manager.graph().kind(node).is_none() {
        return Ok(());
    }
    Err(refusal)
}

/// Does `let_go` for each of these rows. Whether none was refused: then none has a node any more.
pub(crate) fn let_each_go(
    names: &mut IndexMap<Row, NodeId>,
    manager: &mut Manager,
    rows: &[Row],
) -> bool
    ensures goes { LetsEachGo (state_of manager.old) names.old.entries rows.now (state_of manager.new) names.new.entries }
    ensures account { SameAccount manager.old manager.new }
    ensures gone { result ≡ true → (row : ARow) → is_among rows.now row ≡ true → lookup (same_row row) names.new.entries ≡ None }
{
    let mut all = true;
    for row in rows {
        manager.law();
        let gone = let_go(names, manager, *row).is_ok();
        all &= gone;
    }
    all
}
