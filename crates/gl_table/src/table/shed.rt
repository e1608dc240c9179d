//! Releases of locks on children that a lock on their parent covers.

ghost use Rattle.std.specs.Prelude.{◌≡◌, ◌-◌, [], ℕ, true};
ghost use Rattle.gl_modes.specs.declared.mode.Mode.TheVariants.{S};
ghost use Rattle.gl_modes.specs.Modes.{is_at_least};
ghost use Rattle.gl_model.specs.Calls.{IsActing, covered_children, held_children, shed};
ghost use Rattle.gl_table.specs.Orders.{OnlyLoses};
ghost use Rattle.gl_table.specs.Table.{nodes_of, state_of};
ghost use Rattle.gl_model.specs.Tellings.{told};

use super::Table;
use gl_model::{Told, TxnId};
use gl_modes::NodeId;

impl Table {
    /// As `shed`, with the notices put into an empty list.
    pub fn shed_telling(&mut self, t: TxnId, n: NodeId, notices: &mut Told) -> (u32, u32)
        requires empty { notices.old.items ≡ [] }
        requires acting { IsActing (state_of self.old) t }
        requires reads { is_at_least ((state_of self.old).held t.slot n) S ≡ true }
        ensures state { state_of self.new ≡ shed (state_of self.old) t.slot n }
        ensures deadlock { self.new.deadlock ≡ self.old.deadlock }
        ensures orders { (u : ℕ) → OnlyLoses (nodes_of self.old u) (nodes_of self.new u) }
        ensures released { result.0 ≡ covered_children (state_of self.old) t.slot n }
        ensures kept { result.1 ≡ held_children (state_of self.old) t.slot n - covered_children (state_of self.old) t.slot n }
        ensures told { notices.new.items ≡ told (state_of self.old) (state_of self.new) }
    {
        let held = self.locks.children(t.slot, n).unwrap_or(0);
        self.locks.shed(t.slot, n, notices);
        let kept = self.locks.children(t.slot, n).unwrap_or(0);
        (held - kept, kept)
    }
}
