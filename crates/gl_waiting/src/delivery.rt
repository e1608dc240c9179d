//! A registry with a notice box for each slot.

ghost use Rattle.gl_slots.specs.Limit.{most_slots};
ghost use Rattle.std.specs.Prelude.{◌≡◌, [], None, replicate};
ghost use Rattle.gl_catalog.specs.Manager.{IsLawfulManager, state_of};
ghost use Rattle.gl_catalog.specs.Paths.{lock_of};
ghost use Rattle.gl_rows.specs.Rows.{name_of};
ghost use Rattle.gl_rows.specs.Serving.{PathLeavesRows, ServesBy, touches_rows};
ghost use Rattle.gl_wakes.specs.Boxes.{verdict_of};
ghost use Rattle.gl_waiting.specs.Delivering.{Carries, registry_in};
ghost use Rattle.gl_waiting.specs.Going.{IsRunOf};

use gl_catalog::{Answer, Command, Manager, Reached};
use gl_modes::{Mode, NodeId, Refusal};
use gl_rows::{Registry, Row};
use gl_slots::Slots;
use gl_steps::is_accepted;
use gl_table::{Told, TxnId};
use gl_wakes::{Boxes, Grant, Stop};
use std::marker::Model;

mod lock;
mod row_tries;
mod rows;
mod savepoints;
mod tries;

/// A registry with a notice box for each slot. Each of its calls also answers the slots whose wait it may have
/// ended: of those that it told, and the one that a cancel or an abort names.
#[derive(Drop)]
pub struct Delivery {
    registry: Registry,
    boxes: Boxes,
}

impl Model for Delivery {
    ghost use Rattle.gl_waiting.specs.Delivering.{DeliveryView};

    ghost Value = { DeliveryView };

    ghost use Rattle.gl_waiting.specs.Owned.{delivery_of};

    ghost view = { delivery_of };
}

impl Delivery {
    /// A registry over which nobody has a notice.
    pub fn new(registry: Registry) -> Self
        ensures registry { registry_in result ≡ registry }
        ensures boxes { result.boxes ≡ replicate most_slots None }
    {
        Delivery {
            registry,
            boxes: Boxes::new(),
        }
    }

    /// The law of every registry.
    pub fn law(&self)
        ensures { IsLawfulManager self.now.manager }
    {
        self.registry.law();
    }

    /// The manager, to be asked.
    pub fn manager(&self) -> &Manager
        ensures { result.now ≡ self.now.manager }
    {
        self.registry.manager()
    }

    /// The node by which a row is named; `None` if nobody holds it or waits for it.
    pub fn node(&self, row: Row) -> Option<NodeId>
        ensures { result ≡ name_of self.now.rows row }
    {
        self.registry.node(row)
    }

    /// Whether the transaction has its answer on this node, and which.
    pub fn verdict(&self, txn: TxnId, node: NodeId, mode: Mode) -> Option<Result<Grant, Stop>>
        ensures { result ≡ verdict_of (state_of self.now.manager) self.now.boxes txn node mode }
    {
        self.boxes.verdict(self.registry.manager(), txn, node, mode)
    }

    /// Carries out a command, as `Registry::serve`, with its notices put into an empty list. Inlined, so that a call for
    /// one kind of command makes no choice.
    #[inline(always)]
    pub fn serve(&mut self, command: Command<'_>, told: &mut Told) -> (Option<Answer>, Slots)
        requires empty { told.old.items ≡ [] }
        ensures serves { ServesBy (touches_rows (registry_in self.old) command.entry) (registry_in self.old) command.entry result.0 told.new.items
            (registry_in self.new) }
        ensures carries { Carries self.old command.entry told.new.items result.1 self.new }
        ensures run { IsRunOf command.entry (state_of self.old.manager) (state_of self.new.manager) }
    {
        self.registry.law();
        let Some(answer) = self.registry.serve(command, told) else {
            return (None, Slots::empty());
        };
        if !is_accepted(&command, &answer) {
            return (Some(answer), Slots::empty());
        }
        let ended = self.boxes.deliver(&command, told);
        (Some(answer), ended)
    }

    /// Locks a node with what must be held above it, as `Registry::lock_path`, with the notices put into an empty list.
    #[inline(always)]
    pub fn lock_path(
        &mut self,
        txn: TxnId,
        node: NodeId,
        mode: Mode,
        told: &mut Told,
    ) -> (Result<Reached, Refusal>, Slots)
        requires empty { told.old.items ≡ [] }
        ensures path { PathLeavesRows txn (node, mode) (registry_in self.old) result.0 told.new.items (registry_in self.new) }
        ensures carries { Carries self.old (lock_of txn (node, mode)) told.new.items result.1 self.new }
        ensures run { IsRunOf (lock_of txn (node, mode)) (state_of self.old.manager) (state_of self.new.manager) }
    {
        self.registry.law();
        let before = self.registry.manager().accepted();
        let reached = self.registry.lock_path(txn, node, mode, told);
        if self.registry.manager().accepted() == before {
            return (reached, Slots::empty());
        }
        let asked = Command::Lock { txn, node, mode };
        let ended = self.boxes.deliver(&asked, told);
        (reached, ended)
    }
}
