//! The slots that a question asks for.

ghost use Rattle.std.specs.Prelude.{◌≡◌, ℕ, MatchResult};
ghost use Rattle.gl_c.specs.Boards.{set_of};
ghost use Rattle.gl_graph.specs.Refusals.{first_refusal};
ghost use Rattle.gl_header.specs.Header.{holds};
ghost use Rattle.gl_model.specs.Calls.{group_tests, living_tests};
ghost use Rattle.gl_model.specs.State.{members, waits_for};
ghost use Rattle.gl_catalog.specs.Manager.{state_of};
ghost use Rattle.gl_c.specs.answers.Finding.{Finds, none_found};
ghost use Rattle.gl_c.specs.Numbers.{done};
ghost use Rattle.gl_slots.specs.Slots.{has_bit, has_slot};
ghost use Rattle.gl_modes.specs.Refusals.{refusal_number};

use crate::boards::board::Slots;
use crate::numbers::DONE;
use gl_catalog::Manager;
use gl_modes::{NodeId, Refusal};
use gl_slots::{Bits, NO_BITS};
use gl_table::TxnId;

/// The slots that a question asks for; none if it was refused.
#[repr(C)]
#[derive(Clone, Copy)]
pub struct Found {
    pub status: u32,
    pub slots: Slots,
}

impl Found {
    /// These slots.
    pub(crate) fn of(set: Bits) -> Found
        ensures status { result.status ≡ done }
        ensures slots { set_of result.slots ≡ set }
    {
        Found {
            status: DONE,
            slots: Slots::of(set),
        }
    }

    /// No slots, with this status.
    pub(crate) fn none(status: u32) -> Found
        ensures { result ≡ none_found status }
    {
        Found {
            status,
            slots: Slots::of(NO_BITS),
        }
    }

    /// These slots, or the refusal.
    pub(crate) fn of_result(slots: Result<gl_slots::Slots, Refusal>) -> Found
        ensures { MatchResult slots (λ s. (result.status ≡ done) × ((u : ℕ) → has_bit (set_of result.slots) u ≡ has_slot s u))
            (λ refusal. result ≡ none_found (refusal_number refusal)) }
    {
        match slots {
            Ok(slots) => Found::of(slots.bits()),
            Err(refusal) => Found::none(u32::from(refusal.number())),
        }
    }
}

/// The slots of the transactions that hold a node.
pub(crate) fn holders(manager: &Manager, node: NodeId) -> Found
    ensures { Finds (first_refusal (group_tests (state_of manager.now) node)) (λ u. holds (members (state_of manager.now) node) u) result }
{
    Found::of_result(manager.holders(node))
}

/// The slots for which a transaction waits.
pub(crate) fn waits_for(manager: &Manager, txn: TxnId) -> Found
    ensures { Finds (first_refusal (living_tests (state_of manager.now) txn)) (λ u. waits_for (state_of manager.now) txn.slot u) result }
{
    Found::of_result(manager.waits_for(txn))
}
