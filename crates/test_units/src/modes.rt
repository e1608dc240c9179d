//! Names, order and compatibility of modes; numbers and names of refusals.

use crate::wanted::same;
use gl_modes::{Mode, NodeId, Refusal, compatible, covers, mode_laws, sup};

const MODES: [Mode; 6] = [Mode::NL, Mode::IS, Mode::IX, Mode::S, Mode::SIX, Mode::X];

#[test]
fn spells_modes(rt: HostRuntime) {
    for (mode, text) in [(Mode::NL, "NL"), (Mode::SIX, "SIX"), (Mode::X, "X")] {
        same(&rt, mode.text(), text);
    }
    for mode in MODES {
        same(&rt, Mode::read(mode.text().as_bytes()), Some(mode));
    }
    for text in ["", "ix", "Ix", "IX ", " IX", "NLS", "SIXX"] {
        same(&rt, (text, Mode::read(text.as_bytes())), (text, None));
    }
}

#[test]
fn compares_modes(rt: HostRuntime) {
    assert!(rt; compatible(Mode::IX, Mode::IX));
    assert!(rt; !compatible(Mode::IX, Mode::S));
    same(&rt, sup(Mode::IX, Mode::S), Mode::SIX);
    same(&rt, sup(Mode::S, Mode::X), Mode::X);
    assert!(rt; covers(Mode::SIX, Mode::IX));
    assert!(rt; !covers(Mode::IX, Mode::S));
    mode_laws();
}

#[test]
fn names_refusals(rt: HostRuntime) {
    let node = NodeId { key: 3, birth: 7 };
    same(&rt, Refusal::NoMemory.number(), 1);
    same(&rt, Refusal::NeedParents { node }.number(), 7);
    same(&rt, Refusal::Cycle { node }.number(), 21);
    same(&rt, Refusal::RecordInUse.number(), 22);
    same(&rt, Refusal::RecordInUse.name(), "RecordInUse");
    same(&rt, Refusal::HeldChild { node }.name(), "HeldChild");
    same(&rt, Refusal::BadLine.name(), "BadLine");
    assert!(rt; NodeId::NONE != node);
    same(&rt, NodeId::NONE.birth, 0);
}
