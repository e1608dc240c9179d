//! The laws of the modes, each the contract of a call that does nothing.

ghost use Rattle.gl_modes.specs.Laws.{
  CompatibilityIsSymmetric,
  ModesAreOrdered,
  SpellingsDiffer,
  SupremumIsLeast,
  SupremumIsTested,
};

/// Compatibility is symmetric, the modes are ordered, `sup` is the least mode that is both or greater,
/// one test against a supremum is a test against both, and no two modes have the same spelling.
pub fn mode_laws()
    ensures symmetric { CompatibilityIsSymmetric }
    ensures ordered { ModesAreOrdered }
    ensures least { SupremumIsLeast }
    ensures tested { SupremumIsTested }
    ensures spelt { SpellingsDiffer }
{}
