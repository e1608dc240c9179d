//! The laws of savepoints, each the contract of a call that does nothing.

ghost use Rattle.gl_catalog.specs.Savepoints.{ModesOnlyRise, StepsKeepModes};
ghost use Rattle.gl_catalog.specs.Savepoints.{PathsInOrder, RollbackKeeps, RollbackKeepsModes, RollbackReleases, StaysBefore};

/// A transaction that rolls back to a savepoint still has each lock that it had at the savepoint
/// and has not released since, whatever it and others did meanwhile. The rollback leaves the mode
/// of each as it was, so a lock that it held ever since is held in at least the mode of then. If it
/// has released none of those, it has released all others, except nodes of which it still holds a
/// child.
///
/// The reason: no call moves a lock that stays to a later place of its transaction's list. So a
/// lock that is before a mark stays before it until it is released. A path is a run of such calls.
pub fn savepoints_keep()
    ensures before { StaysBefore }
    ensures keeps { RollbackKeeps }
    ensures modes { RollbackKeepsModes }
    ensures releases { RollbackReleases }
    ensures paths { PathsInOrder }
{}

/// No step lowers the mode of a lock that stays. So over a run along which a transaction holds a
/// node throughout, it holds it at the end in at least the mode that it had.
pub fn modes_only_rise()
    ensures steps { StepsKeepModes }
    ensures runs { ModesOnlyRise }
{}
