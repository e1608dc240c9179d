//! The laws of rows, each the contract of a call that does nothing.

ghost use Rattle.gl_rows.specs.Promises.{BacksKeepOnRows, CallsKeepOnRows, CommandsKeepOnRows, PathsKeepOnRows};
ghost use Rattle.gl_rows.specs.Promises.{KeepingsKeepOnRows, NoRowConflict, NoRowOfTwo, OthersKeepByIndexes, OthersKeepRowEffects, RecordsHaveRowEffects};

/// No row can be written by one transaction and read by another: by locks further up in any lawful
/// state, with or without a record for the row; and in a registry by any locks, those on the row's own
/// node included, if the keys are the row's own.
pub fn no_row_conflict()
    ensures above { NoRowConflict }
    ensures all { NoRowOfTwo }
{}

/// In a lawful state a transaction's effective mode on a record is at least that on its row, and
/// exactly that if it holds nothing on the record itself.
pub fn records_have_row_effects()
    ensures { RecordsHaveRowEffects }
{}

/// A command that does not name a transaction keeps its effective modes on rows, or may raise them if
/// it tells the transaction of a grant:
///
/// - over a run that drops no index of the row's file, those by locks further up, with or without a
///   record for the row;
/// - over any run, those by locks on the file and on the intervals of its indexes that exist before
///   and after;
/// - over a command by its node, a path, a rollback to a savepoint, a commit that keeps locks or a call
///   about rows, as a registry serves it, those by any locks, those on the row's own node included, if the keys are the row's
///   own before and after, even if the row gets a node by it, loses it or gets another.
pub fn others_keep_row_effects()
    ensures above { OthersKeepRowEffects }
    ensures standing { OthersKeepByIndexes }
    ensures by_command { CommandsKeepOnRows }
    ensures by_path { PathsKeepOnRows }
    ensures by_back { BacksKeepOnRows }
    ensures by_keeping { KeepingsKeepOnRows }
    ensures by_call { CallsKeepOnRows }
{}
