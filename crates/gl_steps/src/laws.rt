//! The laws of all commands, each the contract of a call that does nothing.

ghost use Rattle.gl_model.specs.Lawful.{EmptyIsLawful, EmptyHasNoCycle};
ghost use Rattle.gl_steps.specs.Promises.{AlwaysAnswers, BeginsWaits, EndsWaits, EscalateLowersNone, MoveKeepsMover, OneOutcome, RekeyKeepsMover};
ghost use Rattle.gl_steps.specs.Promises.{RowsComeAndGo, RunsKeepLaw, RunsKeepNoCycle, SettlesNobody, StepsKeepLaw};
ghost use Rattle.gl_steps.specs.Promises.{OthersKeepBelow, OthersKeepEffects, OthersKeepFile, OthersLeaveBelow};

/// Each step of each command keeps the law; so does each run, and the empty state meets it.
pub fn steps_keep_law()
    ensures law { StepsKeepLaw }
    ensures runs { RunsKeepLaw }
    ensures start { EmptyIsLawful }
{}

/// Over a run that does not name it, a transaction's effective modes on records that live before
/// and after stay, or may rise if it was told of a grant.
pub fn others_keep_effects()
    ensures { OthersKeepEffects }
{}

/// Over a run that does not name a transaction, records that live before and after stay below what
/// it reads, with their keys. A record that was added there was adopted, and its file is one of
/// adopted rows; right after that command nobody held it or waited for it. A record that is gone
/// was forgotten, and right before that command nobody held it or waited for it. So if no row is
/// adopted or forgotten, no record is added or removed there; and if no row of a file is, none of
/// that file.
pub fn others_keep_below()
    ensures rows { OthersLeaveBelow }
    ensures file { OthersKeepFile }
    ensures plain { OthersKeepBelow }
{}

/// Adopt and forget add and remove only records that nobody holds or waits for, and change nothing
/// else.
pub fn rows_come_and_go()
    ensures { RowsComeAndGo }
{}

/// With detection at block no run makes a cycle of waits, and the empty state has none.
pub fn no_cycle()
    ensures law { RunsKeepNoCycle }
    ensures start { EmptyHasNoCycle }
{}

/// A rekey and a move leave the mover's effective mode on every node as it was, and an escalation
/// lowers the caller's on none.
pub fn mover_keeps_effects()
    ensures rekeyed { RekeyKeepsMover }
    ensures moved { MoveKeepsMover }
    ensures escalated { EscalateLowersNone }
{}

/// In a lawful state there is a step for every command, so no law of steps is empty.
pub fn always_answers()
    ensures { AlwaysAnswers }
{}

/// In a lawful state a command that makes no node has one outcome, lack of memory aside.
pub fn one_outcome()
    ensures { OneOutcome }
{}

/// A settle of a transaction that is on no cycle tells nobody and, if it is not refused, changes
/// only the count of accepted commands.
pub fn settles_nobody()
    ensures { SettlesNobody }
{}

/// A transaction that waits on a node before a step and not after it was told so, or the command
/// cancelled or aborted it by name.
pub fn ends_waits()
    ensures { EndsWaits }
{}

/// A transaction that waits after a step waited so before, or the command was a lock that is
/// answered with that wait.
pub fn begins_waits()
    ensures { BeginsWaits }
{}
