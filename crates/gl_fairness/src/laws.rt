//! The laws of waiting, each the contract of a call that does nothing.

ghost use Rattle.gl_fairness.specs.Aside.{LeavesAside};
ghost use Rattle.gl_fairness.specs.Ends.{WaitsEnd, WaitsForOneBefore, WaitsForSomebody};
ghost use Rattle.gl_fairness.specs.Passed.{EachPassesAtMost, PassedAtMost, PassesAreSpent, RaisesEnd};
ghost use Rattle.gl_fairness.specs.Turns.{VictimAfterALiving, VictimAfterOthers, VictimAfterSomebody};
ghost use Rattle.gl_fairness.specs.Turns.{FirstIsNeverVictim, NoMoreComeBefore};
ghost use Rattle.gl_fairness.specs.Waiting.{FirstComeFirstServed, NobodyComesBetween};

/// No step puts a new transaction before a waiter: each that is before it after the step was before
/// it already, and is the same transaction; nor does a run along which the wait lasts. To be before
/// a wait is to hold the node or to be ahead in its queue, so no transaction that requested later as
/// a newcomer, or began later, holds the node before the wait has ended. Those that held the node
/// when the wait began may raise their mode meanwhile: how often, `passed_at_most` says.
pub fn first_come_first_served()
    ensures step { FirstComeFirstServed }
    ensures run { NobodyComesBetween }
{}

/// While a transaction waits on a node, others are granted that node a bounded number of times:
/// each such grant raises one before it, and none can be raised more than four times. The raises
/// left to those before it never grow, and each grant to another uses one of them. So along a run
/// each that was before it when the run began is granted at most four times, and all others never.
pub fn passed_at_most()
    ensures raise { RaisesEnd }
    ensures step { PassesAreSpent }
    ensures run { PassedAtMost }
    ensures each { EachPassesAtMost }
{}

/// Each waiter on a node waits for a transaction that lives and is before it there. If it has
/// waited along a run, that one was before it when the run began, and is the same transaction.
pub fn waits_for_somebody()
    ensures now { WaitsForSomebody }
    ensures run { WaitsForOneBefore }
{}

/// If all transactions that were before a wait end along a run, the wait ends along it by a grant:
/// unless its own transaction is condemned, cancelled or aborted, or its node is moved or removed.
/// Each end but a cancel and an abort is told to the transaction.
pub fn waits_end()
    ensures { WaitsEnd }
{}

/// The victim of a deadlock is the last candidate: each other comes before it, by an earlier
/// `since`, or by the same one and a lower age. By `Youngest`, one on the cycle that comes before
/// the victim stays, so none is condemned unless a living transaction comes before it. (By `Fewest`
/// the first may be condemned, if no other frees the slot.) No step adds to the number of those
/// that come before one that lives on, unless a transaction begins for earlier work. So along
/// a run without such, the first is never a victim.
pub fn keeps_its_turn()
    ensures others { VictimAfterOthers }
    ensures somebody { VictimAfterSomebody }
    ensures living { VictimAfterALiving }
    ensures no_more { NoMoreComeBefore }
    ensures first { FirstIsNeverVictim }
{}

/// An active transaction that a run does not name stays active and keeps its locks. Of others, only
/// those whose request the run left waiting may wait for it anew.
pub fn stays_aside()
    ensures { LeavesAside }
{}
