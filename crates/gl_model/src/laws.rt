//! The laws of the model, each the contract of a call that does nothing.

ghost use Rattle.gl_model.specs.Deadlocks.{KeepingSettles, RowsLeadOn, VictimHasRow};
ghost use Rattle.gl_model.specs.Lawful.{
  ChainsEnd,
  CondemningFrees,
  CutSetLaw,
  LawfulCutSet,
  LawfulNoConflict,
  NoConflictLaw,
  OneIsVictim,
  SettlingEnds,
  SettlingFrees,
};
ghost use Rattle.gl_model.specs.SplitLaws.{
  MergesAddNoWait,
  MergesKeepEffects,
  MergesKeepLaw,
  MergesKeepWhatOthersRead,
  MergesNeedNoReader,
  MergesTellWaiters,
  SplitsAddNoWait,
  SplitsKeepEffects,
  SplitsKeepLaw,
  SplitsKeepWhatOthersRead,
  SplitsNeedNoReader,
  SplitsShareEffects,
  SplitsTellWaiters,
};

/// If the grants of different transactions on each node are compatible, and every grant meets the
/// rule of the graph, no two transactions have conflicting effective modes on any node. In a lawful
/// state both conditions hold.
pub fn no_conflict()
    ensures law { NoConflictLaw }
    ensures lawful { LawfulNoConflict }
{}

/// Over a lawful graph, and so in a lawful state, a transaction has effective X on a living node
/// exactly if every path from the node to the root has a node that it holds in X.
pub fn cut_sets()
    ensures law { CutSetLaw }
    ensures lawful { LawfulCutSet }
{}

/// If nobody is on a cycle of waits, each chain of waits ends at a transaction that does not wait.
pub fn chains_end()
    ensures { ChainsEnd }
{}

/// By both choices of victims settling ends, and in one state; then the settled transaction is on
/// no cycle, and no wait is new.
pub fn settling_ends()
    ensures ends { SettlingEnds }
    ensures frees { SettlingFrees }
{}

/// To condemn a transaction removes its waits and adds none. So by `Fewest` at most one victim is
/// condemned each time that a transaction is settled.
pub fn one_is_victim()
    ensures condemning { CondemningFrees }
    ensures one { OneIsVictim }
{}

/// To settle and record the last deadlock is to settle. A recorded deadlock has a row of its
/// victim, so it is not empty, and each of its rows is of a transaction that waits for one that has
/// a row.
pub fn last_deadlock()
    ensures settles { KeepingSettles }
    ensures victim { VictimHasRow }
    ensures onward { RowsLeadOn }
{}

/// A transaction that holds an interval in X may split it, and then holds the new interval in X too.
/// One that holds two neighbours in X may merge them. Either leaves the state lawful, and nobody waits
/// for whom he did not wait for before, so no cycle of waits is new.
pub fn split_states()
    ensures split { SplitsKeepLaw }
    ensures merge { MergesKeepLaw }
    ensures split_waits { SplitsAddNoWait }
    ensures merge_waits { MergesAddNoWait }
{}

/// After a split or a merge no effective mode is another, neither the transaction's nor another's, on
/// any node that is there before and after, a record for example. On a new interval each transaction
/// has the effective mode that it had on the interval that was split.
pub fn split_effects()
    ensures split { SplitsKeepEffects }
    ensures new_interval { SplitsShareEffects }
    ensures merge { MergesKeepEffects }
{}

/// What another transaction reads stays as it is: below each node on which it has an effective S, the
/// records and their keys are the same before and after. So an interval that somebody scans is neither
/// split nor merged by another.
pub fn split_reads()
    ensures split { SplitsKeepWhatOthersRead }
    ensures merge { MergesKeepWhatOthersRead }
    ensures split_reader { SplitsNeedNoReader }
    ensures merge_reader { MergesNeedNoReader }
{}

/// Who waited for an interval that is split is told that it moved, and who waited for one that a merge
/// removes is told that it is gone. Nobody else is told of anything.
pub fn split_tellings()
    ensures split { SplitsTellWaiters }
    ensures merge { MergesTellWaiters }
{}
