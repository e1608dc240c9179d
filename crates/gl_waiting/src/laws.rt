//! What each command of a table of waiters amounts to, as the contracts of calls that do nothing.

ghost use Rattle.gl_waiting.specs.Laws.{CommandsAreSteps, RefusalsChangeNothing};

/// A refused command changes nothing: not the table, nor a waiter, nor a begin that waits for a slot. It tells nobody.
pub fn refusals_change_nothing()
    ensures { RefusalsChangeNothing }
{}

/// A command is one step of the model, and nothing happens beside it, if it ends no waiter's wait and no begin waits for a
/// slot; but rows may lose their nodes after one that releases locks or cancels a wait.
pub fn commands_are_steps()
    ensures { CommandsAreSteps }
{}
