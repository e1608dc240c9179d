//! The laws of scripts, each the contract of a call that does nothing.

ghost use Rattle.gl_interpreter.specs.Sayable.{EachIsSaid};

/// Each command of a manager is one of a script of version 2 with schema changes and traces, if names
/// mean what it uses.
pub fn each_is_said()
    ensures { EachIsSaid }
{}
