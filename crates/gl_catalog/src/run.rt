//! Lists of commands.

ghost use Rattle.std.specs.Prelude.{◌≡◌, IfErr, IfOk, OnErr};
ghost use Rattle.gl_catalog.specs.Manager.{state_of};
ghost use Rattle.gl_steps.specs.Promises.{LeavesOthers};
ghost use Rattle.gl_catalog.specs.Replies.{said_in};
ghost use Rattle.gl_steps.specs.Step.{Run};

use crate::manager::Manager;
use gl_modes::Refusal;
use gl_steps::{Command, Reply};
use std::alloc::Global;

/// Carries out commands one after the other, and answers each. Room for all replies is allocated
/// first, so with `NoMemory`, the only refusal, nothing was carried out.
///
/// A transaction that lives before and that no command names keeps its effective mode on each
/// record that lives before and after, unless a reply tells it of a grant, which may raise it. If
/// it reads a node, a record that lives before and after is below that node exactly if it was
/// before, with its keys. A record that was added there was adopted by a command of the list, and
/// its file is marked as one of adopted rows; right after that command no transaction held it or
/// waited for it. A record that is gone from there was forgotten by a command, and right before it
/// no transaction held it or waited for it.
pub fn run_commands(
    alloc: Global,
    manager: &mut Manager,
    commands: &[Command<'_>],
) -> Result<Vec<Reply>, Refusal>
    ensures run { IfOk result (λ replies. Run (state_of manager.old) commands.now (said_in replies.items) (state_of manager.new)) }
    ensures others { IfOk result (λ replies. LeavesOthers (state_of manager.old) commands.now (said_in replies.items) (state_of manager.new)) }
    ensures refused { IfErr result (λ refusal. refusal ≡ Refusal.NoMemory) }
    ensures err { OnErr result (manager.new ≡ manager.old) }
{
    manager.law();
    let Ok(mut replies) = Vec::with_capacity(alloc, commands.len()) else {
        return Err(Refusal::NoMemory);
    };
    for command in commands {
        replies.push_reserved(manager.apply(*command));
    }
    Ok(replies)
}
