//! What the command of a line does to names.

ghost use Rattle.std.specs.Prelude.{◌≡◌};
ghost use Rattle.gl_script.specs.declared.form.Lists.{Lists as TheLists};
ghost use Rattle.gl_script.specs.Views.{command_of};
ghost use Rattle.gl_interpreter.specs.Script.{does_to_names};
ghost use Rattle.gl_interpreter.specs.Views.{naming_of};

use gl_script::{Form, Name, NumberVerb, TxnVerb};

/// What becomes of a name if the command is carried out.
#[derive(Clone, Copy)]
pub(crate) enum Naming<'a> {
    /// A node gets it.
    Node(&'a Name),
    /// A transaction gets it.
    Txn(&'a Name),
    /// It passes from its transaction to the next.
    NextTxn(&'a Name),
    /// Its transaction ends.
    EndedTxn(&'a Name),
    /// Its node is removed.
    RemovedNode(&'a Name),
    /// No name changes.
    Nothing,
}

/// What the command of a line does to names.
pub(crate) fn does_to_names(form: &Form) -> Naming<'_>
    ensures { (lists : TheLists) → naming_of result ≡ does_to_names (command_of form.entry.now lists) }
{
    match form {
        Form::Inner { name } => Naming::Node(name),
        Form::File { name } => Naming::Node(name),
        Form::Index { name, .. } => Naming::Node(name),
        Form::IndexBy { name, .. } => Naming::Node(name),
        Form::IndexOver { name, .. } => Naming::Node(name),
        Form::Insert { name, .. } => Naming::Node(name),
        Form::Adopt { name, .. } => Naming::Node(name),
        Form::Begin { txn } => Naming::Txn(txn),
        Form::BeginAgain { txn, .. } => Naming::Txn(txn),
        Form::Join { txn, .. } => Naming::Txn(txn),
        Form::OfNumber {
            verb: NumberVerb::Renew,
            txn,
            ..
        } => Naming::NextTxn(txn),
        Form::OfTxn {
            verb: TxnVerb::Commit | TxnVerb::Abort,
            txn,
        } => Naming::EndedTxn(txn),
        Form::OfRemoval { node, .. } => Naming::RemovedNode(node),
        Form::Forget { rec } => Naming::RemovedNode(rec),
        _ => Naming::Nothing,
    }
}
