//! The first word of a line.

ghost use Rattle.std.specs.Prelude.{◌≡◌, ◌≢◌, ◌↔◌, IfSome, IfNone, IsTrue};
ghost use Rattle.gl_script.specs.Words.{HasVerb, word};
ghost use Rattle.gl_script.specs.declared.verb.Verb.{Verb as TheVerb};

use crate::form::{Language, Version};

/// The verb of a line, by what follows it.
#[derive(Clone, Copy)]
pub(crate) enum Verb {
    Inner,
    File,
    Index,
    Begin,
    Insert,
    Adopt,
    Forget,
    Rekey,
    Move,
    Split,
    Merge,
    Group,
    /// A transaction follows.
    OfTxn(TxnVerb),
    /// A transaction and a node follow.
    OfLock(LockVerb),
    /// A transaction, a mode and a node follow.
    OfRequest(RequestVerb),
    /// A transaction and the name of a node follow.
    OfRemoval(RemovalVerb),
    /// A transaction and a number follow.
    OfNumber(NumberVerb),
}

/// What is done to a transaction.
#[derive(Clone, Copy)]
pub enum TxnVerb {
    /// Cancel its wait.
    Cancel,
    /// Commit it.
    Commit,
    /// End it whatever it is doing.
    Abort,
    /// Condemn victims until it is on no cycle.
    Settle,
    /// Answer how many nodes it holds or waits for: its savepoint.
    Mark,
}

/// What is done to the lock of a transaction on a node.
#[derive(Clone, Copy)]
pub enum LockVerb {
    /// Release it.
    Unlock,
    /// Raise it in place of locks on the node's children.
    Escalate,
    /// Answer its mode.
    Held,
    /// Answer the effective mode of the transaction on the node.
    Effective,
}

/// How a lock is requested.
#[derive(Clone, Copy)]
pub enum RequestVerb {
    /// Wait if it cannot be granted at once.
    Lock,
    /// Refused if it cannot be granted at once.
    Try,
}

/// What is removed.
#[derive(Clone, Copy)]
pub enum RemovalVerb {
    /// A record.
    Delete,
    /// An inner node, a file or an index.
    Drop,
}

/// What a transaction does with a number.
#[derive(Clone, Copy)]
pub enum NumberVerb {
    /// Roll back to the savepoint of this number.
    Release,
    /// Commit, and begin one with its intentions, for work that began with the transaction of this age.
    Renew,
}

/// The verb with these bytes, if it is one.
pub(crate) fn read_verb(text: &[u8]) -> Option<Verb>
    ensures says { IfSome result (λ verb. text.now ≡ word verb) }
    ensures none { IfNone result ((verb : TheVerb) → text.now ≢ word verb) }
{
    match text {
        b"inner" => Some(Verb::Inner),
        b"file" => Some(Verb::File),
        b"index" => Some(Verb::Index),
        b"begin" => Some(Verb::Begin),
        b"insert" => Some(Verb::Insert),
        b"adopt" => Some(Verb::Adopt),
        b"forget" => Some(Verb::Forget),
        b"rekey" => Some(Verb::Rekey),
        b"move" => Some(Verb::Move),
        b"split" => Some(Verb::Split),
        b"merge" => Some(Verb::Merge),
        b"group" => Some(Verb::Group),
        b"cancel" => Some(Verb::OfTxn(TxnVerb::Cancel)),
        b"commit" => Some(Verb::OfTxn(TxnVerb::Commit)),
        b"abort" => Some(Verb::OfTxn(TxnVerb::Abort)),
        b"settle" => Some(Verb::OfTxn(TxnVerb::Settle)),
        b"mark" => Some(Verb::OfTxn(TxnVerb::Mark)),
        b"unlock" => Some(Verb::OfLock(LockVerb::Unlock)),
        b"escalate" => Some(Verb::OfLock(LockVerb::Escalate)),
        b"held" => Some(Verb::OfLock(LockVerb::Held)),
        b"effective" => Some(Verb::OfLock(LockVerb::Effective)),
        b"lock" => Some(Verb::OfRequest(RequestVerb::Lock)),
        b"try" => Some(Verb::OfRequest(RequestVerb::Try)),
        b"delete" => Some(Verb::OfRemoval(RemovalVerb::Delete)),
        b"drop" => Some(Verb::OfRemoval(RemovalVerb::Drop)),
        b"release" => Some(Verb::OfNumber(NumberVerb::Release)),
        b"renew" => Some(Verb::OfNumber(NumberVerb::Renew)),
        _ => None,
    }
}

/// Whether a script of the language may have the verb.
pub(crate) fn has_verb(language: Language, verb: Verb) -> bool
    ensures { IsTrue result ↔ HasVerb language verb }
{
    match verb {
        Verb::Move => matches!(language.version, Version::Two),
        Verb::Split | Verb::Merge => language.schema,
        Verb::OfRemoval(RemovalVerb::Drop) => language.schema,
        Verb::OfTxn(TxnVerb::Mark) => language.savepoints,
        Verb::OfNumber(NumberVerb::Release) => language.savepoints,
        Verb::Adopt | Verb::Forget => language.trace,
        Verb::OfNumber(NumberVerb::Renew) => language.trace,
        _ => true,
    }
}
