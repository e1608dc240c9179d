//! The listings of a line.

ghost use Rattle.std.specs.Prelude.{◌∷◌, true, IfSome, IfNone};
ghost use Rattle.gl_script.specs.Grammar.{ListsFields, Listing as TheListing};
ghost use Rattle.gl_script.specs.Left.{left};
ghost use Rattle.gl_script.specs.Views.{listing_of};
ghost use Rattle.gl_script.specs.Words.{topic_word};

use crate::fields::Fields;
use crate::reads::{Name, Used};
use crate::shapes::{only_name, only_node};
use crate::topic::Topic;

/// What a line lists.
#[derive(Drop)]
pub enum Listing {
    /// The holders of a node.
    Holders { node: Used },
    /// The waiters of a node.
    Queue { node: Used },
    /// The locks of a transaction.
    Locks { txn: Name },
    /// The waits of a transaction.
    Waits { txn: Name },
    /// The transactions.
    Txns,
    /// The deadlock of the last victim.
    Cycle,
}

/// The listing of a topic and the fields after it, if there are listings and it is one.
pub(crate) fn read_listing(listings: bool, topic: Topic, fields: &mut Fields) -> Option<Listing>
    ensures says { IfSome result (λ listing. ListsFields listings (topic_word topic ∷ left fields.old) (listing_of listing)) }
    ensures none { IfNone result ((l : TheListing) → ListsFields listings (topic_word topic ∷ left fields.old) l → ⊥) }
{
    if listings {
        read_topic_parts(topic, fields)
    } else {
        None
    }
}

/// The listing after a topic, if there are listings.
fn read_topic_parts(topic: Topic, fields: &mut Fields) -> Option<Listing>
    ensures says { IfSome result (λ listing. ListsFields true (topic_word topic ∷ left fields.old) (listing_of listing)) }
    ensures none { IfNone result ((l : TheListing) → ListsFields true (topic_word topic ∷ left fields.old) l → ⊥) }
{
    match topic {
        Topic::Holders => only_node(fields, |node| Listing::Holders { node }),
        Topic::Queue => only_node(fields, |node| Listing::Queue { node }),
        Topic::Locks => only_name(fields, |txn| Listing::Locks { txn }),
        Topic::Waits => only_name(fields, |txn| Listing::Waits { txn }),
        Topic::Txns => fields.is_done().then_some(Listing::Txns),
        Topic::Cycle => fields.is_done().then_some(Listing::Cycle),
    }
}
