//! The first word of a listing.

ghost use Rattle.std.specs.Prelude.{◌≡◌, ◌≢◌, IfSome, IfNone};
ghost use Rattle.gl_script.specs.Words.{topic_word};
ghost use Rattle.gl_script.specs.declared.topic.Topic.{Topic as TheTopic};

/// The topic of a listing, by its first word.
#[derive(Clone, Copy)]
pub(crate) enum Topic {
    Holders,
    Queue,
    Locks,
    Waits,
    Txns,
    Cycle,
}

/// The topic with these bytes, if it is one.
pub(crate) fn read_topic(text: &[u8]) -> Option<Topic>
    ensures says { IfSome result (λ topic. text.now ≡ topic_word topic) }
    ensures none { IfNone result ((topic : TheTopic) → text.now ≢ topic_word topic) }
{
    match text {
        b"holders" => Some(Topic::Holders),
        b"queue" => Some(Topic::Queue),
        b"locks" => Some(Topic::Locks),
        b"waits" => Some(Topic::Waits),
        b"txns" => Some(Topic::Txns),
        b"cycle" => Some(Topic::Cycle),
        _ => None,
    }
}
