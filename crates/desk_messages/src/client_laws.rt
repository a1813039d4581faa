//! What holds of requests and replies.

ghost use Rattle.desk_messages.specs.ClientLaws.{OneCause, OneReading, OneRequest, ReadsTexts};

/// Bytes are one reply at most.
pub fn one_reading()
    ensures { OneReading }
{}

/// No reply is bad, and what is bad is so for one cause alone.
pub fn one_cause()
    ensures { OneCause }
{}

/// The text of each reply that a desk writes, of which the body has at most 4,096 bytes, is that reply.
pub fn reads_texts()
    ensures { ReadsTexts }
{}

/// Each push has a request of its own.
pub fn one_request()
    ensures { OneRequest }
{}
