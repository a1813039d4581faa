//! What holds of the texts of replies.

ghost use Rattle.desk_messages.specs.ReplyLaws.{OneReply};

/// A text is of one reply, and no reply's text begins another's.
pub fn one_reply()
    ensures { OneReply }
{}
