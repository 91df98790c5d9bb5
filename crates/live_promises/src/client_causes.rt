//! Laws of why a reader ended as its client did. Each function only carries its statement.

ghost use Rattle.live_promises.specs.ClientCauses.{NoAnswerIsUnanswered, RefusedIsRead};

/// A client that gives up a command has sent it three times, and heard no acknowledge of it since.
pub fn no_answer_is_unanswered()
    ensures { NoAnswerIsUnanswered }
{}

/// A reader ends with Refused exactly where its client told a refusal of what came, with its status.
pub fn refused_is_read()
    ensures { RefusedIsRead }
{}
