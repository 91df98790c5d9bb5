//! A law over the definitions, the contract of a function with nothing to do.

ghost use Rattle.note_report.specs.Ended.{EndedWordsAreOutcomes};

/// What is printed of a block that retired, from what the receiver tells of it, are the words of its note.
pub fn ended_words_are_outcomes()
    ensures { EndedWordsAreOutcomes }
{}
