//! The law between the definitions of spelling and of reading.

ghost use Rattle.write_set.specs.Laws.{SpellingIsRead, OnlySpellingsAreRead};

/// What is encoded decodes to the same write set, and no other bytes decode to it.
pub fn one_spelling()
    ensures again { SpellingIsRead }
    ensures only { OnlySpellingsAreRead }
{}
