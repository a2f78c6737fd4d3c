//! What holds of the grammar of results as a whole: each function says one law, and does nothing.
ghost use Rattle.sl_replies.specs.Laws.{CanonicalTextsSpell, NoSpellingIsAFront, SpellingsAreRead};

/// What `write_reply` appends is in the grammar.
pub fn canonical_texts_spell()
    ensures { CanonicalTextsSpell }
{}

/// What was written is read again.
pub fn spellings_are_read()
    ensures { SpellingsAreRead }
{}

/// Where results end is told by themselves.
pub fn no_spelling_is_a_front()
    ensures { NoSpellingIsAFront }
{}
