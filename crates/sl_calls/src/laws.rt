//! What holds of the grammar of arguments as a whole: each function says one law, and does nothing.
ghost use Rattle.sl_calls.specs.Laws.{CanonicalTextsSpell, NoSpellingIsAFront, SpellingsAreRead};

/// What `write_args` appends is in the grammar.
pub fn canonical_texts_spell()
    ensures { CanonicalTextsSpell }
{}

/// What was written is read again, whatever follows it.
pub fn spellings_are_read()
    ensures { SpellingsAreRead }
{}

/// Where arguments end is told by themselves.
pub fn no_spelling_is_a_front()
    ensures { NoSpellingIsAFront }
{}
