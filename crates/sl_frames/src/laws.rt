//! What holds of the grammar of frames as a whole: each function says one law, and does nothing.
ghost use Rattle.sl_frames.specs.Laws.{SpellingsAreRead, TextsAreUnique};

/// What was written is read again.
pub fn spellings_are_read()
    ensures { SpellingsAreRead }
{}

/// No two frames have one text.
pub fn texts_are_unique()
    ensures { TextsAreUnique }
{}
