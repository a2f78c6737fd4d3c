//! The lines of a transcript's text.
ghost use Rattle.std.specs.Prelude.{◌≡◌, ◌++◌, MatchOption};
ghost use Rattle.sl_defs.specs.Histories.{ended};
ghost use Rattle.sl_past.specs.Transcripts.{HasNoEnd, begins_note};

/// The first line, and what is left behind its end; None where no line has an end.
pub fn cut_line(text: &[u8]) -> Option<(&[u8], &[u8])>
    ensures { MatchOption result (HasNoEnd text.now) (λ x. HasNoEnd x.0.now × (text.now ≡ ended x.0.now ++ x.1.now)) }
{
    for (i, x) in text.iter().enumerate() {
        if *x == b'\n' {
            return Some((&text[..i], &text[i + 1..]));
        }
    }
    None
}

/// Whether the text begins as a note does.
pub fn begins_note(text: &[u8]) -> bool
    ensures { result ≡ begins_note text.now }
{
    matches!(text, [b'=', ..])
}
