//! The lines of a schedule's text.
ghost use Rattle.std.specs.Prelude.{◌≡◌, ◌<◌, ◌∷◌, length, IfSome};
ghost use Rattle.std.specs.List.{slice_split};
ghost use Rattle.slice.specs.Schedule.{is_end, lines_left, without_last_end};

/// The first line, and what is left behind its end.
pub fn cut_line(text: &[u8]) -> (&[u8], Option<&[u8]>)
    ensures lines { slice_split is_end text.now ≡ result.0.now ∷ lines_left result.1 }
    ensures shorter { IfSome result.1 (λ rest. length rest.now < length text.now) }
{
    for (i, x) in text.iter().enumerate() {
        if *x == b'\n' {
            return (&text[..i], Some(&text[i + 1..]));
        }
    }
    (text, None)
}

/// The text without one end of line at its end.
#[tactic(auto, unfolding(crate::specs::Schedule::without_last_end))]
pub fn without_end(text: &[u8]) -> &[u8]
    ensures { result.now ≡ without_last_end text.now }
{
    match text {
        [front @ .., b'\n'] => front,
        _ => text,
    }
}
