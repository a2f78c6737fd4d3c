ghost use Rattle.std.specs.Prelude.{◌≡◌, ◌++◌, ◌∷◌, ℕ, List, MatchOption};
ghost use Rattle.sl_text.specs.Words.{HasNoSpace};

/// What stands before the first space, and what stands behind it. Of a text without a space nothing is said.
pub fn cut(text: &[u8]) -> (&[u8], &[u8])
    ensures { (a b : List ℕ) → HasNoSpace a → text.now ≡ a ++ 32 ∷ b → (result.0.now ≡ a) × (result.1.now ≡ b) }
{
    for (i, x) in text.iter().enumerate() {
        if *x == b' ' {
            return (&text[..i], &text[i + 1..]);
        }
    }
    (text, text)
}

/// What stands behind a word at the front of the text; None exactly where the text doesn't begin with it.
pub fn behind<'a>(text: &'a [u8], word: &[u8]) -> Option<&'a [u8]>
    ensures { MatchOption result ((rest : List ℕ) → text.now ≡ word.now ++ rest → ⊥) (λ rest. text.now ≡ word.now ++ rest.now) }
{
    text.strip_prefix(word)
}
