// The characters of a text.
ghost use Rattle.std.specs.Prelude.{◌≡◌, ◌∷◌, ◌++◌, [], MatchOption};
ghost use Rattle.std.specs.Str.{chars};
ghost use Rattle.dsl_lib.specs.Texts.{is_among};

/// The last character, and what stands before it.
pub(crate) fn last(text: &str) -> Option<(char, &str)>
    ensures { MatchOption result (chars text.now ≡ []) (λ p. chars text.now ≡ chars p.1.now ++ p.0 ∷ []) }
{
    let mut characters = text.chars();
    let c = characters.next_back()?;
    Some((c, characters.as_str()))
}

/// Whether a character is one of a text's.
pub(crate) fn has_char(text: &str, c: char) -> bool
    ensures { result ≡ is_among (chars text.now) c }
{
    text.chars().any(|d| d == c)
}
