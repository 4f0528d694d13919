// The first character of a text.
ghost use Rattle.std.specs.Prelude.{◌≡◌, ◌∷◌, [], MatchOption};
ghost use Rattle.std.specs.Str.{chars};

/// The first character of a text, and what follows it; `None` for the empty text.
pub fn first_character(text: &str) -> Option<(char, &str)>
    ensures { MatchOption result (chars text.now ≡ []) (λ p. chars text.now ≡ p.0 ∷ chars p.1.now) }
{
    let mut characters = text.chars();
    let c = characters.next()?;
    Some((c, characters.as_str()))
}
