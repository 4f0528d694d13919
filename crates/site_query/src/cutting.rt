// Cutting a text.
ghost use Rattle.std.specs.Prelude.{◌≡◌, ◌<◌, ◌∷◌, [], length, IfSome, MatchOption};
ghost use Rattle.site_query.specs.Reading.{lines_of, words_of};

/// The first line of a text, and what stands behind its newline.
pub(crate) fn cut_line(text: &str) -> Option<(&str, &str)>
    ensures lines { MatchOption result (lines_of text.now ≡ text.now ∷ []) (λ x. lines_of text.now ≡ x.0.now ∷ lines_of x.1.now) }
    ensures shorter { IfSome result (λ x. length x.1.now < length text.now) }
{
    text.split_once('\n')
}

/// What stands before the first blank, and what behind it.
pub(crate) fn cut_word(text: &str) -> Option<(&str, &str)>
    ensures words { MatchOption result (words_of text.now ≡ text.now ∷ []) (λ x. words_of text.now ≡ x.0.now ∷ words_of x.1.now) }
    ensures shorter { IfSome result (λ x. length x.1.now < length text.now) }
{
    text.split_once(' ')
}
