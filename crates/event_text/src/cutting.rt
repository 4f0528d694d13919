// Cutting a text.
ghost use Rattle.std.specs.Prelude.{◌≡◌, ◌<◌, [], ◌∷◌, length, MatchOption};
ghost use Rattle.event_text.specs.Cuts.{cut as cut_into, uncut, cut_at};
ghost use Rattle.event_text.specs.Fields.{semicolon};
ghost use Rattle.event_text.specs.Lines.{bracket};

/// What stands before the first of these marks, and what behind it.
pub(crate) fn cut<'a>(text: &'a str, mark: &str) -> Option<(&'a str, &'a str)>
    requires { 0 < length mark.now }
    ensures { MatchOption result (cut_at mark.now text.now ≡ uncut) (λ x. cut_at mark.now text.now ≡ cut_into x.0.now x.1.now) }
{
    text.split_once(mark)
}

/// What stands before the first semicolon, and what behind it.
pub(crate) fn cut_field(text: &str) -> Option<(&str, &str)>
    ensures { MatchOption result (cut_at semicolon text.now ≡ uncut) (λ x. cut_at semicolon text.now ≡ cut_into x.0.now x.1.now) }
{
    text.split_once(';')
}

/// What stands before the first `] `, and what comes after it.
pub(crate) fn cut_bracket(text: &str) -> Option<(&str, &str)>
    ensures { MatchOption result (cut_at bracket text.now ≡ uncut) (λ x. cut_at bracket text.now ≡ cut_into x.0.now x.1.now) }
{
    match cut_closing(text) {
        Some((front, after)) => cut_blank(text, front, after),
        None => None,
    }
}

/// The same, by what stands before the first closing bracket and what comes after it. In most lines a blank comes next; then the mark needn't be
/// looked for.
fn cut_blank<'a>(text: &'a str, front: &'a str, after: &'a str) -> Option<(&'a str, &'a str)>
    requires { cut_at (93 ∷ []) text.now ≡ cut_into front.now after.now }
    ensures { MatchOption result (cut_at bracket text.now ≡ uncut) (λ x. cut_at bracket text.now ≡ cut_into x.0.now x.1.now) }
{
    match after.strip_prefix(' ') {
        Some(rest) => Some((front, rest)),
        None => cut(text, "] "),
    }
}

/// What stands before the first closing bracket, and what comes after it.
fn cut_closing(text: &str) -> Option<(&str, &str)>
    ensures { MatchOption result (cut_at (93 ∷ []) text.now ≡ uncut) (λ x. cut_at (93 ∷ []) text.now ≡ cut_into x.0.now x.1.now) }
{
    text.split_once(']')
}
