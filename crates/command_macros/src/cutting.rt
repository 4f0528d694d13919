// Cutting a text.
ghost use Rattle.std.specs.Prelude.{◌≡◌, ◌<◌, ◌++◌, ◌∷◌, MatchOption};
ghost use Rattle.command_macros.specs.Cuts.{Lacks};

/// What stands before the first of these marks, and what behind it.
pub(crate) fn cut(text: &str, mark: char) -> Option<(&str, &str)>
    requires { mark < 128 }
    ensures { MatchOption result (Lacks mark text.now) (λ x. (text.now ≡ x.0.now ++ mark ∷ x.1.now) × Lacks mark x.0.now) }
{
    text.split_once(mark)
}
