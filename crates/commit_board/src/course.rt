// Which tasks there are.
ghost use Rattle.std.specs.Prelude.{ℕ};

use std::marker::Brand;

/// Which tasks a board has, wave after wave, and which answers they may have. Clauses alone see it, and each call of a program picks it.
pub trait Course<T, A> {
    /// How many tasks a wave has.
    ghost size: { ℕ → ℕ };

    /// Which task a wave has at a place.
    ghost asks: { ℕ → ℕ → T → Type 0 };

    /// Which answers are right for what a wave has at a place.
    ghost gives: { ℕ → ℕ → A → Type 0 };
}

impl<T, A> Course<T, A> for Brand {
    ghost size = { λ w. 0 };

    ghost asks = { λ w k t. Unit {0} };

    ghost gives = { λ w k a. Unit {0} };
}
