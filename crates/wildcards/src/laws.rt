// What holds of every pattern.
ghost use Rattle.std.specs.Prelude.{◌≡◌, List, ℕ, true};
ghost use Rattle.wildcards.specs.Wildcards.{describes};
ghost use Rattle.wildcards.specs.Described.{Describes};

/// The parts of a pattern describe some characters exactly where these can be cut so that each part
/// stands for its piece. This call does nothing: its contract says so.
pub fn what_matches_is_described()
    ensures sound { (parts text : List ℕ) → describes parts text ≡ true → Describes parts text }
    ensures complete { (parts text : List ℕ) → Describes parts text → describes parts text ≡ true }
{}
