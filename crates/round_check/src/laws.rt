// Laws.
ghost use Rattle.std.specs.Prelude.{◌≡◌, ℕ, List, Some, map};
ghost use Rattle.run_meaning.specs.Acts.{Rules};
ghost use Rattle.run_meaning.specs.Rounds.{IsRound};
ghost use Rattle.run_meaning.specs.Turns.{Asked, Histories, of_index};
ghost use Rattle.round_check.specs.Checked.{round_told};
ghost use Rattle.round_check.specs.Making.{told_of, told_on, AreParentsFirst};
ghost use Rattle.round_check.specs.declared.told.Told.{Told};

/// A round is one whose entries can be made one after another from what is told of them, and in which each caller's way can be followed;
/// and there is no other of which the same is told.
pub fn rounds_are_those_that_are_told()
    ensures sound { (r : Rules) (moment : ℕ) (before : Histories) (events : List (List Asked)) (order : List Told) (round : Histories) →
        round_told r moment before events order ≡ Some round → IsRound r moment before events round × ((c : ℕ) → map (told_of c) (of_index c round) ≡ told_on c order) }
    ensures complete { (r : Rules) (moment : ℕ) (before : Histories) (events : List (List Asked)) (order : List Told) (round : Histories) →
        AreParentsFirst r.ancestors order → ((c : ℕ) → told_on c order ≡ map (told_of c) (of_index c round)) → IsRound r moment before events round →
        round_told r moment before events order ≡ Some round }
{}
