// Budgets.

/// What an evaluation may take, or what is left of it.
#[derive(Clone, Copy, PartialEq, Eq)]
pub struct Budget {
    /// How many statements and expressions may be entered.
    pub steps: u64,
    /// A unit for each byte of a string that is made, for each array and dictionary, and for each element and pair that is put
    /// in.
    pub space: u64,
    /// How many statements and expressions may be open at once.
    pub depth: u32,
}

impl Budget {
    ghost use Rattle.std.specs.Prelude.{◌≡◌};
    ghost use Rattle.eval_meaning.specs.Load.{load_steps, load_space, item_steps, item_space, most_open};

    /// That of a load.
    pub fn of_load() -> Budget
        ensures { result ≡ record { steps = load_steps; space = load_space; depth = most_open } }
    {
        Budget {
            steps: 10_000_000,
            space: 268_435_456,
            depth: 300,
        }
    }

    /// That of an item, of a rule at one target, and of a group at one member.
    pub fn of_item() -> Budget
        ensures { result ≡ record { steps = item_steps; space = item_space; depth = most_open } }
    {
        Budget {
            steps: 200_000,
            space: 16_777_216,
            depth: 300,
        }
    }
}
