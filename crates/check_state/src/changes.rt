// How much a state changed lately.
ghost use Rattle.std.specs.Prelude.{◌≡◌, ◌∷◌, ◌*◌, [], take, false};
ghost use Rattle.run_meaning.specs.View.{weight_from};
ghost use Rattle.check_state.specs.Slots.{padded};

/// Which of the last twenty results changed the state, the newest first (Icinga 2 documentation, Monitoring Basics,
/// "Flapping").
#[derive(Clone, Copy)]
pub struct Changes {
    slots: [bool; 20],
}

impl Changes {
    /// Before any result.
    pub fn none() -> Changes
        ensures { result.slots ≡ padded 20 [] }
    {
        Changes { slots: [false; 20] }
    }

    /// With one result more, which changed the state or not.
    pub fn with(self, change: bool) -> Changes
        ensures { result.slots ≡ change ∷ take 19 self.slots }
    {
        let mut slots = self.slots;
        slots.rotate_right(1);
        slots[0] = change;
        Changes { slots }
    }

    /// How much the state changed, in thousandths of a percent: later changes weigh more.
    pub fn value(&self) -> u64
        ensures { result ≡ 50 * weight_from 1 self.now.slots }
    {
        let mut weight = 0;
        for (i, change) in self.slots.iter().enumerate() {
            if *change {
                weight += 118 - 2 * i as u64;
            }
        }
        50 * weight
    }
}
