// The failing calls of a fake.
ghost use Rattle.std.specs.Prelude.{◌≡◌, ◌↔◌, [], IsTrue, IsFalse, Contains};
ghost use Rattle.site_edge.specs.Fakes.{fresh, counted, IsCalm};

use site_base::Row;

/// Counts the calls of a fake, and knows which of them are to fail.
#[derive(Drop)]
pub struct Failures {
    calls: u64,
    listed: Row<u64>,
}

impl Failures {
    /// No call was made yet.
    pub fn new(listed: Row<u64>) -> Failures
        ensures fresh { result ≡ fresh listed }
        ensures calm { listed ≡ [] → IsCalm result }
    {
        Failures { calls: 0, listed }
    }

    /// Counts a call, and tells whether it is to fail.
    pub fn next_fails(&mut self) -> bool
        ensures counted { self.new ≡ counted self.old }
        ensures listed { IsTrue result ↔ Contains self.new.listed self.new.calls }
        ensures calm { IsCalm self.old → IsCalm self.new }
        ensures spared { IsCalm self.old → IsFalse result }
    {
        self.calls = self.calls.saturating_add(1);
        self.listed.as_slice().contains(&self.calls)
    }
}
