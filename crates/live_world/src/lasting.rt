// What lasts, and when it is told.
ghost use Rattle.std.specs.Prelude.{◌≡◌, ◌-◌, ◌≤◌, ◌↔◌, ◌&&◌, ◌||◌, nat_le, Some, None, true, false, unwrap_or, if◌then◌else◌};
ghost use Rattle.live_world.specs.declared.lasting.News.TheVariants.{Lasts, IsOver};

/// What is to be told of something that may last.
#[derive(Clone, Copy, PartialEq, Eq)]
pub enum News {
    /// It has lasted for so many turns.
    Lasts,
    /// It lasted so long, and is over.
    IsOver,
}

/// Something that holds at a turn or doesn't, which is told once it has held for so many turns on end, and again when it is over.
#[derive(Drop)]
pub struct Lasting {
    most: u64,
    /// The number of the turn since which it holds.
    since: Option<u64>,
    is_told: bool,
}

impl Lasting {
    pub fn new(most: u64) -> Lasting
        ensures { result ≡ record { most = most; since = None; is_told = false } }
    {
        Lasting {
            most,
            since: None,
            is_told: false,
        }
    }

    /// Takes whether it holds at the turn of this number, and gives what is to be told.
    pub fn take(&mut self, holds: bool, now: u64) -> Option<News>
        ensures lasts { (result ≡ Some Lasts) ↔ ((holds ≡ true) × ((self.old.is_told ≡ false) × (self.old.most ≤ now - unwrap_or self.old.since now))) }
        ensures over { (result ≡ Some IsOver) ↔ ((holds ≡ false) × (self.old.is_told ≡ true)) }
        ensures since { self.new.since ≡ (if holds then Some (unwrap_or self.old.since now) else None) }
        ensures told { self.new.is_told ≡ (holds && (self.old.is_told || nat_le self.old.most (now - unwrap_or self.old.since now))) }
        ensures same { self.new.most ≡ self.old.most }
    {
        if !holds {
            self.since = None;
            let is_over = self.is_told;
            self.is_told = false;
            return if is_over { Some(News::IsOver) } else { None };
        }
        let since = self.since.unwrap_or(now);
        self.since = Some(since);
        if self.is_told || now.saturating_sub(since) < self.most {
            return None;
        }
        self.is_told = true;
        Some(News::Lasts)
    }
}
