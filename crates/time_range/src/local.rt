// Local time.
ghost use Rattle.std.specs.Prelude.{◌≡◌};
ghost use Rattle.jiff_core.specs.Date.{epoch_day, weekday_of};
ghost use Rattle.jiff_core.specs.Time.{time_seconds};

use jiff::civil::DateTime;

/// A civil time, as spans of time ranges are compared with it.
#[derive(Clone, Copy)]
pub struct Local {
    /// The date, as days since 1970-01-01.
    pub day: i32,
    /// The day of the week: Monday is 0, Sunday 6.
    pub weekday: u8,
    /// Seconds since midnight.
    pub second: u32,
}

impl Local {
    /// The date, weekday and second of a civil time.
    pub fn of(shown: DateTime) -> Local
        ensures day { result.day ≡ epoch_day shown.date }
        ensures weekday { result.weekday ≡ weekday_of shown.date }
        ensures second { result.second ≡ time_seconds shown.time }
    {
        let plain = shown.to_plain();
        let time = plain.time;
        Local {
            day: plain.date.to_unix_epoch_day(),
            weekday: plain.date.weekday().index(),
            second: u32::from(time.hour) * 3600
                + u32::from(time.minute) * 60
                + u32::from(time.second),
        }
    }
}
