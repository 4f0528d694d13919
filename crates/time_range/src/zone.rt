// Time zones.
ghost use Rattle.std.specs.Prelude.{◌≡◌, ◌<◌, ◌≤◌, ◌*◌, ℕ, ℤ, pos, Option, IfOk, IfSome};
ghost use Rattle.std.specs.Prelude.{IfNone, IsErrOf, IsErr, MatchOption};
ghost use Rattle.jiff_core.specs.Time.{time_nanos};
ghost use Rattle.jiff_core.specs.declared.civil.datetime.DateTime.{DateTime as Civil};
ghost use Rattle.time_range.specs.Zone.{IsCivil};

use crate::ZoneFault;
use jiff::civil::{Date, DateTime, Time};
use jiff::tz::{TimeZone, Tzif};
use jiff::{Error, Timestamp};
use jiff_core::civil;
use site_base::Moment;
use std::alloc::Global;
use std::marker::Model;

/// The zone of a site: how its clocks are set. Clauses see it as the table of its file, and as
/// `None` for UTC.
#[derive(Drop)]
pub struct Zone {
    table: Option<Tzif>,
}

impl Model for Zone {
    ghost use Rattle.std.specs.Prelude.{Option};
    ghost use Rattle.jiff_tz.specs.declared.tzif.Tzif.{Tzif as Table};

    ghost Value = { Option Table };

    ghost view = { λ z. z.table };
}

impl Zone {
    ghost use Rattle.jiff_tz.specs.Zone.{offset_at, ambiguous_at};
    ghost use Rattle.jiff_core.specs.declared.error.TzifFault.{TzifFault};
    ghost use Rattle.jiff_tz.specs.TzifReader.{read_tzif};
    ghost use Rattle.jiff.specs.ZoneView.{plain_zone};
    ghost use Rattle.time_range.specs.Zone.{ahead, offsets, Shows, IsInstant, IsTableOf, IsBadFile};

    /// UTC.
    pub fn utc() -> Zone
        ensures { result ≡ None }
    {
        Zone { table: None }
    }

    /// The zone of a zone file (TZif, RFC 9636), whose bytes these are. The zone keeps what it
    /// read.
    ///
    /// # Errors
    ///
    /// `BadZone` where the reader of `jiff` refuses the bytes: they have another form, or their
    /// rule contradicts their table. `OutOfMemory` if there is none for the table.
    pub fn of_file(alloc: Global, bytes: &[u8]) -> Result<Zone, ZoneFault>
        ensures file { IfOk result (λ zone. MatchOption zone ⊥ (IsTableOf bytes.now)) }
        ensures bad { IsErrOf result ZoneFault.BadZone → IsBadFile bytes.now }
        ensures refused { IsBadFile bytes.now → IsErr result }
        // A fault of the format is found before any memory is asked for.
        ensures fault { (fault : TzifFault) → read_tzif bytes.now ≡ Err fault →
            IsErrOf result ZoneFault.BadZone }
    {
        match Tzif::parse(alloc, None, bytes) {
            Ok(table) => Ok(Zone { table: Some(table) }),
            Err(Error::OutOfMemory) => Err(ZoneFault::OutOfMemory),
            Err(_) => Err(ZoneFault::BadZone),
        }
    }

    /// The moment at which a clock of the zone shows the civil time so many seconds after the
    /// midnight with which a day begins, the day as days since 1970-01-01. The offset before a gap
    /// or a fold counts: of two such moments it is the earlier, and if there is none, because
    /// clocks are set forward, it is the one that a clock not set forward would give. `None` if
    /// that is no `Moment`, or the day is none from the year -9999 to 9999.
    pub fn instant(&self, day: i32, second: u32) -> Option<Moment>
        requires { second ≤ 86_400 }
        ensures value { IfSome result (λ moment.
            (civil : Civil) × IsCivil day second civil × IsInstant self.now civil moment) }
        ensures none { IfNone result ((civil : Civil) (moment : ℕ) → moment ≤ Moment.LAST →
            IsCivil day second civil → IsInstant self.now civil moment → ⊥) }
    {
        let shown = civil_time(day, second)?;
        let timestamp = self.time_zone().to_timestamp(shown).ok()?;
        moment_of(timestamp.as_second())
    }

    /// What a clock of the zone shows at a moment.
    pub(crate) fn shown(&self, moment: Moment) -> DateTime
        ensures { Shows self.now moment result }
    {
        let timestamp = Timestamp::from_second(moment.secs() as i64).unwrap();
        self.time_zone().to_datetime(timestamp)
    }

    fn time_zone(&self) -> TimeZone<'_>
        ensures offset { (nanos : ℤ) →
            offset_at (plain_zone result) nanos ≡ ahead self.now nanos }
        ensures offsets { (civil : Civil) →
            ambiguous_at (plain_zone result) civil ≡ offsets self.now civil }
    {
        match &self.table {
            None => TimeZone::UTC,
            Some(table) => TimeZone::tzif(table),
        }
    }
}

/// The civil time so many seconds after the midnight with which a day begins.
fn civil_time(day: i32, second: u32) -> Option<DateTime>
    requires { second ≤ 86_400 }
    ensures value { IfSome result (IsCivil day second) }
    ensures none { IfNone result ((civil : Civil) → IsCivil day second civil → ⊥) }
{
    if second == 86_400 {
        return time_of(i64::from(day) + 1, 0);
    }
    time_of(i64::from(day), second)
}

/// The same, before the day's end.
fn time_of(day: i64, second: u32) -> Option<DateTime>
    requires { second < 86_400 }
    ensures value { IfSome result (IsCivil day second) }
    ensures none { IfNone result ((civil : Civil) → IsCivil day second civil → ⊥) }
{
    let date = Date::from_plain(civil::Date::from_unix_epoch_day(day).ok()?);
    Some(DateTime::from_parts(date, clock(second)))
}

/// The time of day so many seconds after midnight.
fn clock(second: u32) -> Time
    requires { second < 86_400 }
    ensures { time_nanos result ≡ second * 1_000_000_000 }
{
    let hour = (second / 3600) as i8;
    let minute = (second / 60 % 60) as i8;
    Time::new(hour, minute, (second % 60) as i8, 0).unwrap()
}

/// The moment so many seconds after 1970.
fn moment_of(second: i64) -> Option<Moment>
    ensures value { IfSome result (λ moment. pos moment ≡ second) }
    ensures none { IfNone result
        ((moment : ℕ) → moment ≤ Moment.LAST → pos moment ≡ second → ⊥) }
{
    Moment::of(u64::try_from(second).ok()?)
}
