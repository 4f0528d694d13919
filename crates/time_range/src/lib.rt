//! Time periods: spans of the week and of dates, in the civil time of the site's zone.
//!
//! A time period lists spans of the day, each on a day of the week or on one date, as the object
//! type `TimePeriod` of the Icinga 2 documentation does (chapter "Object Types", section
//! "TimePeriod"). This crate reads such lists, and answers whether a moment is inside a period.
//!
//! The calendar is that of the crate `jiff`: which dates there are, which day of the week one is,
//! and what a clock of the zone shows at a moment. No date is computed here.
//!
//! This project's own, and no statement about Icinga 2:
//!
//! - A key is a day of the week in lower case, or a date `YYYY-MM-DD`; no other day is known.
//! - A span holds from its start on and before its end, and lies within one day.
//!
//! A period's spans are a plain list, which is walked for each question, with the local time found
//! once. Such a list is short, and a walk over a thousand spans was measured to take a microsecond
//! and a half; an index by day would have to be kept beside the list and made anew for each
//! configuration.
//!
//! In reading order: which day a key names, which spans a text stands for, how ranges are read,
//! the zone, and the period.
#![tactic(auto)]

mod clock;
mod day_key;
mod local;
mod period;
mod range_fault;
mod ranges;
mod span_text;
mod zone;
mod zone_fault;

pub use period::inside;
pub use range_fault::RangeFault;
pub use ranges::read_ranges;
pub use zone::Zone;
pub use zone_fault::ZoneFault;
