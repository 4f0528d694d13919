// Days that time ranges name.

/// The days on which a span of a time range stands.
#[derive(Clone, Copy, PartialEq, Eq)]
pub enum Day {
    /// Each day of the week that has this number: Monday is 0, Sunday 6.
    Weekday(u8),
    /// One date, as days since 1970-01-01.
    Date(i32),
}
