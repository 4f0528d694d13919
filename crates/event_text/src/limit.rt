// How large numbers in lines may be.

/// A number has at least one digit and at most so many, and is at most so great.
#[derive(Clone, Copy, PartialEq, Eq)]
pub(crate) struct Limit {
    pub(crate) digits: usize,
    pub(crate) most: u64,
}

/// A moment has at most so many digits.
pub(crate) const MOMENT_DIGITS: usize = 11;

/// The status of a plugin.
pub(crate) const STATUS: Limit = Limit {
    digits: 19,
    most: 255,
};

/// Seconds from 1970.
pub(crate) const MOMENT: Limit = Limit {
    digits: 11,
    most: 99_999_999_999,
};

/// 0, 1 or 2.
pub(crate) const THREE: Limit = Limit {
    digits: 19,
    most: 2,
};

/// 0 or 1.
pub(crate) const SWITCH: Limit = Limit {
    digits: 19,
    most: 1,
};

/// 0 alone.
pub(crate) const NOTHING: Limit = Limit {
    digits: 19,
    most: 0,
};

/// Seconds.
pub(crate) const DURATION: Limit = Limit {
    digits: 19,
    most: 99_999_999_999,
};

/// Any number.
pub(crate) const NUMBER: Limit = Limit {
    digits: 19,
    most: 9_999_999_999_999_999_999,
};
