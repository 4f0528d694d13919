// What a file that was met holds.

/// What a file that was met holds.
#[derive(Clone, Copy, PartialEq, Eq)]
pub enum Holding {
    /// There is no such file.
    Missing,
    /// It is longer than 4 MiB.
    TooLong,
    /// It has a fault of its own.
    Broken,
    /// It has a tree.
    Whole,
}
