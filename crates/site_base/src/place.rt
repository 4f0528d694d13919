// Places in files.

/// A place in a file of a list of files.
#[derive(Clone, Copy, Debug, PartialEq, Eq, PartialOrd, Ord)]
pub struct Place {
    /// The file's index in the list.
    pub file: u32,
    /// The line, from 1.
    pub line: u32,
    /// The column, from 1, in bytes.
    pub col: u32,
}
