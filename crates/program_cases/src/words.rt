// Words and numbers of rows.

/// What stands before the first of these characters, and after it; the whole and nothing if there is none.
pub(crate) fn cut(text: &str, at: char) -> (&str, &str) {
    text.split_once(at).unwrap_or((text, ""))
}

/// The number that a text is, or else another.
pub(crate) fn number_or(text: &str, other: u64) -> u64 {
    text.parse::<u64>().unwrap_or(other)
}
