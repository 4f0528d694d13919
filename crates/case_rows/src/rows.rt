// Lines of a table.

/// What stands between a row and its answer.
pub const ANSWER: &str = "  →  ";

/// Whether a line is a row. Empty lines and those that begin with `#` are none: a program writes them as they are, so that
/// line N of its output is of line N of its input.
pub fn is_row(line: &str) -> bool {
    !line.is_empty() && !line.starts_with('#')
}

/// The word that a row begins with, and its text behind the blanks; none if the line isn't a row.
pub fn row_of(line: &str) -> Option<(&str, &str)> {
    if !is_row(line) {
        return None;
    }
    Some(match line.split_once(' ') {
        Some((word, text)) => (word, text.trim_start()),
        None => (line, ""),
    })
}
