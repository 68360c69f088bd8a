//! Rows of the help: a word, and what it means, perhaps in further lines.

/// Returns the text between two others, or from the first one to the end.
pub(crate) fn between(text: &'static str, begin: &str, end: &str) -> &'static str {
    let Some((_, rest)) = text.split_once(begin) else {
        return "";
    };
    match rest.split_once(end) {
        Some((part, _)) => part,
        None => rest,
    }
}

/// Returns the word of the row that begins at a line. A row's further lines are indented deeper, and have none.
pub(crate) fn word_of_row(line: &'static str) -> Option<&'static str> {
    let row = line.strip_prefix("  ")?;
    if row.starts_with(' ') {
        return None;
    }
    match row.split_once(' ') {
        Some((word, _)) => Some(word),
        None => Some(row),
    }
}

/// Returns what comes after the word of the row that begins at a line.
pub(crate) fn text_of(line: &'static str) -> &'static str {
    match line.trim().split_once(' ') {
        Some((_, text)) => text.trim(),
        None => "",
    }
}
