//! The lines of the section.

/// The test of a line.
#[derive(Clone, Copy)]
pub(crate) enum Line {
    /// `CALLERS FOLLOWERS CALLS`
    Share(Sizes),
    /// `notice`
    Notice,
    /// `exchange`
    Exchange,
}

/// The numbers of threads that call RS and its store, 1 to 32, and that follow the store, 0 to 32, and the number of calls of each.
#[derive(Clone, Copy)]
pub(crate) struct Sizes {
    pub callers: u32,
    pub followers: u32,
    pub calls: u32,
}

/// Reads a test's line. Returns `None` for any other.
pub(crate) fn read_line(line: &str) -> Option<Line> {
    match line {
        "notice" => Some(Line::Notice),
        "exchange" => Some(Line::Exchange),
        _ => read_sizes(line).map(Line::Share),
    }
}

fn read_sizes(line: &str) -> Option<Sizes> {
    let (callers, rest) = line.split_once(' ')?;
    let (followers, calls) = rest.split_once(' ')?;
    let callers = callers.parse::<u32>().ok()?;
    let followers = followers.parse::<u32>().ok()?;
    let calls = calls.parse::<u32>().ok()?;
    if callers == 0 || callers > 32 || followers > 32 {
        return None;
    }
    Some(Sizes {
        callers,
        followers,
        calls,
    })
}
