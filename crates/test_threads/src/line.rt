//! The lines of the section.

/// The test of a line.
#[derive(Clone, Copy)]
pub(crate) enum Line {
    /// `WRITERS FOLLOWERS CALLS`
    Follow(Sizes),
    /// `gates`
    Gates,
    /// `rows`
    Rows,
}

/// The numbers of threads that change the store and that follow it, 1 to 64 together, and the number of calls of each.
#[derive(Clone, Copy)]
pub(crate) struct Sizes {
    pub writers: u32,
    pub followers: u32,
    pub calls: u32,
}

/// Reads a test's line. Returns `None` for any other.
pub(crate) fn read_line(line: &str) -> Option<Line> {
    match line {
        "gates" => Some(Line::Gates),
        "rows" => Some(Line::Rows),
        _ => read_sizes(line).map(Line::Follow),
    }
}

fn read_sizes(line: &str) -> Option<Sizes> {
    let (writers, rest) = line.split_once(' ')?;
    let (followers, calls) = rest.split_once(' ')?;
    let writers = writers.parse::<u32>().ok()?;
    let followers = followers.parse::<u32>().ok()?;
    let calls = calls.parse::<u32>().ok()?;
    if writers == 0 || writers > 32 || followers == 0 || followers > 32 {
        return None;
    }
    Some(Sizes {
        writers,
        followers,
        calls,
    })
}
