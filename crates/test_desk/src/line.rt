//! The lines of the section.

use crate::rows::{BITS, LAST, NOTICE, Row};

/// The test of a line.
#[derive(Clone, Copy)]
pub(crate) enum Line {
    /// Calls of a counter by threads, compared with one thread's.
    Counter(Sizes),
    /// Calls of a store by threads, compared with one thread's.
    Store(Sizes),
    /// Overwrites of a store's labels by threads, without a comparison.
    Overwrite(Sizes),
    /// Overwrites of one label by each of two threads, this number of times.
    Labels(u32),
    /// Looks of one pass, this number of times.
    Front(u32),
    /// Takes of one pass, this number of times.
    Take(u32),
    /// Two passes that call a store, row by row.
    Rows(&'static [Row]),
    /// Desks that can't be opened.
    NoDesk,
}

/// The number of threads, 1 to 64, and the number of calls that each makes.
#[derive(Clone, Copy)]
pub(crate) struct Sizes {
    pub threads: u32,
    pub calls: u32,
}

/// Reads a line. Returns `None` for any other line.
pub(crate) fn read_line(line: &str) -> Option<Line> {
    let Some((word, rest)) = line.split_once(' ') else {
        return read_row(line);
    };
    match word {
        "counter" => read_sizes(rest).map(Line::Counter),
        "store" => read_sizes(rest).map(Line::Store),
        "overwrite" => read_sizes(rest).map(Line::Overwrite),
        "labels" => rest.parse().ok().map(Line::Labels),
        "front" => rest.parse().ok().map(Line::Front),
        "take" => rest.parse().ok().map(Line::Take),
        _ => None,
    }
}

fn read_row(word: &str) -> Option<Line> {
    match word {
        "notice" => Some(Line::Rows(&NOTICE)),
        "last" => Some(Line::Rows(&LAST)),
        "bits" => Some(Line::Rows(&BITS)),
        "none" => Some(Line::NoDesk),
        _ => None,
    }
}

fn read_sizes(words: &str) -> Option<Sizes> {
    let (threads, calls) = words.split_once(' ')?;
    let threads = threads.parse::<u32>().ok()?;
    if threads == 0 || threads > 64 {
        return None;
    }
    let calls = calls.parse::<u32>().ok()?;
    Some(Sizes { threads, calls })
}
