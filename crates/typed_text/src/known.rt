//! The known word that is nearest to an unknown one.

use std::fmt;

/// A search for the nearest known word.
#[derive(Clone, Copy)]
pub struct Search<'a> {
    word: &'a [u8],
    best: Option<&'static str>,
    fewest: usize,
}

impl<'a> Search<'a> {
    /// Begins a search for this word, with no known words yet.
    pub fn to(word: &'a [u8]) -> Search<'a> {
        Search {
            word,
            best: None,
            fewest: usize::MAX,
        }
    }

    /// Compares one more known word. Of two equally near words the first one stays.
    pub fn compare(&mut self, known: &'static str) {
        let apart = apart(self.word, known.as_bytes());
        if apart < self.fewest {
            self.fewest = apart;
            self.best = Some(known);
        }
    }

    /// Returns the nearest known word, if at most half of that word's bytes differ.
    pub fn found(&self) -> Option<&'static str> {
        let fewest = self.fewest;
        self.best.filter(|it| fewest <= it.len() / 2)
    }
}

/// Returns the nearest of these words, if at most half of the nearest one's bytes differ.
pub fn nearest(word: &[u8], known: &[&'static str]) -> Option<&'static str> {
    let mut search = Search::to(word);
    for it in known {
        search.compare(it);
    }
    search.found()
}

/// The nearest word as the end of a sentence; empty if none is near.
#[derive(Clone, Copy)]
pub struct IfNear<'a>(pub Option<&'a str>);

impl fmt::Display for IfNear<'_> {
    fn fmt<W: fmt::Write>(&self, f: &mut fmt::Formatter<W>) -> fmt::Result {
        match self.0 {
            Some(near) => write!(f, ", the nearest is `{near}`"),
            None => Ok(()),
        }
    }
}

// Returns how many bytes of the longer text are left between the common front and the common end, ignoring case.
fn apart(one: &[u8], other: &[u8]) -> usize {
    let longest = one.len().max(other.len());
    let shortest = one.len().min(other.len());
    let front = one
        .iter()
        .zip(other.iter())
        .take_while(|(a, b)| a.eq_ignore_ascii_case(b))
        .count();
    let back = one
        .iter()
        .rev()
        .zip(other.iter().rev())
        .take_while(|(a, b)| a.eq_ignore_ascii_case(b))
        .count();
    longest.saturating_sub(front.saturating_add(back).min(shortest))
}
