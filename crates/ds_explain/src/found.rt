//! What was found where something else was expected; an invisible byte has a name.

use crate::stray::BYTE_ORDER_MARK;
use std::fmt;
use typed_text::Plain;

/// How many bytes of a word are shown.
const SHOWN: usize = 28;

/// What is at the front of a text.
#[derive(Clone, Copy)]
pub(crate) struct Found<'a>(pub &'a [u8]);

impl fmt::Display for Found<'_> {
    fn fmt<W: fmt::Write>(&self, f: &mut fmt::Formatter<W>) -> fmt::Result {
        if self.0.starts_with(BYTE_ORDER_MARK) {
            return f.write_str("a byte order mark");
        }
        match self.0.first().copied() {
            None | Some(b'\n') => f.write_str("the end of the line"),
            Some(b' ') => f.write_str("a space"),
            Some(b'\t') => f.write_str("a tab"),
            Some(b'\r') => f.write_str("a carriage return"),
            Some(byte) if byte.is_ascii_graphic() => {
                let word = Plain(visible(self.0));
                write!(f, "`{word}`")
            }
            Some(byte) => write!(f, "byte {byte}"),
        }
    }
}

// Returns the visible bytes at the front of a text, as many as are shown.
fn visible(text: &[u8]) -> &[u8] {
    let count = text
        .iter()
        .take_while(|byte| byte.is_ascii_graphic())
        .count();
    &text[..count.min(SHOWN).min(text.len())]
}
