//! Bytes for a terminal.

use std::fmt;

/// Bytes for a terminal, one column each: a byte that isn't printable ASCII is shown as `?`.
#[derive(Clone, Copy)]
pub struct Plain<'a>(pub &'a [u8]);

impl fmt::Display for Plain<'_> {
    fn fmt<W: fmt::Write>(&self, f: &mut fmt::Formatter<W>) -> fmt::Result {
        for byte in self.0 {
            let shown = if byte.is_ascii_graphic() || *byte == b' ' {
                *byte as char
            } else {
                '?'
            };
            f.write_char(shown)?;
        }
        Ok(())
    }
}
