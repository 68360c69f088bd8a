//! Tests of reply lines. Those for out of memory come before the store is called, since a legal trace may have them at any
//! time.

ghost use Rattle.std.specs.Prelude.{◌≡◌, ◌≢◌, ◌≤◌, ◌↔◌, ◌∷◌, ℕ, IfSome, IfNone, IsTrue};
ghost use Rattle.trace_walk.specs.Noroom.{noroom_line, stopped_line};

use crate::number::number_at;

/// Returns whether the line refuses the command for lack of memory.
pub fn is_noroom(line: &[u8]) -> bool
    ensures { IsTrue result ↔ (line.now ≡ noroom_line) }
{
    line == b"< refused noroom\n".as_slice()
}

/// Returns how many items are done, if the line stops a Merge for lack of memory.
pub fn stopped_at(line: &[u8]) -> Option<u64>
    ensures found { IfSome result (λ done. (done ≤ 255) × (line.now ≡ stopped_line done)) }
    ensures none { IfNone result ((done : ℕ) → done ≤ 255 → line.now ≢ stopped_line done) }
{
    if !line.starts_with(b"< stopped ") {
        return None;
    }
    let (done, rest) = number_at(&line[10..], 255, b' ')?;
    if rest != b"noroom\n".as_slice() {
        return None;
    }
    Some(done)
}

/// Returns whether `line` is `< ` and then `said`, newlines included.
pub fn is_marked(line: &[u8], said: &[u8]) -> bool
    ensures { IsTrue result ↔ (line.now ≡ 60 ∷ 32 ∷ said.now) }
{
    line.starts_with(b"< ") && &line[2..] == said
}
