//! A line typed at a terminal, in the spelling of a script's.

ghost use Rattle.std.specs.Prelude.{◌≡◌, ◌≤◌, length};
ghost use Rattle.typed_text.specs.Respelling.{word_length, lowered, spaces_kept, IsCutAt};

/// Puts a typed line without its newline into the spelling of scripts, and returns how many of its bytes are left.
///
/// The letters at its front are put into lower case, and the blanks at its end are left out. One space is kept where a
/// script may have it: after `=`, whose value may have no bytes, and after `settings`.
pub fn respell(line: &mut [u8]) -> usize
    ensures few { result ≤ length line.old }
    ensures lowered { line.new ≡ lowered line.old }
    ensures ends { IsCutAt line.new result }
{
    let word = word_length(line);
    line[..word].make_ascii_lowercase();
    length_kept(line)
}

// Returns the count of letters at the front of a line.
fn word_length(line: &[u8]) -> usize
    ensures { result ≡ word_length line.now }
{
    line.iter()
        .take_while(|byte| byte.is_ascii_alphabetic())
        .count()
}

// Returns how many bytes of a line are kept.
fn length_kept(line: &[u8]) -> usize
    ensures few { result ≤ length line.now }
    ensures ends { IsCutAt line.now result }
{
    let bare = line.trim_ascii_end();
    let blanks = &line[bare.len()..];
    bare.len() + spaces_kept(bare, blanks)
}

// Returns how many spaces are kept of the blanks after a line.
fn spaces_kept(bare: &[u8], blanks: &[u8]) -> usize
    ensures few { result ≤ length blanks.now }
    ensures count { result ≡ spaces_kept bare.now blanks.now }
{
    let may_end_in_space = bare.ends_with(b"=") || bare == b"settings".as_slice();
    if may_end_in_space && blanks.starts_with(b" ") {
        1
    } else {
        0
    }
}
