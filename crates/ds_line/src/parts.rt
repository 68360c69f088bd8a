//! Parts at the front of bytes.

ghost use Rattle.std.specs.Prelude.{◌≡◌, ◌≢◌, ◌≤◌, ◌++◌, List, ℕ, IfSome, IfNone, IsTrue, length, drop};
ghost use Rattle.std.specs.List.{prefix_len, list_all};
ghost use Rattle.std.specs.Char.{is_ascii_alphanumeric, is_ascii_digit};
ghost use Rattle.ds_names.specs.Endpoint.{IsEndpoint, NoEndpointBegins, endpoint_text};
ghost use Rattle.ds_names.specs.Name.{is_name_byte, IsName};
ghost use Rattle.ds_names.specs.Run.{Begins};
ghost use Rattle.ds_names.specs.declared.kind.Kind.{Kind};
ghost use Rattle.ds_line.specs.Spelling.{kind_word};

use ds_names::{Endpoint, Generation, Kind, Name, read_endpoint};

/// Reads the name at the front, the longest run of name bytes. Returns `None` if that run isn't a name.
///
/// This reader and the next ones are for callers that read lines of their own.
pub fn name_at(bytes: &[u8]) -> Option<Name>
    ensures found { IfSome result (λ name. Begins is_name_byte bytes.now name (drop (length name) bytes.now)) }
    ensures name { IfSome result IsName }
    ensures none { IfNone result ((name rest : List ℕ) → IsName name → ¬ Begins is_name_byte bytes.now name rest) }
{
    Name::front(bytes)
}

/// Returns the bytes after a name at the front.
pub fn after_name<'a>(bytes: &'a [u8], name: &Name) -> &'a [u8]
    requires { length name.now ≤ length bytes.now }
    ensures { result.now ≡ drop (length name.now) bytes.now }
{
    &bytes[name.bytes().len()..]
}

// Each letter and digit is at its own index. A comma is at every other index.
static WORD_BYTES: [u8; 256] = *b"\
    ,,,,,,,,,,,,,,,,,,,,,,,,,,,,,,,,\
    ,,,,,,,,,,,,,,,,0123456789,,,,,,\
    ,ABCDEFGHIJKLMNOPQRSTUVWXYZ,,,,,\
    ,abcdefghijklmnopqrstuvwxyz,,,,,\
    ,,,,,,,,,,,,,,,,,,,,,,,,,,,,,,,,\
    ,,,,,,,,,,,,,,,,,,,,,,,,,,,,,,,,\
    ,,,,,,,,,,,,,,,,,,,,,,,,,,,,,,,,\
    ,,,,,,,,,,,,,,,,,,,,,,,,,,,,,,,,";

// Returns whether a word may have the byte.
#[inline]
fn is_word_byte(b: u8) -> bool
    ensures { result ≡ is_ascii_alphanumeric b }
{
    WORD_BYTES[usize::from(b)] != b','
}

// Returns the count of letters and digits at the front.
fn word_len(bytes: &[u8]) -> usize
    ensures { result ≡ prefix_len is_ascii_alphanumeric bytes.now }
{
    bytes.iter().take_while(|b| is_word_byte(**b)).count()
}

/// Returns the word at the front, which is the longest run of letters and digits and may be empty, and the bytes after it.
pub fn word_at(bytes: &[u8]) -> (&[u8], &[u8])
    ensures found { Begins is_ascii_alphanumeric bytes.now result.0.now result.1.now }
    ensures valid { IsTrue (list_all is_ascii_alphanumeric result.0.now) }
{
    bytes.split_at(word_len(bytes))
}

// Returns the kind whose word the bytes begin with, and the bytes after it. No kind's word begins another's.
#[inline(always)]
fn kind_front(bytes: &[u8]) -> Option<(Kind, &[u8])>
    ensures found { IfSome result (λ r. bytes.now ≡ kind_word r.0 ++ r.1.now) }
    ensures none { IfNone result ((kind : Kind) (rest : List ℕ) → bytes.now ≢ kind_word kind ++ rest) }
{
    if let Some(rest) = bytes.strip_prefix(b"label") {
        Some((Kind::Label, rest))
    } else if let Some(rest) = bytes.strip_prefix(b"u32") {
        Some((Kind::U32, rest))
    } else if let Some(rest) = bytes.strip_prefix(b"str") {
        Some((Kind::Str, rest))
    } else if let Some(rest) = bytes.strip_prefix(b"mem") {
        Some((Kind::Mem, rest))
    } else {
        None
    }
}

/// Reads the word of a kind at the front, and returns the kind with the bytes after it. `None` if the longest run of
/// letters and digits isn't a kind's word.
#[inline(always)]
pub fn kind_at(bytes: &[u8]) -> Option<(Kind, &[u8])>
    ensures found { IfSome result (λ r. Begins is_ascii_alphanumeric bytes.now (kind_word r.0) r.1.now) }
    ensures none { IfNone result ((kind : Kind) (rest : List ℕ) → ¬ Begins is_ascii_alphanumeric bytes.now (kind_word kind) rest) }
{
    let Some((kind, rest)) = kind_front(bytes) else {
        return None;
    };
    match rest.first() {
        Some(next) if is_word_byte(*next) => None,
        _ => Some((kind, rest)),
    }
}

/// Reads the endpoint at the front, and returns it with the bytes after it. `None` if the bytes don't begin with one.
pub fn endpoint_at(bytes: &[u8]) -> Option<(Endpoint, &[u8])>
    ensures found { IfSome result (λ r. Begins is_ascii_digit bytes.now (endpoint_text r.0) r.1.now) }
    ensures valid { IfSome result (λ r. IsEndpoint r.0) }
    ensures none { IfNone result (NoEndpointBegins bytes.now) }
{
    let (generation, slot, rest) = read_endpoint(bytes)?;
    let endpoint = Endpoint::of(Generation::of(generation)?, slot)?;
    Some((endpoint, rest))
}
