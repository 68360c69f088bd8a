//! The words of commands.

ghost use Rattle.std.specs.Prelude.{◌≡◌, ◌≢◌, ℕ, List, IfSome, IfNone};
ghost use Rattle.std.specs.Char.{is_ascii_alphanumeric};
ghost use Rattle.ds_names.specs.Run.{Begins};
ghost use Rattle.script_commands.specs.Words.{all_words, text_of};
ghost use Rattle.script_commands.specs.declared.word.Word.{Word};

use crate::fast::{is_offer, is_publish, is_retrieve};
use ds_line::word_at;

/// The word of a command.
#[derive(Clone, Copy)]
pub enum Word {
    Offer,
    Show,
    All,
    Publish,
    Delete,
    Sweep,
    Retrieve,
    NameOf,
    Subscribe,
    Check,
    Map,
    Entries,
    Ring,
    Side,
    Clear,
    Restart,
    Deliver,
    Since,
    Snapshot,
    Page,
    Settings,
    Service,
    Death,
    Beat,
    Tick,
    Assign,
    Follow,
    Submit,
    Reply,
}

/// Returns the command's word at the front, and what follows it. The word is the longest run of letters and digits
/// there; `None` if no command has that word.
#[inline(always)]
pub(crate) fn word_front(line: &[u8]) -> Option<(Word, &[u8])>
    ensures found { IfSome result (λ r. Begins is_ascii_alphanumeric line.now (text_of r.0) r.1.now) }
    ensures none { IfNone result ((word : Word) (rest : List ℕ) → ¬ Begins is_ascii_alphanumeric line.now (text_of word) rest) }
{
    if let Some((word, rest)) = common_front(line) {
        return Some((word, rest));
    }
    let (text, rest) = word_at(line);
    let Some(word) = word_of(text) else {
        return None;
    };
    Some((word, rest))
}

// Returns the word at the front, if it is one of the three most frequent ones and a space follows it. `None` decides
// nothing.
#[inline(always)]
fn common_front(line: &[u8]) -> Option<(Word, &[u8])>
    ensures { IfSome result (λ r. Begins is_ascii_alphanumeric line.now (text_of r.0) r.1.now) }
{
    if is_offer(line) {
        Some((Word::Offer, &line[5..]))
    } else if is_publish(line) {
        Some((Word::Publish, &line[7..]))
    } else if is_retrieve(line) {
        Some((Word::Retrieve, &line[8..]))
    } else {
        None
    }
}

// Returns the word with this text.
fn word_of(text: &[u8]) -> Option<Word>
    ensures found { IfSome result (λ word. text.now ≡ text_of word) }
    ensures none { IfNone result ((word : Word) → text.now ≢ text_of word) }
{
    for word in all_words() {
        if text == text_of(*word) {
            return Some(*word);
        }
    }
    None
}

// Returns the words, each once, the most frequent ones first.
fn all_words() -> &'static [Word]
    ensures { result.now ≡ all_words }
{
    &[
        Word::Offer,
        Word::Publish,
        Word::Retrieve,
        Word::Check,
        Word::NameOf,
        Word::Deliver,
        Word::Since,
        Word::Page,
        Word::Show,
        Word::All,
        Word::Delete,
        Word::Sweep,
        Word::Subscribe,
        Word::Map,
        Word::Entries,
        Word::Ring,
        Word::Side,
        Word::Clear,
        Word::Restart,
        Word::Snapshot,
        Word::Settings,
        Word::Service,
        Word::Death,
        Word::Beat,
        Word::Tick,
        Word::Assign,
        Word::Follow,
        Word::Submit,
        Word::Reply,
    ]
}

fn text_of(word: Word) -> &'static [u8]
    ensures { result.now ≡ text_of word }
{
    match word {
        Word::Offer => b"offer",
        Word::Show => b"show",
        Word::All => b"all",
        Word::Publish => b"publish",
        Word::Delete => b"delete",
        Word::Sweep => b"sweep",
        Word::Retrieve => b"retrieve",
        Word::NameOf => b"nameof",
        Word::Subscribe => b"subscribe",
        Word::Check => b"check",
        Word::Map => b"map",
        Word::Entries => b"entries",
        Word::Ring => b"ring",
        Word::Side => b"side",
        Word::Clear => b"clear",
        Word::Restart => b"restart",
        Word::Deliver => b"deliver",
        Word::Since => b"since",
        Word::Snapshot => b"snapshot",
        Word::Page => b"page",
        Word::Settings => b"settings",
        Word::Service => b"service",
        Word::Death => b"death",
        Word::Beat => b"beat",
        Word::Tick => b"tick",
        Word::Assign => b"assign",
        Word::Follow => b"follow",
        Word::Submit => b"submit",
        Word::Reply => b"reply",
    }
}
