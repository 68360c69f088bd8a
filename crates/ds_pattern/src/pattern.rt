//! Compiled patterns, and what they match.

ghost use Rattle.std.specs.Prelude.{◌≡◌, ◌≤◌, ◌↔◌, IsTrue, IfOk, OnOk, IfErr, is_some, codes, length, string_bytes, vec_len};
ghost use Rattle.regex_vm.specs.Found.{first_match};
ghost use Rattle.regex_hir.specs.declared.hir.Hir.{Hir};
ghost use Rattle.regex_nfa.specs.Sizes.{table_bytes};
ghost use Rattle.ds_pattern.specs.Under.{anchored, is_printable, is_regex, matches_whole, FindsWhole};
ghost use Rattle.ds_pattern.specs.Patterns.{IsPattern, IsPatternFault, IsSyntaxFault, IsReadAs};

use crate::narrow::narrowed;
use crate::query::PatternText;
use ds_names::{Name, NoRoom};
use regex_hir::Hir;
use regex_nfa::Nfa;
use regex_syntax::{Config, ErrorKind};
use regex_vm::PikeVm;
use std::alloc::{AllocError, Global};
use std::marker::Model;
use thiserror::Error;

/// Why a text isn't a pattern. The causes are judged in this order.
#[derive(Clone, Copy, Debug, PartialEq, Eq, Error)]
pub enum PatternFault {
    /// The text has more than 128 bytes.
    #[error("a pattern has at most 128 bytes")]
    TooLong,
    /// A byte isn't printable ASCII, or `regex` refuses the text P or the text `^(?:P)$`: it isn't a regular expression, or
    /// is nested too deep.
    #[error("not a pattern over names")]
    BadPattern,
    /// Out of memory, or the compiled table of the pattern would exceed `SIZE_LIMIT` bytes. May be reported in place of
    /// BadPattern.
    #[error("out of memory")]
    NoRoom,
}

impl From<AllocError> for PatternFault {
    ghost use Rattle.std.specs.Prelude.{◌≡◌};
    ghost use Rattle.ds_pattern.specs.declared.pattern.PatternFault.TheVariants.{NoRoom as no_room};

    ghost from_gives = { λ _ fault. fault ≡ no_room };

    fn from(_refused: AllocError) -> PatternFault {
        PatternFault::NoRoom
    }
}

impl From<regex_compile::Error> for PatternFault {
    ghost use Rattle.std.specs.Prelude.{◌≡◌};
    ghost use Rattle.ds_pattern.specs.declared.pattern.PatternFault.TheVariants.{NoRoom as no_room};

    ghost from_gives = { λ _ fault. fault ≡ no_room };

    fn from(_error: regex_compile::Error) -> PatternFault {
        PatternFault::NoRoom
    }
}

impl From<regex_syntax::Error> for PatternFault {
    ghost use Rattle.ds_pattern.specs.Patterns.{IsRegexFault};

    ghost from_gives = { λ error fault. IsRegexFault error.kind fault };

    fn from(error: regex_syntax::Error) -> PatternFault {
        match error.kind {
            ErrorKind::OutOfMemory => PatternFault::NoRoom,
            _ => PatternFault::BadPattern,
        }
    }
}

/// The most bytes of a pattern.
pub const LONGEST_PATTERN: usize = 128;

/// The most bytes of a compiled pattern's table: 12 for each state of its automaton, and 8 for each range of bytes that
/// leads from one state to another. A table may exceed the limit by 24 bytes. `bench/README.md` has measurements.
pub const SIZE_LIMIT: usize = 12 << 10;

/// A compiled pattern over names. Its text P has at most 128 bytes of printable ASCII, and `regex` accepts both P and
/// `^(?:P)$`. The table of the automaton is within the limit.
#[derive(Drop)]
pub struct Pattern {
    text: String,
    whole: Nfa,
    // Whether the text is `.*`. It matches each name, so its automaton needn't run.
    is_dot_star: bool,
}

impl Model for Pattern {
    ghost use Rattle.std.specs.Prelude.{◌≡◌, ◌≤◌, ◌↔◌, ℕ, List, IsTrue, codes, string_bytes};
    ghost use Rattle.regex_nfa.specs.Sizes.{table_bytes};
    ghost use Rattle.ds_pattern.specs.Under.{FindsWhole};
    ghost use Rattle.ds_pattern.specs.Patterns.{IsPattern};

    ghost Value = { List ℕ };

    ghost view = { λ p. string_bytes p.text };

    ghost invariant = { λ p. IsPattern (string_bytes p.text) × FindsWhole p.whole (string_bytes p.text) × (table_bytes p.whole ≤ 0x3018)
        × (IsTrue p.is_dot_star ↔ (string_bytes p.text ≡ codes ".*")) };
}

impl Pattern {
    /// Checks and compiles the text of a pattern, or returns its first fault.
    #[tactic(auto, using(crate::proofs::RegexLemmas::accepted_of_parts, crate::proofs::RegexLemmas::refused_unprintable))]
    pub fn read(alloc: Global, text: &PatternText) -> Result<Pattern, PatternFault>
        ensures read { IfOk result (λ pattern. pattern ≡ text.now) }
        ensures pattern { IfOk result IsPattern }
        ensures refused { IfErr result (λ fault. IsPatternFault fault text.now) }
    {
        let bytes = text.bytes();
        if bytes.len() > LONGEST_PATTERN {
            return Err(PatternFault::TooLong);
        }
        if !is_printable(bytes) {
            return Err(PatternFault::BadPattern);
        }
        let text = text_of(bytes);
        judge(alloc, text)?;
        let whole = compile(alloc, text)?;
        Ok(Pattern {
            text: String::from_str(alloc, text)?,
            whole,
            is_dot_star: is_dot_star(text),
        })
    }

    /// Returns whether the pattern matches the name whole, as `regex` matches `^(?:P)$` with its default options. Fails only
    /// if memory runs out.
    #[tactic(auto, using(crate::proofs::StarLemmas::dot_star_matches))]
    pub fn matches(&self, alloc: Global, name: &Name) -> Result<bool, NoRoom>
        ensures { IfOk result (λ yes. yes ≡ matches_whole self.now name.now) }
    {
        let bytes = name.bytes();
        if self.is_dot_star {
            return Ok(true);
        }
        let mut machine = PikeVm::new(alloc, &self.whole)?;
        Ok(finds(&self.whole, &mut machine, bytes))
    }

    // Returns the automaton, which finds a match in exactly the names that the pattern matches whole.
    pub(crate) fn whole(&self) -> &Nfa
        ensures { FindsWhole result.now self.now }
    {
        &self.whole
    }

    // Returns whether the pattern is `.*`, which matches each name.
    pub(crate) fn is_dot_star(&self) -> bool
        ensures { IsTrue result ↔ (self.now ≡ codes ".*") }
    {
        self.is_dot_star
    }
}

// Returns whether the automaton finds a match in a name. The machine's buffers suffice, so the call takes no memory.
pub(crate) fn finds(whole: &Nfa, machine: &mut PikeVm, bytes: &[u8]) -> bool
    requires { machine.old.states ≡ vec_len whole.now.states }
    ensures found { result ≡ is_some (first_match whole.now bytes.now (length bytes.now) 0 (length bytes.now)) }
    ensures room { machine.new ≡ machine.old }
{
    machine.is_match(whole, bytes, 0, bytes.len(), bytes.len())
}

// Returns whether all bytes are printable ASCII.
fn is_printable(bytes: &[u8]) -> bool
    ensures { result ≡ is_printable bytes.now }
{
    bytes.iter().all(|b| 0x20 <= *b && *b <= 0x7e)
}

// Returns whether the text is `.*`.
fn is_dot_star(text: &str) -> bool
    ensures { IsTrue result ↔ (text.now ≡ codes ".*") }
{
    text == ".*"
}

// Returns bytes of printable ASCII as a `str`.
#[tactic(auto, using(crate::proofs::PrintableLemmas::utf8_of_printable))]
fn text_of(bytes: &[u8]) -> &str
    requires { IsTrue (is_printable bytes.now) }
    ensures { result.now ≡ bytes.now }
{
    str::from_utf8(bytes).unwrap()
}

// Returns `^(?:P)$`, for the pattern P.
fn anchored(alloc: Global, text: &str) -> Result<String, AllocError>
    ensures { IfOk result (λ whole. string_bytes whole ≡ anchored text.now) }
{
    let mut whole = String::from_str(alloc, "^(?:")?;
    whole.push_str(text)?;
    whole.push_str(")$")?;
    Ok(whole)
}

// Parses the text as a regular expression.
fn tree_of(alloc: Global, text: &str) -> Result<Hir, PatternFault>
    requires { IsTrue (is_printable text.now) }
    ensures read { IfOk result (IsReadAs text.now) }
    ensures refused { IfErr result (λ fault. IsSyntaxFault fault text.now) }
{
    let parsed = regex_syntax::parse(alloc, text, &Config::default())?;
    Ok(parsed.hir)
}

// Refuses a text that isn't a regular expression.
fn judge(alloc: Global, text: &str) -> Result<(), PatternFault>
    requires { IsTrue (is_printable text.now) }
    ensures ok { OnOk result (IsTrue (is_regex text.now)) }
    ensures refused { IfErr result (λ fault. IsSyntaxFault fault text.now) }
{
    let _tree = tree_of(alloc, text)?;
    Ok(())
}

// Compiles `^(?:P)$`, for the pattern P.
fn compile(alloc: Global, text: &str) -> Result<Nfa, PatternFault>
    requires { IsTrue (is_printable text.now) }
    ensures finds { IfOk result (λ whole. FindsWhole whole text.now) }
    ensures small { IfOk result (λ whole. table_bytes whole ≤ 0x3018) }
    ensures ok { OnOk result (IsTrue (is_regex (anchored text.now))) }
    ensures refused { IfErr result (λ fault. IsSyntaxFault fault (anchored text.now)) }
{
    let whole = anchored(alloc, text)?;
    let tree = tree_of(alloc, whole.as_str())?;
    let narrow = narrowed(alloc, &tree)?;
    Ok(regex_compile::compile(alloc, &narrow, 1, SIZE_LIMIT)?)
}
