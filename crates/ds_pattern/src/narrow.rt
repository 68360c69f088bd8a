//! Patterns reduced to what matters for names.
//!
//! A name is ASCII, and no caller needs the position of a group. So a class keeps only its characters below 128, a word
//! boundary is one of ASCII words, and a capture group becomes its content. Then `\w` has four ranges instead of 700, and
//! `\b` looks at two bytes instead of two characters.

ghost use Rattle.std.specs.Prelude.{map, IfOk, IsFalse};
ghost use Rattle.regex_hir.specs.Meaning.{meaning};
ghost use Rattle.regex_nfa.specs.Sides.{is_unicode_look};
ghost use Rattle.ds_pattern.specs.Narrow.{EachSame, HoldsInAscii, SameAscii, SameInAscii};

use regex_class::Class;
use regex_hir::{Hir, Look};
use std::alloc::{AllocError, Global};

/// The last character of ASCII.
const LAST_ASCII: u32 = 0x7f;

/// Returns a tree that matches the same names, with classes and assertions of ASCII and without groups.
#[cycle(narrowed)]
pub(crate) fn narrowed(alloc: Global, tree: &Hir) -> Result<Hir, AllocError>
    ensures { IfOk result (λ new. SameInAscii (meaning new) (meaning tree.now)) }
{
    match tree {
        Hir::Empty => Ok(Hir::Empty),
        Hir::Literal(bytes) => Ok(Hir::Literal(Vec::from_slice(alloc, bytes)?)),
        Hir::Bytes(class) => Ok(Hir::Bytes(class.clone()?)),
        Hir::Chars(class) => Ok(Hir::Chars(of_ascii(alloc, class)?)),
        Hir::Look(look) => Ok(Hir::Look(look_of_ascii(*look))),
        Hir::Repetition {
            min,
            max,
            greedy,
            sub,
        } => Ok(Hir::Repetition {
            min: *min,
            max: *max,
            greedy: *greedy,
            sub: Box::new(alloc, narrowed(alloc, sub)?)?,
        }),
        Hir::Capture { sub, .. } => narrowed(alloc, sub),
        Hir::Concat(subs) => Ok(Hir::Concat(all_narrowed(alloc, subs)?)),
        Hir::Alternation(subs) => Ok(Hir::Alternation(all_narrowed(alloc, subs)?)),
    }
}

// Applies `narrowed` to each of the trees.
#[cycle(narrowed)]
fn all_narrowed(alloc: Global, trees: &[Hir]) -> Result<Vec<Hir>, AllocError>
    ensures { IfOk result (λ new. EachSame (map meaning new.items) (map meaning trees.now)) }
{
    let mut all = Vec::new(alloc);
    for i in 0..trees.len() {
        all.push(narrowed(alloc, &trees[i])?)?;
    }
    Ok(all)
}

// Returns the assertion about ASCII words in place of one about words. It looks at bytes only.
fn look_of_ascii(look: Look) -> Look
    ensures holds { HoldsInAscii result look }
    ensures bytes { IsFalse (is_unicode_look result) }
{
    match look {
        Look::WordUnicode => Look::WordAscii,
        Look::WordUnicodeNegate => Look::WordAsciiNegate,
        Look::WordStartUnicode => Look::WordStartAscii,
        Look::WordEndUnicode => Look::WordEndAscii,
        Look::WordStartHalfUnicode => Look::WordStartHalfAscii,
        Look::WordEndHalfUnicode => Look::WordEndHalfAscii,
        _ => look,
    }
}

// Returns the class with only its characters below 128.
fn of_ascii(alloc: Global, class: &Class) -> Result<Class, AllocError>
    ensures { IfOk result (λ new. SameAscii new.ranges.items class.now.ranges.items) }
{
    let mut ranges = Vec::new(alloc);
    for i in 0..class.ranges.len() {
        let (first, last) = class.ranges[i];
        if first <= LAST_ASCII {
            ranges.push((first, last.min(LAST_ASCII)))?;
        }
    }
    Class::new(ranges)
}
