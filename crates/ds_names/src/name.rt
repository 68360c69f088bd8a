//! Names of entries and owners.

ghost use Rattle.std.specs.Prelude.{◌≡◌, ℕ, List, ◌*◌, ◌<◌, ◌≤◌, ◌↔◌, length, take, drop, replicate, IsTrue, IfSome, IfNone};
ghost use Rattle.std.specs.List.{prefix_len};
ghost use Rattle.std.specs.Option.{SomeIff};
ghost use Rattle.std.specs.Int.{from_be_bytes, w64};
ghost use Rattle.std.specs.Bool.{◌==◌};
ghost use Rattle.std.proofs.Common.{rules};
ghost use Rattle.std.proofs.lemmas.Cmp.{nat_list_cmp_total, nat_list_eq_equiv};
ghost use Rattle.std.specs.Result.{OkIff};
ghost use Rattle.std.specs.Cmp.{partial_order_from_own_ties, partial_equiv_from_equiv};
ghost use Rattle.std.specs.Cmp.Rules.{comparing};
ghost use Rattle.std.specs.Cmp.Lexicographic.{pointwise, slice_cmp};
ghost use Rattle.std.specs.Ordering.{nat_cmp, as_partial_cmp};
ghost use Rattle.ds_names.specs.Name.{is_name_byte, is_same_name, rs_name, IsName};
ghost use Rattle.ds_names.specs.NameBlock.{filled};
ghost use Rattle.ds_names.specs.Run.{Begins};

use std::cmp::Ordering;
use std::marker::Model;
use thiserror::Error;

/// The error for bytes that aren't a name.
#[derive(Clone, Copy, Debug, PartialEq, Eq, Error)]
pub enum NameFault {
    /// The bytes aren't 1 to 64, each an ASCII letter or digit, `.`, `_` or `-`.
    #[error("a name has 1 to 64 letters, digits, dots, underscores and dashes")]
    BadName,
}

/// The name of an entry or of its owner: 1 to 64 bytes, each an ASCII letter or digit, `.`, `_` or `-`.
///
/// MINIX 3's DS keeps entries under names, and RS calls each service by its label. The alphabet and the length are
/// this project's. A name is kept in place and takes no memory.
#[derive(Clone, Copy, Debug)]
pub struct Name {
    block: [u8; 64],
    len: u8,
}

impl Model for Name {
    ghost use Rattle.std.specs.Prelude.{ℕ, List};

    ghost Value = { List ℕ };

    ghost use Rattle.ds_names.specs.NameBlock.{name_in_block, KeepsName, block_of, block_of-name_of};

    ghost view = { name_in_block };

    ghost invariant = { KeepsName };

    ghost inverse = { block_of };

    ghost inverse_ok = { λ a h. block_of-name_of a h };
}

// Each byte that a name may have is at its own index. A comma is at every other index.
static NAME_BYTES: [u8; 256] = *b"\
    ,,,,,,,,,,,,,,,,,,,,,,,,,,,,,,,,\
    ,,,,,,,,,,,,,-.,0123456789,,,,,,\
    ,ABCDEFGHIJKLMNOPQRSTUVWXYZ,,,,_\
    ,abcdefghijklmnopqrstuvwxyz,,,,,\
    ,,,,,,,,,,,,,,,,,,,,,,,,,,,,,,,,\
    ,,,,,,,,,,,,,,,,,,,,,,,,,,,,,,,,\
    ,,,,,,,,,,,,,,,,,,,,,,,,,,,,,,,,\
    ,,,,,,,,,,,,,,,,,,,,,,,,,,,,,,,,";

/// Returns whether a name may contain the byte.
#[inline]
pub fn is_name_byte(b: u8) -> bool
    ensures { result ≡ is_name_byte b }
{
    NAME_BYTES[usize::from(b)] != b','
}

impl Name {
    /// Reads a name. Refuses bytes that aren't one as BadName.
    pub fn read(bytes: &[u8]) -> Result<Name, NameFault>
        ensures { OkIff result (IsName bytes.now) bytes.now }
    {
        match Name::front(bytes) {
            Some(name) if name.bytes().len() == bytes.len() => Ok(name),
            _ => Err(NameFault::BadName),
        }
    }

    /// Reads the name at the front, the longest run of name bytes. Returns `None` if the run is empty or above 64 bytes.
    pub fn front(bytes: &[u8]) -> Option<Name>
        ensures found { IfSome result (λ name. Begins is_name_byte bytes.now name (drop (length name) bytes.now)) }
        ensures name { IfSome result IsName }
        ensures none { IfNone result ((name rest : List ℕ) → IsName name → ¬ Begins is_name_byte bytes.now name rest) }
    {
        let mut block = [0; 64];
        let len = fill(&mut block, bytes)?;
        if len == 0 {
            return None;
        }
        Some(Name {
            block,
            len: len as u8,
        })
    }

    /// Reads the name at the front into `self`, and returns the bytes after it.
    ///
    /// Returns `None` if `front` does; `self` is then some other name. Writes the name once, where `front` copies it.
    #[inline(always)]
    pub fn read_front<'a>(&mut self, bytes: &'a [u8]) -> Option<&'a [u8]>
        ensures found { IfSome result (λ rest. Begins is_name_byte bytes.now self.new rest.now) }
        ensures name { IsName self.new }
        ensures none { IfNone result ((name rest : List ℕ) → IsName name → ¬ Begins is_name_byte bytes.now name rest) }
    {
        self.block = [0; 64];
        match fill(&mut self.block, bytes) {
            Some(len) if len != 0 => {
                self.len = len as u8;
                Some(&bytes[len..])
            }
            _ => {
                self.block = [0; 64];
                self.block[0] = b'-';
                self.len = 1;
                None
            }
        }
    }

    /// Returns `rs`, the label of RS, the reincarnation server.
    pub fn rs() -> Name
        ensures { result ≡ rs_name }
    {
        match Name::read(b"rs") {
            Ok(name) => name,
            Err(_) => unreachable!(),
        }
    }

    /// Returns whether the name is RS's label.
    pub fn is_rs(&self) -> bool
        ensures value { result ≡ is_same_name self.now rs_name }
        ensures same { IsTrue result ↔ (self.now ≡ rs_name) }
        ensures name { IsName self.now }
    {
        self.bytes() == b"rs".as_slice()
    }

    /// Returns the name's bytes, 1 to 64.
    pub fn bytes(&self) -> &[u8]
        ensures value { result.now ≡ self.now }
        ensures name { IsName self.now }
    {
        &self.block[..usize::from(self.len)]
    }
}

// Copies the leading name bytes into a block of zeros, and returns their count. Returns `None` if they don't fit.
#[inline(always)]
fn fill(block: &mut [u8; 64], bytes: &[u8]) -> Option<usize>
    requires { block.old ≡ replicate 64 0 }
    ensures run { let len = prefix_len is_name_byte bytes.now in SomeIff result (len ≤ 64) len }
    ensures filled { IfSome result (λ len. block.new ≡ filled bytes.now len) }
{
    for (at, b) in bytes.iter().enumerate() {
        if !is_name_byte(*b) {
            return Some(at);
        }
        if at == 64 {
            return None;
        }
        block[at] = *b;
    }
    Some(bytes.len())
}

// Compares the blocks of two names as numbers of eight bytes. No name has a zero byte, so the padding doesn't change
// the order.
#[inline]
fn block_order(mine: &[u8; 64], theirs: &[u8; 64]) -> Ordering
    ensures { result ≡ slice_cmp nat_cmp mine.now theirs.now }
{
    for at in 0..8usize {
        let (one, other) = (word_at(mine, at), word_at(theirs, at));
        if one != other {
            return one.cmp(&other);
        }
    }
    Ordering::Equal
}

// Returns the eight bytes from `8 * at` on as a big-endian number.
#[inline(always)]
fn word_at(block: &[u8; 64], at: usize) -> u64
    requires { at < 8 }
    ensures { result ≡ from_be_bytes w64 (take 8 (drop (8 * at) block.now)) }
{
    let Some((word, _)) = block[8 * at..].split_first_chunk::<8>() else {
        unreachable!()
    };
    u64::from_be_bytes(*word)
}

impl PartialEq for Name {
    ghost eq = { pointwise ◌==◌ };

    ghost laws = { partial_equiv_from_equiv nat_list_eq_equiv };

    fn eq(&self, other: &Name) -> bool {
        self.cmp(other).is_eq()
    }
}

impl Eq for Name {
    ghost laws = { nat_list_eq_equiv };
}

impl Ord for Name {
    ghost cmp = { slice_cmp nat_cmp };

    ghost total = { nat_list_cmp_total };

    ghost matches_partial_cmp = { Prim.search (comparing, rules) };

    ghost matches_eq = { Prim.search (comparing, rules) };

    fn cmp(&self, other: &Name) -> Ordering {
        block_order(&self.block, &other.block)
    }
}

impl PartialOrd for Name {
    ghost partial_cmp = { as_partial_cmp (slice_cmp nat_cmp) };

    ghost laws = { partial_order_from_own_ties (Prim.search (comparing, rules)) (Prim.search (comparing, rules)) };

    fn partial_cmp(&self, other: &Name) -> Option<Ordering> {
        Some(self.cmp(other))
    }
}
