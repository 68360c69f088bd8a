//! Reading the line of a change.

ghost use Rattle.std.specs.Prelude.{◌≡◌, ◌≢◌, ℕ, List, [], ◌∷◌, ◌++◌, length, take, IfOk, IfErr};
ghost use Rattle.std.specs.Fmt.{decimal};
ghost use Rattle.ds_names.specs.declared.kind.Kind.TheVariants.{Label};
ghost use Rattle.ds_entry.specs.Change.{change_of, IsChange};
ghost use Rattle.ds_entry.specs.declared.body.Body.TheVariants.{Gone};
ghost use Rattle.ds_line.specs.Part.{byte};
ghost use Rattle.ds_line.specs.Spelling.{spelling};
ghost use Rattle.ds_line.specs.FaultPlace.{IsFaultIn};
ghost use Rattle.ds_line.specs.Reading.{HasOwner, HasVersion, HasBody, HasValue, up_to_kind};
ghost use Rattle.ds_line.specs.Reading.{up_to_epoch, up_to_mark, up_to_value, with_body, ReadsChange, ReadsChangeLine, ReadsInto};

use crate::expected::Expected;
use crate::fault::LineFault;
use crate::last_value::last_value_at;
use crate::part_fault::{PartFault, stop_at};
use crate::parts::kind_at;
use crate::rules::{has_body, has_owner, has_seq, has_tombstone, has_value, has_version};
use ds_entry::{Body, Change, Item, Value};
use ds_names::limits::{LAST_GENERATION, LAST_SEQ};
use ds_names::{
    Endpoint, Generation, Key, Kind, Name, Version, read_byte, read_decimal, read_endpoint,
};
use std::alloc::Global;

/// Reads the change whose line is at the front, and returns it with the line's length, newline included.
///
/// Refuses bytes that don't begin with a change's line as BadLine, with the place of the first part that can't be read.
/// Then reports NoRoom if memory runs out, which only a put of a text or a blob that isn't empty takes.
pub fn read_change(alloc: Global, bytes: &[u8]) -> Result<(Change, usize), LineFault>
    ensures line { IfOk result (λ r. IsChange r.0) }
    ensures found { IfOk result (λ r. take r.1 bytes.now ≡ spelling r.0) }
    ensures length { IfOk result (λ r. r.1 ≡ length (spelling r.0)) }
    ensures fault { IfErr result (λ fault. IsFaultIn fault bytes.now) }
{
    let mut expected = Expected::Name;
    read_change_noting(alloc, bytes, &mut expected)
}

// Like `read_change`, and notes each part before it reads it. At BadLine, the note is the part that begins at the place.
fn read_change_noting(
    alloc: Global,
    bytes: &[u8],
    expected: &mut Expected,
) -> Result<(Change, usize), LineFault>
    ensures line { IfOk result (λ r. IsChange r.0) }
    ensures found { IfOk result (λ r. take r.1 bytes.now ≡ spelling r.0) }
    ensures length { IfOk result (λ r. r.1 ≡ length (spelling r.0)) }
    ensures fault { IfErr result (λ fault. IsFaultIn fault bytes.now) }
{
    let mut slot = None;
    let length = change_into(alloc, bytes, expected, &mut slot)?;
    match slot {
        Some(Item::Change(change)) => Ok((change, length)),
        _ => unreachable!(),
    }
}

/// Like `read_change_noting`, but stores the change in `slot` and returns the line's length. So no change is copied from
/// reader to caller.
pub(crate) fn change_into(
    alloc: Global,
    bytes: &[u8],
    expected: &mut Expected,
    slot: &mut Option<Item>,
) -> Result<usize, LineFault>
    ensures { ReadsChangeLine bytes.now result slot.new }
{
    let left = match change_at(alloc, bytes, expected, slot) {
        Ok(left) => left,
        Err(PartFault::BadPart { left }) => {
            let place = bytes.len() - left;
            return Err(LineFault::BadLine { place });
        }
        Err(PartFault::NoRoom) => return Err(LineFault::NoRoom),
    };
    let length = bytes.len() - left;
    Ok(length)
}

// Each reader below returns the number of bytes after the change's line, or the number of bytes from the first part on
// that can't be read. It stores the change in `slot`, or returns the body. Each name is read into one variable and copied
// once, into the change in `slot`.

// Reads a change from its name on.
fn change_at(
    alloc: Global,
    bytes: &[u8],
    expected: &mut Expected,
    slot: &mut Option<Item>,
) -> Result<usize, PartFault>
    ensures { ReadsInto [] bytes.now result slot.new }
{
    *expected = Expected::Name;
    let mut key = Key {
        name: Name::rs(),
        kind: Kind::Label,
    };
    let Some(rest) = key.name.read_front(bytes) else {
        return Err(stop_at(bytes));
    };
    *expected = Expected::Space;
    let Some(at) = read_byte(rest, b' ') else {
        return Err(stop_at(rest));
    };
    *expected = Expected::Kind;
    let Some((kind, rest)) = kind_at(at) else {
        return Err(stop_at(at));
    };
    key.kind = kind;
    if !has_owner(&key) {
        return Err(stop_at(at));
    }
    owner_at(alloc, &key, rest, expected, slot)
}

// Reads a change from the space after its kind on.
fn owner_at(
    alloc: Global,
    key: &Key,
    bytes: &[u8],
    expected: &mut Expected,
    slot: &mut Option<Item>,
) -> Result<usize, PartFault>
    requires { HasOwner key.now }
    ensures { ReadsInto (up_to_kind key.now) bytes.now result slot.new }
{
    *expected = Expected::Space;
    let Some(at) = read_byte(bytes, b' ') else {
        return Err(stop_at(bytes));
    };
    *expected = Expected::Owner;
    let mut owner = Name::rs();
    let Some(rest) = owner.read_front(at) else {
        return Err(stop_at(at));
    };
    if !has_version(key, &owner) {
        return Err(stop_at(at));
    }
    *expected = Expected::Space;
    let Some(rest) = read_byte(rest, b' ') else {
        return Err(stop_at(rest));
    };
    version_at(alloc, key, &owner, rest, expected, slot)
}

// Reads a change from its epoch on.
fn version_at(
    alloc: Global,
    key: &Key,
    owner: &Name,
    bytes: &[u8],
    expected: &mut Expected,
    slot: &mut Option<Item>,
) -> Result<usize, PartFault>
    requires { HasVersion key.now owner.now }
    ensures { ReadsInto (up_to_epoch key.now owner.now) bytes.now result slot.new }
{
    *expected = Expected::Epoch;
    let Some((number, rest)) = read_decimal(bytes, LAST_GENERATION as u64) else {
        return Err(stop_at(bytes));
    };
    let Some(epoch) = Generation::of(number as u32) else {
        return Err(stop_at(bytes));
    };
    if !has_seq(key, owner, epoch) {
        return Err(stop_at(bytes));
    }
    *expected = Expected::Dot;
    let Some(at) = read_byte(rest, b'.') else {
        return Err(stop_at(rest));
    };
    *expected = Expected::Seq;
    let Some((seq, rest)) = read_decimal(at, LAST_SEQ as u64) else {
        return Err(stop_at(at));
    };
    let version = Version {
        epoch,
        seq: seq as u32,
    };
    if !has_body(key, owner, &version) {
        return Err(stop_at(at));
    }
    *expected = Expected::Space;
    let Some(rest) = read_byte(rest, b' ') else {
        return Err(stop_at(rest));
    };
    match body_at(alloc, key, owner, version, rest, expected) {
        Ok((body, left)) => {
            Change::put_into(slot, key, owner, version, body);
            Ok(left)
        }
        Err(stop) => Err(stop),
    }
}

// Reads a change from its mark on.
fn body_at(
    alloc: Global,
    key: &Key,
    owner: &Name,
    version: Version,
    bytes: &[u8],
    expected: &mut Expected,
) -> Result<(Body, usize), PartFault>
    requires { HasBody key.now owner.now version }
    ensures { ReadsChange (up_to_mark key.now owner.now version) bytes.now (with_body key.now owner.now version result) }
{
    *expected = Expected::Mark;
    if has_value(key, owner, &version) {
        if let Some(rest) = read_byte(bytes, b'=') {
            return put_at(alloc, key, owner, version, rest, expected);
        }
    }
    if has_tombstone(key, owner, &version) {
        if let Some(rest) = read_byte(bytes, b'-') {
            return gone_at(key, owner, version, rest, expected);
        }
    }
    Err(stop_at(bytes))
}

// Reads a tombstone from its newline on.
fn gone_at(
    key: &Key,
    owner: &Name,
    version: Version,
    bytes: &[u8],
    expected: &mut Expected,
) -> Result<(Body, usize), PartFault>
    requires { IsChange (change_of key.now owner.now version Gone) }
    ensures { ReadsChange (up_to_mark key.now owner.now version ++ byte 45 ∷ []) bytes.now (with_body key.now owner.now version result) }
{
    *expected = Expected::End;
    let Some(rest) = read_byte(bytes, b'\n') else {
        return Err(stop_at(bytes));
    };
    Ok((Body::Gone, rest.len()))
}

// Reads a put from the space before its value on.
fn put_at(
    alloc: Global,
    key: &Key,
    owner: &Name,
    version: Version,
    bytes: &[u8],
    expected: &mut Expected,
) -> Result<(Body, usize), PartFault>
    requires { HasValue key.now owner.now version }
    ensures { ReadsChange (up_to_mark key.now owner.now version ++ byte 61 ∷ []) bytes.now (with_body key.now owner.now version result) }
{
    *expected = Expected::Space;
    let Some(rest) = read_byte(bytes, b' ') else {
        return Err(stop_at(bytes));
    };
    if key.kind.is_label() {
        label_at(key, owner, version, rest, expected)
    } else {
        other_at(alloc, key, owner, version, rest, expected)
    }
}

// Reads a label's put from its endpoint on.
fn label_at(
    key: &Key,
    owner: &Name,
    version: Version,
    bytes: &[u8],
    expected: &mut Expected,
) -> Result<(Body, usize), PartFault>
    requires kind { key.now.kind ≡ Label }
    requires value { HasValue key.now owner.now version }
    ensures { ReadsChange (up_to_value key.now owner.now version) bytes.now (with_body key.now owner.now version result) }
{
    *expected = Expected::Value(key.kind);
    let Some((generation, slot, rest)) = read_endpoint(bytes) else {
        return Err(stop_at(bytes));
    };
    if generation != version.epoch.number() {
        return Err(stop_at(bytes));
    }
    let Some(endpoint) = Endpoint::of(version.epoch, slot) else {
        return Err(stop_at(bytes));
    };
    *expected = Expected::End;
    let Some(rest) = read_byte(rest, b'\n') else {
        return Err(stop_at(rest));
    };
    Ok((Body::Put(Value::Label(endpoint)), rest.len()))
}

// Reads a put of a number, a text or a blob from its value on.
fn other_at(
    alloc: Global,
    key: &Key,
    owner: &Name,
    version: Version,
    bytes: &[u8],
    expected: &mut Expected,
) -> Result<(Body, usize), PartFault>
    requires kind { key.now.kind ≢ Label }
    requires value { HasValue key.now owner.now version }
    ensures { ReadsChange (up_to_value key.now owner.now version) bytes.now (with_body key.now owner.now version result) }
{
    match last_value_at(alloc, key.kind, bytes, expected) {
        Ok((value, rest)) => Ok((Body::Put(value), rest.len())),
        Err(stop) => Err(stop),
    }
}
