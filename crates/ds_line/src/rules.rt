//! Tests whether some change has the parts that were read so far.
//!
//! They fail by the rules of labels, and for the greatest sequence number, which only tombstones of sweeps have.

ghost use Rattle.std.specs.Prelude.{◌≡◌, ◌≤◌, ◌^◌, ◌<◌, ◌↔◌, IsTrue};
ghost use Rattle.ds_names.specs.Name.{IsName, rs_name};
ghost use Rattle.ds_names.specs.declared.kind.Kind.TheVariants.{Label};
ghost use Rattle.ds_entry.specs.declared.body.Body.TheVariants.{Gone};
ghost use Rattle.ds_entry.specs.Change.{change_of, IsChange};
ghost use Rattle.ds_line.specs.Reading.{HasOwner, HasVersion, HasSeq, HasBody, HasValue};

use ds_names::limits::LAST_SEQ;
use ds_names::{Generation, Key, Name, Version};

/// Returns whether some change has the key.
pub fn has_owner(key: &Key) -> bool
    ensures { IsTrue result ↔ HasOwner key.now }
{
    // Another kind allows any name. The call states that the key has one.
    let _name = key.name.bytes();
    if key.kind.is_label() {
        !key.name.is_rs()
    } else {
        true
    }
}

/// Returns whether some change with the key has the owner.
pub fn has_version(key: &Key, owner: &Name) -> bool
    requires { HasOwner key.now }
    ensures { IsTrue result ↔ HasVersion key.now owner.now }
{
    // The call states that the owner is a name.
    let _owner = owner.bytes();
    if key.kind.is_label() {
        owner.is_rs()
    } else {
        true
    }
}

/// Returns whether some change with the key and the owner has the epoch.
pub fn has_seq(key: &Key, owner: &Name, epoch: Generation) -> bool
    requires { HasVersion key.now owner.now }
    ensures { IsTrue result ↔ HasSeq key.now owner.now epoch }
{
    let number = epoch.number();
    if key.kind.is_label() {
        number != 0
    } else {
        true
    }
}

/// Returns whether some change with the key and the owner has the version.
pub fn has_body(key: &Key, owner: &Name, version: &Version) -> bool
    requires { HasSeq key.now owner.now version.now.epoch }
    ensures { IsTrue result ↔ HasBody key.now owner.now version.now }
{
    let seq = version.seq;
    if key.kind.is_label() { seq <= 1 } else { true }
}

/// Returns whether some put has the key, the owner and the version.
pub fn has_value(key: &Key, owner: &Name, version: &Version) -> bool
    requires { HasBody key.now owner.now version.now }
    ensures { IsTrue result ↔ HasValue key.now owner.now version.now }
{
    if key.kind.is_label() {
        version.seq == 0
    } else {
        version.seq < LAST_SEQ
    }
}

/// Returns whether some tombstone has the key, the owner and the version.
pub fn has_tombstone(key: &Key, owner: &Name, version: &Version) -> bool
    requires { HasBody key.now owner.now version.now }
    ensures { IsTrue result ↔ IsChange (change_of key.now owner.now version.now Gone) }
{
    if key.kind.is_label() {
        version.seq == 1
    } else {
        true
    }
}
