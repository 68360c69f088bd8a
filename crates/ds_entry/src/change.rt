//! Changes.

ghost use Rattle.std.specs.Prelude.{◌≡◌, ◌<◌, ◌≤◌, ◌^◌, ◌↔◌, IsTrue, IsOk, IfOk, IfErr, OnErr, IfNone, IfSome, Some};
ghost use Rattle.ds_names.specs.Name.{IsName, rs_name};
ghost use Rattle.ds_entry.specs.Change.{ChangeRecord, change_of, IsChange, IsLabelChange, IsLabelBody};
ghost use Rattle.ds_entry.specs.Change.{IsBelowSweeps, IsOfKind, IsBody, IsBodyInPlace, BodyCopyTakesMemory};
ghost use Rattle.ds_entry.specs.ChangeFault.{IsEntryFault};
ghost use Rattle.ds_entry.specs.declared.item.Item.TheVariants.{Change as Changed};

use crate::body::Body;
use crate::item::Item;
use ds_names::limits::LAST_SEQ;
use ds_names::{Key, Kind, Name, NoRoom, Version};
use std::alloc::Global;
use std::marker::Model;
use thiserror::Error;

/// Why four parts aren't a change. The causes are judged in this order.
#[derive(Clone, Copy, Debug, PartialEq, Eq, Error)]
pub enum EntryFault {
    /// The value is of another kind than the key.
    #[error("the value is of another kind than the key")]
    BadKind,
    /// The key is a label's, and a rule of labels is broken. The owner must be `rs`, the name another one, and the epoch
    /// above 0. A put must have sequence number 0 and its endpoint's generation as its epoch, a tombstone number 1.
    #[error("no change of a label")]
    BadLabel,
    /// A put that isn't a label's has the sequence number 4294967295, which only tombstones of sweeps have.
    #[error("the sequence number is left to sweeps")]
    BadVersion,
}

/// One change of the entry under a key: the key, the owner, the version, and what the change leaves there.
#[derive(Debug, PartialEq, Eq, Drop)]
pub struct Change {
    key: Key,
    owner: Name,
    version: Version,
    body: Body,
}

impl Model for Change {
    ghost use Rattle.ds_entry.specs.Change.{ChangeRecord, change_of, IsChange};

    ghost Value = { ChangeRecord };

    ghost view = { λ c. change_of c.key c.owner c.version c.body };

    ghost invariant = { λ c. IsChange (change_of c.key c.owner c.version c.body) };

    ghost inverse = { λ c. record { key = c.key; owner = c.owner; version = c.version; body = c.body } };
}

impl Change {
    /// Builds a change from four parts that fit together. Checks nothing, and takes no memory.
    pub fn from_parts(key: Key, owner: Name, version: Version, body: Body) -> Change
        requires parts { IsChange (change_of key owner version body) }
        ensures made { result ≡ change_of key owner version body }
        ensures change { IsChange result }
    {
        Change {
            key,
            owner,
            version,
            body,
        }
    }

    /// Stores a change of four parts that fit together in `slot`, as an item.
    ///
    /// The key and the owner are borrowed, so each name is copied only once, to its place in the item.
    #[inline(always)]
    pub fn put_into(slot: &mut Option<Item>, key: &Key, owner: &Name, version: Version, body: Body)
        requires parts { IsChange (change_of key.now owner.now version body) }
        ensures put { slot.new ≡ Some (Changed (change_of key.now owner.now version body)) }
    {
        *slot = Some(Item::Change(Change {
            key: Key {
                name: key.name,
                kind: key.kind,
            },
            owner: *owner,
            version,
            body,
        }));
    }

    /// Builds a change from four parts, or returns their first fault. Takes no memory.
    #[inline(always)]
    pub fn make(key: Key, owner: Name, version: Version, body: Body) -> Result<Change, EntryFault>
        ensures made { IfOk result (λ change. change ≡ change_of key owner version body) }
        ensures change { IfOk result IsChange }
        ensures refused { IfErr result (λ fault. IsEntryFault fault (change_of key owner version body)) }
    {
        match fault_of(&key, &owner, &version, &body) {
            Some(fault) => Err(fault),
            None => Ok(Change::from_parts(key, owner, version, body)),
        }
    }

    /// Copies the change. Fails only if memory runs out; only the copy of a text or a blob that isn't empty takes memory.
    #[inline(always)]
    pub fn copy(&self, alloc: Global) -> Result<Change, NoRoom>
        ensures same { IfOk result (λ change. change ≡ self.now) }
        ensures in_place { IsBodyInPlace self.now.body → IsOk result }
        ensures room { OnErr result (BodyCopyTakesMemory self.now.body) }
        ensures change { IsChange self.now }
    {
        let body = self.body.copy(alloc)?;
        Ok(Change {
            key: self.key,
            owner: self.owner,
            version: self.version,
            body,
        })
    }

    /// Returns the key whose entry the change is of.
    pub fn key(&self) -> &Key
        ensures value { result.now ≡ self.now.key }
        ensures change { IsChange self.now }
    {
        &self.key
    }

    /// Returns the owner: the label of the process that published the change.
    pub fn owner(&self) -> &Name
        ensures value { result.now ≡ self.now.owner }
        ensures change { IsChange self.now }
    {
        &self.owner
    }

    /// Returns the version. Of two changes of one key, the one with the greater version wins.
    pub fn version(&self) -> Version
        ensures value { result ≡ self.now.version }
        ensures change { IsChange self.now }
    {
        self.version
    }

    /// Returns what the change leaves under its key.
    pub fn body(&self) -> &Body
        ensures value { result.now ≡ self.now.body }
        ensures change { IsChange self.now }
    {
        &self.body
    }
}

// Returns why the parts aren't a change: the first cause that applies, or `None` if they are one.
fn fault_of(key: &Key, owner: &Name, version: &Version, body: &Body) -> Option<EntryFault>
    ensures none { IfNone result (IsChange (change_of key.now owner.now version.now body.now)) }
    ensures fault { IfSome result (λ fault. IsEntryFault fault (change_of key.now owner.now version.now body.now)) }
{
    let is_label = is_label_change(key, owner, version, body);
    let is_below = is_below_sweeps(version, body);
    if !body.is_of_kind(key.kind) {
        return Some(EntryFault::BadKind);
    }
    match key.kind {
        Kind::Label if !is_label => Some(EntryFault::BadLabel),
        Kind::Label => None,
        Kind::U32 | Kind::Str | Kind::Mem if !is_below => Some(EntryFault::BadVersion),
        Kind::U32 | Kind::Str | Kind::Mem => None,
    }
}

// Returns whether the parts keep the rules of labels.
fn is_label_change(key: &Key, owner: &Name, version: &Version, body: &Body) -> bool
    ensures rule { IsTrue result ↔ IsLabelChange (change_of key.now owner.now version.now body.now) }
    ensures name { IsName key.now.name }
    ensures owner { IsName owner.now }
    ensures epoch { version.now.epoch ≤ 2097151 }
    ensures seq { version.now.seq < 2 ^ 32 }
{
    let is_owned = owner.is_rs();
    let is_rs = key.name.is_rs();
    let epoch = version.epoch.number();
    let fits = body.fits_label(version);
    is_owned && !is_rs && epoch != 0 && fits
}

// Returns whether a change that isn't a label's may have the version.
fn is_below_sweeps(version: &Version, body: &Body) -> bool
    ensures { IsTrue result ↔ IsBelowSweeps version.now body.now }
{
    match body {
        Body::Put(_) => version.seq < LAST_SEQ,
        Body::Gone => true,
    }
}
