//! Lists of changes in the order of their keys.

ghost use Rattle.std.specs.Prelude.{◌≡◌, ◌≤◌, Ok, true, drop, filter, length, All, IfSome};
ghost use Rattle.std.specs.FinMap.{get};
ghost use Rattle.std.specs.Option.{option_copied};
ghost use Rattle.std.specs.List.{find};
ghost use Rattle.std.specs.declared.cmp.Ordering.{Ordering};
ghost use Rattle.ds_names.specs.Key.{key_cmp};
ghost use Rattle.ds_entry.specs.Change.{IsChange};
ghost use Rattle.ds_join.specs.Reading.{comes_after};
ghost use Rattle.ds_held.specs.Kept.{AreKeysRising, IsPlace, changes_map};

use crate::rows::Rows;
use ds_entry::Change;
use ds_names::Key;
use std::cmp::Ordering;

// Whether the change is of the key.
#[inline(always)]
fn is_of(change: &Change, key: &Key) -> bool
    ensures { result ≡ true → key_cmp change.now.key key.now ≡ Ordering.Equal }
{
    change.key().compare(key) == Ordering::Equal
}

// Whether the change at an index is of the key.
#[inline(always)]
fn is_at(changes: &Rows<Change>, index: usize, key: &Key) -> bool
    ensures { result ≡ true → IsPlace changes.now key.now (Ok index) }
{
    match changes.get(index) {
        Some(change) => change.key().compare(key) == Ordering::Equal,
        None => false,
    }
}

// Finds a key's change, as `place_of` does, by a binary search.
fn search(changes: &Rows<Change>, key: &Key) -> Result<usize, usize>
    requires { AreKeysRising changes.now }
    ensures { IsPlace changes.now key.now result }
{
    let mut low = 0;
    let mut high = changes.len();
    while low < high {
        let middle = low + (high - low) / 2;
        match changes.at(middle).key().compare(key) {
            Ordering::Less => low = middle + 1,
            Ordering::Equal => return Ok(middle),
            Ordering::Greater => high = middle,
        }
    }
    Err(low)
}

// Finds a key's change: `Ok` with its index, or `Err` with the index that it would get. The guess is checked before a
// search.
pub(crate) fn place_of(changes: &Rows<Change>, guess: usize, key: &Key) -> Result<usize, usize>
    requires { AreKeysRising changes.now }
    ensures { IsPlace changes.now key.now result }
{
    if is_at(changes, guess, key) {
        return Ok(guess);
    }
    search(changes, key)
}

// Returns the change of a key. The guessed slot is checked before a search.
pub(crate) fn change_at<'a>(changes: &'a Rows<Change>, slot: u16, key: &Key) -> Option<&'a Change>
    requires rising { AreKeysRising changes.now }
    requires valid { All IsChange changes.now }
    ensures value { option_copied result ≡ get (changes_map changes.now) key.now }
    ensures change { IfSome (option_copied result) IsChange }
{
    if let Some(change) = changes.in_slot(slot) {
        if is_of(change, key) {
            return Some(change);
        }
    }
    match search(changes, key) {
        Ok(i) => changes.get(i),
        Err(_) => None,
    }
}

// Whether a change's key comes after `low`. Every key comes after `None`.
fn comes_after(low: Option<&Key>, change: &Change) -> bool
    ensures { result ≡ comes_after (option_copied low.entry) change.now }
{
    match low {
        None => true,
        Some(low) => low.compare(change.key()) == Ordering::Less,
    }
}

// Returns the index from which on the changes are those whose keys come after `after`.
pub(crate) fn begin_after(changes: &Rows<Change>, after: Option<&Key>) -> usize
    requires { AreKeysRising changes.now }
    ensures within { result ≤ length changes.now }
    ensures begin { drop result changes.now ≡ filter (comes_after (option_copied after.entry)) changes.now }
{
    let mut low = 0;
    let mut high = changes.len();
    while low < high {
        let middle = low + (high - low) / 2;
        if comes_after(after, changes.at(middle)) {
            high = middle;
        } else {
            low = middle + 1;
        }
    }
    low
}

// Returns the change of the least key, or of the least key after `after`.
pub(crate) fn first_of<'a>(changes: &'a Rows<Change>, after: Option<&Key>) -> Option<&'a Change>
    requires rising { AreKeysRising changes.now }
    requires valid { All IsChange changes.now }
    ensures value { option_copied result ≡ find (comes_after (option_copied after.entry)) changes.now }
    ensures change { IfSome (option_copied result) IsChange }
{
    changes.get(begin_after(changes, after))
}
