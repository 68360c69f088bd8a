//! The places of a change's names, among the bytes of all names.

ghost use Rattle.std.specs.Prelude.{◌≡◌, ◌≤◌, length, IfSome};
ghost use Rattle.ds_entry.specs.Change.{IsChange};
ghost use Rattle.ds_names.specs.Name.{IsName};
ghost use Rattle.ds_packed.specs.Names.{names_length, key_name_in, owner_in, AddsNames};

use ds_entry::Change;
use ds_names::Name;

/// The places of a change's names: the key's name is at the front, and the owner's from an index on. A key's name mostly
/// begins with its owner's, so the owner's bytes aren't kept twice. Otherwise they come after the key's.
#[derive(Clone, Copy)]
pub(crate) struct Names {
    name: u8,
    owner_from: u8,
    owner: u8,
}

impl Names {
    // Returns the number of bytes that the two names take.
    pub(crate) fn length(self) -> usize
        ensures { result ≡ names_length self }
    {
        usize::from(self.name).max(usize::from(self.owner_from) + usize::from(self.owner))
    }

    // Returns the name of the key.
    pub(crate) fn key_name_in(self, names: &[u8]) -> &[u8]
        requires { names_length self ≤ length names.now }
        ensures { result.now ≡ key_name_in names.now self }
    {
        &names[..usize::from(self.name)]
    }

    // Returns the name of the owner.
    pub(crate) fn owner_in(self, names: &[u8]) -> &[u8]
        requires { names_length self ≤ length names.now }
        ensures { result.now ≡ owner_in names.now self }
    {
        &names[usize::from(self.owner_from)..][..usize::from(self.owner)]
    }
}

// Appends the names of a change to the bytes. `None` if memory runs out.
#[inline(always)]
pub(crate) fn add_names(change: &Change, names: &mut Vec<u8>) -> Option<Names>
    ensures added { IfSome result (λ place. AddsNames change.now place names.old.items names.new.items) }
    ensures change { IsChange change.now }
{
    let name = change.key().name.bytes();
    let owner = change.owner().bytes();
    let place = Names {
        name: name.len() as u8,
        owner_from: 0,
        owner: owner.len() as u8,
    };
    names.extend_from_slice(name).ok()?;
    if name.starts_with(owner) {
        return Some(place);
    }
    names.extend_from_slice(owner).ok()?;
    Some(Names {
        owner_from: place.name,
        ..place
    })
}

// Reads bytes that are known to be a name.
pub(crate) fn name_of(bytes: &[u8]) -> Name
    requires { IsName bytes.now }
    ensures { result ≡ bytes.now }
{
    match Name::read(bytes) {
        Ok(name) => name,
        Err(_) => unreachable!(),
    }
}
