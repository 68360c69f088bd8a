//! The range of a page in a line: the key after which it begins, and the most changes.

#![tactic(auto, unfolding(crate::specs::Reads::ReadsOr))]

ghost use Rattle.std.specs.Prelude.{◌≡◌, ◌↔◌, List, ℕ, IsTrue};
ghost use Rattle.ds_line.specs.Piece.{Found};
ghost use Rattle.ds_names.specs.declared.kind.Kind.{Kind};
ghost use Rattle.script_commands.specs.Pieces.{a_kind};
ghost use Rattle.script_commands.specs.Page.{a_range, no_key};
ghost use Rattle.script_commands.specs.Reads.{Reads};

use crate::pieces::Rest;
use ds_line::{Expected, PartFault, kind_at};
use ds_names::{Key, Name, read_byte};

impl Rest<'_> {
    /// Reads a page's range: the key after which it begins, or `-` for the first page, and the most changes. A `-`
    /// before a kind, or before another byte of a name, belongs to a name.
    pub fn range(&mut self) -> Result<(Option<Key>, u32), PartFault>
        ensures { Reads a_range self.old.bytes.now result self.new.bytes.now }
    {
        let name = self.name(Expected::After)?;
        if is_dash(&name) && !self.is_before_kind() {
            let max = self.number(Expected::Max)?;
            return Ok((None, max));
        }
        let kind = self.kind()?;
        let max = self.number(Expected::Max)?;
        Ok((Some(Key { name, kind }), max))
    }

    // Returns whether a space and the word of a kind come next.
    fn is_before_kind(&self) -> bool
        ensures { IsTrue result ↔ ((kind : Kind) × (rest : List ℕ) × Found a_kind kind self.now.bytes.now rest) }
    {
        match read_byte(self.bytes, b' ') {
            Some(rest) => kind_at(rest).is_some(),
            None => false,
        }
    }
}

// Returns whether a name is `-`, which means no key.
fn is_dash(name: &Name) -> bool
    ensures { IsTrue result ↔ (name.now ≡ no_key) }
{
    name.bytes() == b"-".as_slice()
}
