//! Scopes in a line: `*`, or a query.

#![tactic(auto, unfolding(crate::specs::Reads::ReadsOr))]

ghost use Rattle.std.specs.Prelude.{◌≡◌, Err, IfOk, IfErr, OnErr};
ghost use Rattle.script_commands.specs.Reads.{Reads, FindsScope};
ghost use Rattle.script_commands.specs.Scope.{a_scope, IsWrittenScope, ScopeTakesMemory, written_scope};

use crate::pieces::Rest;
use crate::query::{query_of, quoted_at};
use ds_line::{Expected, PartFault, stop_at};
use ds_machine::Scope;
use ds_names::{Kinds, NoRoom, read_byte};
use std::alloc::Global;

impl<'a> Rest<'a> {
    /// Reads `*`, or a pattern in quotes and a mask of kinds. Returns the bytes between the quotes, and the kinds,
    /// which are `None` for `*`. The pattern is allocated only after the whole line is read.
    pub fn scope(&mut self) -> Result<(&'a [u8], Option<Kinds>), PartFault>
        ensures found { IfOk result (λ written. FindsScope written.0.now written.1 self.old.bytes.now self.new.bytes.now) }
        ensures stop { IfErr result (λ stop. Reads a_scope self.old.bytes.now (Err stop) self.new.bytes.now) }
    {
        self.byte(b' ', Expected::Space)?;
        self.expected = Expected::Scope;
        if let Some(rest) = read_byte(self.bytes, b'*') {
            self.bytes = rest;
            return Ok((rest, None));
        }
        let Some((text, rest)) = quoted_at(self.bytes) else {
            return Err(stop_at(self.bytes));
        };
        self.bytes = rest;
        let kinds = self.kinds()?;
        Ok((text, Some(kinds)))
    }
}

/// Returns the scope of these bytes and kinds; without kinds it is that of all keys. Reports NoRoom if memory runs
/// out for the pattern; an empty one takes none.
pub(crate) fn scope_of(alloc: Global, text: &[u8], kinds: Option<Kinds>) -> Result<Scope, NoRoom>
    requires { IsWrittenScope text.now kinds }
    ensures scope { IfOk result (λ scope. written_scope text.now kinds ≡ scope) }
    ensures room { OnErr result (ScopeTakesMemory (written_scope text.now kinds)) }
{
    match kinds {
        None => Ok(Scope::All),
        Some(kinds) => Ok(Scope::Under(query_of(alloc, text, kinds)?)),
    }
}
