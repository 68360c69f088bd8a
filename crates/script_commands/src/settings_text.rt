//! The text of settings in a line.

ghost use Rattle.std.specs.Prelude.{◌≡◌, ◌≢◌, [], IfOk, OnErr};

use ds_names::NoRoom;
use std::alloc::Global;
use std::marker::Model;

/// The bytes after `settings` and a space: any bytes except a newline. Whether they are a settings text is judged when
/// they are read as one.
#[derive(Drop)]
pub struct SettingsText {
    bytes: Vec<u8>,
}

impl Model for SettingsText {
    ghost use Rattle.std.specs.Prelude.{ℕ, List};

    ghost Value = { List ℕ };

    ghost view = { λ t. t.bytes.items };
}

impl SettingsText {
    // Returns a copy of the bytes. A copy of no bytes takes no memory.
    pub(crate) fn of(alloc: Global, bytes: &[u8]) -> Result<SettingsText, NoRoom>
        ensures text { IfOk result (λ text. text ≡ bytes.now) }
        ensures room { OnErr result (bytes.now ≢ []) }
    {
        if bytes.is_empty() {
            return Ok(SettingsText {
                bytes: Vec::new(alloc),
            });
        }
        Ok(SettingsText {
            bytes: bytes.to_vec(alloc)?,
        })
    }

    /// Returns the bytes.
    pub fn bytes(&self) -> &[u8]
        ensures { result.now ≡ self.now }
    {
        &self.bytes
    }
}
