//! The answer to `settings`.

ghost use Rattle.std.specs.Prelude.{◌≡◌, OnOk, OnErr};
ghost use Rattle.script_services.specs.Waiting.{AppendsLedOrRefuses};

use crate::servers::Servers;
use ds_names::NoRoom;
use rs_core::Rs;
use rs_settings::read;
use script_answers::{append_exists, append_noroom, append_settings, append_settings_fault};
use std::alloc::Global;

/// The generation of the first start.
const FIRST: u32 = 1;

impl Servers {
    /// Reads a settings text, and begins RS with it; all of its services are down. Appends the numbers of services and
    /// slots, or the text's refusal. Once settings are accepted, later texts are refused unread.
    ///
    /// If memory runs out for a first text, it is answered `refused noroom`, and nothing changes. `Err` means that memory
    /// ran out for the answer itself: none of it was appended, and nothing changes.
    pub fn accept(&mut self, alloc: Global, text: &[u8], output: &mut Vec<u8>) -> Result<(), NoRoom>
        ensures answered { OnOk result (AppendsLedOrRefuses text.now output.old.items output.new.items self.old self.new) }
        ensures unanswered { OnErr result (output.new.items ≡ output.old.items) }
        ensures kept { OnErr result (self.new ≡ self.old) }
    {
        if self.services.is_some() {
            return append_exists(output);
        }
        let settings = match read(alloc, text) {
            Ok(settings) => settings,
            Err(fault) => return append_settings_fault(output, fault.cause),
        };
        let (services, slots) = (settings.services().len(), settings.slots());
        let Ok(rs) = Rs::new(alloc, settings, FIRST) else {
            return append_noroom(output);
        };
        append_settings(output, services, slots)?;
        self.services = Some(rs);
        Ok(())
    }
}
