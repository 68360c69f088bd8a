//! Opening RS.

ghost use Rattle.c_rs.specs.Opening.{OpensRs};

use crate::fault::SettingsRefusal;
use crate::session::RsSession;
use crate::telling::{begun_word, cause_number};
use c_values::refusal_number;
use ds_machine::Refusal;
use rs_settings::read_any;
use std::alloc::Global;

impl RsSession {
    /// Opens RS with a settings text: every service is down, the first start has the generation `next`, and slots begin at `first`.
    /// Returns 0, or the number of the first refusal: Exists once RS is open; the fault of the text, which `fault` has then, memory to read
    /// it included; BadFirst for a generation or slots that are out of range; NoRoom. A refused call leaves RS unopened.
    pub fn open_rs(
        &mut self,
        alloc: Global,
        text: &[u8],
        next: u32,
        first: u16,
        fault: &mut SettingsRefusal,
    ) -> u32
        ensures { OpensRs text.now next first self.old fault.old result fault.new self.new }
    {
        if self.session.node.services().is_some() {
            return refusal_number(Refusal::Exists);
        }
        match read_any(alloc, text) {
            Ok(settings) => {
                let reply = self.session.node.begin(settings, next, first);
                begun_word(&reply)
            }
            Err(why) => {
                *fault = SettingsRefusal::of(alloc, text, why);
                cause_number(why.cause)
            }
        }
    }
}
