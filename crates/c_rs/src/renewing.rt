//! Other settings for RS, from a text.

ghost use Rattle.std.specs.Prelude.{◌≡◌, Err};
ghost use Rattle.c_rs.specs.Renewing.{IsForgotten, RenewsRs, fault_after, renewal_number};

use crate::fault::{SettingsRefusal, service_number};
use crate::session::RsSession;
use crate::telling::cause_number;
use c_values::{Answer, refusal_number};
use ds_machine::Refusal;
use rs_core::RenewFault;
use rs_settings::read_any;
use std::alloc::Global;

impl RsSession {
    /// Gives RS other settings, from a text: each service has the state that its label had, and a new one is down. The store is
    /// unchanged. The last answer is forgotten, so fetch its text and actions before.
    ///
    /// Returns 0, or the number of the first refusal: NotFound if RS isn't open; the fault of the text, which `fault` has then, memory to
    /// read it included; NoSlot for fewer slots than before; BadFirst for a last slot that is out of range; AlreadyUp for a service that
    /// runs or waits and isn't in the text, whose index in the settings in force `fault` has then; NoRoom. A refused call changes
    /// nothing else.
    pub fn renew_rs(&mut self, alloc: Global, text: &[u8], fault: &mut SettingsRefusal) -> u32
        ensures { RenewsRs text.now self.old fault.old result fault.new self.new }
    {
        if self.session.node.services().is_none() {
            return refusal_number(Refusal::NotFound);
        }
        match read_any(alloc, text) {
            Ok(settings) => match self.session.node.renew(settings) {
                Some(Ok(())) => {
                    self.forget_last();
                    0
                }
                Some(Err(why)) => {
                    *fault = fault_after(*fault, why);
                    renewal_number(why)
                }
                None => refusal_number(Refusal::NotFound),
            },
            Err(why) => {
                *fault = SettingsRefusal::of(alloc, text, why);
                cause_number(why.cause)
            }
        }
    }

    /// Forgets the last answer, which may name services of settings that were in force. RS and the store are unchanged.
    pub fn forget_last(&mut self)
        ensures forgotten { IsForgotten self.old self.new }
        ensures services { self.new.session.node.services ≡ self.old.session.node.services }
    {
        let mut answer = Answer::no_request();
        self.session.rest(Answer::no_request(), &mut answer);
        self.told = None;
    }
}

/// Returns the number of a fault against settings.
pub fn renewal_number(fault: RenewFault) -> u32
    ensures { result ≡ renewal_number fault }
{
    match fault {
        RenewFault::FewerSlots => 32,
        RenewFault::OutOfRange => 22,
        RenewFault::StillUp(_) => 28,
        RenewFault::NoRoom => 20,
    }
}

/// Returns what the place of the fault holds after a refusal: the service that is still up, or what it held.
pub fn fault_after(before: SettingsRefusal, fault: RenewFault) -> SettingsRefusal
    ensures { result ≡ fault_after before (Err fault) }
{
    match fault {
        RenewFault::StillUp(index) => SettingsRefusal {
            line: 0,
            cause: 28,
            service: service_number(Some(index)),
        },
        RenewFault::FewerSlots | RenewFault::OutOfRange | RenewFault::NoRoom => before,
    }
}
