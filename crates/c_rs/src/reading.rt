//! What is read of RS.

ghost use Rattle.std.specs.Prelude.{◌≡◌};
ghost use Rattle.std.specs.Option.{option_map};
ghost use Rattle.rs_settings.specs.Dealing.{may_complain, may_connect};
ghost use Rattle.c_rs.specs.Reading.{IsDueTick, ReadsDue, key_at, may_deal_in, may_publish_in, name_of_bytes};

use crate::session::RsSession;
use c_values::{endpoint, kind};
use ds_names::{Key, Name};
use rs_core::Rs;

impl RsSession {
    /// Returns the first tick, not before the last event's, that has actions; 2^64 - 1 if none has until another event. `None` if
    /// RS isn't open.
    pub fn due(&self) -> Option<u64>
        ensures { ReadsDue self.now.session.node.services result }
    {
        match self.session.node.services() {
            Some(rs) => Some(due_tick(rs)),
            None => None,
        }
    }

    /// Returns the generation that the next start takes. `None` if RS isn't open.
    pub fn next_generation(&self) -> Option<u32>
        ensures { result ≡ option_map (λ rs. rs.next) self.now.session.node.services }
    {
        match self.session.node.services() {
            Some(rs) => Some(rs.next_generation()),
            None => None,
        }
    }

    /// Returns whether the instance with an endpoint may publish under the key of a kind and a name: they are valid, RS is open, the
    /// instance is up, and its service declares the key.
    pub fn may_publish(&self, generation: u32, slot: u16, kind: u8, name: &[u8]) -> bool
        ensures { result ≡ may_publish_in self.now.session.node.services generation slot kind name.now }
    {
        let Some(rs) = self.session.node.services() else {
            return false;
        };
        let Some(instance) = endpoint(generation, slot) else {
            return false;
        };
        match key_at(kind, name) {
            Some(key) => rs.may_publish(instance, &key),
            None => false,
        }
    }

    /// Returns whether the instance with an endpoint may complain of the service with a label: both are valid, RS is open, the instance is
    /// up, there is the service, and the settings let the one complain of the other.
    pub fn may_complain(&self, generation: u32, slot: u16, label: &[u8]) -> bool
        ensures { result ≡ may_deal_in may_complain self.now.session.node.services generation slot label.now }
    {
        let Some(rs) = self.session.node.services() else {
            return false;
        };
        let Some(instance) = endpoint(generation, slot) else {
            return false;
        };
        match name_of_bytes(label) {
            Some(label) => rs.may_complain(instance, &label),
            None => false,
        }
    }

    /// Returns whether the instance with an endpoint may connect to the service with a label: both are valid, RS is open, the instance is
    /// up, there is the service, and the settings let the one connect to the other.
    pub fn may_connect(&self, generation: u32, slot: u16, label: &[u8]) -> bool
        ensures { result ≡ may_deal_in may_connect self.now.session.node.services generation slot label.now }
    {
        let Some(rs) = self.session.node.services() else {
            return false;
        };
        let Some(instance) = endpoint(generation, slot) else {
            return false;
        };
        match name_of_bytes(label) {
            Some(label) => rs.may_connect(instance, &label),
            None => false,
        }
    }
}

// Returns the first tick that has actions, or the greatest number.
fn due_tick(rs: &Rs) -> u64
    ensures { IsDueTick rs.now result }
{
    match rs.due() {
        Some(tick) => tick,
        None => u64::MAX,
    }
}

// Returns the key of a kind and a name.
#[tactic(auto, unfolding(crate::specs::Reading::key_at))]
fn key_at(bit: u8, name: &[u8]) -> Option<Key>
    ensures { result ≡ key_at bit name.now }
{
    let kind = kind(bit)?;
    let name = name_of_bytes(name)?;
    Some(Key { name, kind })
}

// Returns the name with these bytes, if there is one.
fn name_of_bytes(bytes: &[u8]) -> Option<Name>
    ensures { result ≡ name_of_bytes bytes.now }
{
    Name::read(bytes).ok()
}
