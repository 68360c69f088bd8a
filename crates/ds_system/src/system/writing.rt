//! The changes of services.

ghost use Rattle.std.specs.Prelude.{slice_index_or, true, false, ◌≡◌, ◌<◌, ◌≤◌, length, vec_len, vec_capacity, Ok, Err, IfOk, IfErr, OnOk};
ghost use Rattle.ds_names.specs.Kind.{is_label};
ghost use Rattle.ds_entry.specs.Change.{change_of, is_of_kind, IsBody, IsChange};
ghost use Rattle.rs_core.specs.State.{service_at};
ghost use Rattle.rs_core.specs.Numbering.{numberer};
ghost use Rattle.ds_system.specs.Drawing.{numberer_at, numbers_left, numbers_of};
ghost use Rattle.ds_system.specs.Stands.{SystemEventLeads};
ghost use Rattle.ds_system.specs.Effects.{instance_at, judged_by, write_event};

use crate::outcome::{SystemFault, SystemOutcome};
use crate::system::System;
use ds_entry::{Body, Change};
use ds_names::{Generation, Key, Name, NoRoom, Version};
use ds_replica::Side;
use rs_core::{Numberer, Running, State};
use rs_settings::Service;
use rs_to_store::asking;
use std::alloc::Global;

/// The instance that draws a number, and the numbers left to it.
#[derive(Drop)]
struct Draw {
    place: usize,
    running: Running,
    numbers: Numberer,
}

// Returns the numbers of a generation: those left of it, or all.
fn numbers_of(numbers: &Numberer, generation: Generation) -> Numberer
    ensures { result ≡ numbers_of numbers.now generation }
{
    if numbers.generation().number() == generation.number() {
        return numbers.copy();
    }
    Numberer::of(generation, 0)
}

// Returns a service's own change. Its parts fit together: the value is of the key's kind, which isn't label, and the
// version's number isn't the greatest, which is reserved for sweeps.
fn entry(key: &Key, owner: Name, version: Version, content: Body) -> Change
    requires plain { is_label key.now.kind ≡ false }
    requires kind { is_of_kind key.now.kind content ≡ true }
    requires below { version.seq ≤ 4294967294 }
    ensures made { result ≡ change_of key.now owner version content }
    ensures change { IsChange (change_of key.now owner version content) }
{
    let _name = key.name.bytes();
    let _owner = owner.bytes();
    let _epoch = version.epoch.number();
    let _kind = content.is_of_kind(key.kind);
    Change::from_parts(*key, owner, version, content)
}

// Returns a copy of a change's body, and reserves room for one more made change.
fn copy_with_room(alloc: Global, content: &Body, made: &mut Vec<Change>) -> Result<Body, NoRoom>
    ensures copy { IfOk result (λ kept. kept ≡ content.now) }
    ensures room { OnOk result (vec_len made.new < vec_capacity made.new) }
    ensures items { made.new.items ≡ made.old.items }
{
    made.reserve(1)?;
    content.copy(alloc)
}

impl System {
    // Returns the service at an index of the settings.
    fn service_at(&self, place: usize) -> &Service
        requires { place < length self.now.rs.settings.services }
        ensures { result.now ≡ service_at self.now.rs place }
    {
        match self.rs.settings().services().get(place) {
            Some(service) => service,
            None => unreachable!(),
        }
    }

    // Returns the numbers of the service at an index.
    fn numbers_at(&self, place: usize) -> &Numberer
        requires { place < length self.now.rs.settings.services }
        ensures value { result.now ≡ numberer_at self.now.numberers place }
        ensures within { place < length self.now.numberers }
    {
        &self.numberers[place]
    }

    // Returns the instance that draws a number for a change of the service with the label, or the first cause against
    // the change.
    fn judge(&self, label: &Name, key: &Key, content: &Body) -> Result<Draw, SystemFault>
        ensures drawn { IfOk result (λ d. judged_by self.now label.now key.now content.now ≡ Ok (instance_at d.place d.running)) }
        ensures numbers { IfOk result (λ d. d.numbers ≡ numbers_left self.now.numberers (instance_at d.place d.running)) }
        ensures left { IfOk result (λ d. d.numbers.next ≤ 4294967294) }
        ensures plain { IfOk result (λ d. is_label key.now.kind ≡ false) }
        ensures kind { IfOk result (λ d. is_of_kind key.now.kind content.now ≡ true) }
        ensures within { IfOk result (λ d. d.place < length self.now.numberers) }
        ensures refused { IfErr result (λ fault. judged_by self.now label.now key.now content.now ≡ Err fault) }
    {
        let Some(place) = self.rs.place_of(label) else {
            return Err(SystemFault::UnknownLabel);
        };
        if !self.service_at(place).declares(key) {
            return Err(SystemFault::NotDeclared);
        }
        let Some(State::Up(running)) = self.rs.state(label) else {
            return Err(SystemFault::NotUp);
        };
        if !content.is_of_kind(key.kind) {
            return Err(SystemFault::BadKind);
        }
        let numbers = numbers_of(self.numbers_at(place), running.endpoint.generation());
        if numbers.is_spent() {
            return Err(SystemFault::SeqSpent);
        }
        Ok(Draw {
            place,
            running,
            numbers,
        })
    }

    // Draws a number for a service's change, makes it, and sends it to the store of the side. If memory runs out, no
    // number is drawn.
    pub(super) fn write(
        &mut self,
        label: Name,
        key: &Key,
        content: Body,
        side: Side,
    ) -> SystemOutcome
        ensures { SystemEventLeads (write_event label key.now content side) result self.old self.new }
    {
        let mut draw = match self.judge(&label, key, &content) {
            Ok(draw) => draw,
            Err(fault) => return SystemOutcome::Refused(fault),
        };
        let Ok(kept) = copy_with_room(self.alloc, &content, &mut self.made) else {
            return SystemOutcome::Refused(SystemFault::NoRoom);
        };
        let Ok(version) = draw.numbers.next() else {
            unreachable!()
        };
        let place = draw.place;
        let command = asking(draw.running.endpoint, key, &version, content);
        self.numberers[place] = draw.numbers;
        self.made.push_reserved(entry(key, label, version, kept));
        let reply = self.world.reply(side, command);
        SystemOutcome::Replied(reply)
    }
}
