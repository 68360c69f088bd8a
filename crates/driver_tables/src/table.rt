//! The table that both servers' tables wrap.

ghost use Rattle.std.specs.Prelude.{◌≡◌, ◌≢◌, [], length, slice_get, IfOk, OnErr};
ghost use Rattle.std.specs.Option.{option_map};
ghost use Rattle.driver_tables.specs.Label.{newest, is_old_for};
ghost use Rattle.driver_tables.specs.DriverTable.{DriverTable, empty_table};
ghost use Rattle.driver_tables.specs.Outcome.{AnswersAs, LeavesAs};
ghost use Rattle.driver_tables.specs.Room.{LacksOnlyWhere, StateTakesMemory, RequestTakesMemory};
ghost use Rattle.driver_tables.specs.Assign.{assigning};
ghost use Rattle.driver_tables.specs.Changed.{changing};
ghost use Rattle.driver_tables.specs.Requests.{moves_in};
ghost use Rattle.driver_tables.specs.Submit.{submitting};
ghost use Rattle.driver_tables.specs.Reply.{replying};
ghost use Rattle.driver_tables.specs.Stands.{TableStands, is_above_last};

use crate::device::{Class, Device, add_starts, device_at, first_of, note, status};
use crate::fault::TableFault;
use crate::moves::{Ending, Move, Moves};
use crate::request::{Pending, add_settled, end, is_ending, sent_of, settle, submitted};
use crate::state::{is_old, is_same_state};
use ds_names::{Endpoint, Generation, Name, NoRoom};
use indexmap::IndexMap;
use std::alloc::Global;
use std::marker::Model;

/// Units with their drivers, and the unanswered requests.
#[derive(Drop)]
pub struct Table {
    alloc: Global,
    devices: IndexMap<u8, Device>,
    pending: Vec<Pending>,
    last: Option<u64>,
}

impl Model for Table {
    ghost use Rattle.driver_tables.specs.Stands.{TableRecord};
    ghost use Rattle.driver_tables.specs.Value.{table_of};

    ghost Value = { TableRecord };

    ghost view = { table_of };
}

impl Table {
    pub fn new(alloc: Global) -> Table
        ensures { TableStands result empty_table }
    {
        Table {
            alloc,
            devices: IndexMap::new(alloc),
            pending: Vec::new(alloc),
            last: None,
        }
    }

    pub fn assign(&mut self, unit: u8, class: Class, label: &Name) -> Result<(), TableFault>
        ensures answer { AnswersAs self.old (λ t. assigning t unit (record { class = class; label = label.now })) result }
        ensures after { LeavesAs self.old (λ t. assigning t unit (record { class = class; label = label.now })) result self.new }
        ensures unchanged { OnErr result (self.new ≡ self.old) }
    {
        if self.devices.contains_key(&unit) {
            return Err(TableFault::Assigned);
        }
        let (endpoint, newest) = status(&self.devices, label);
        let device = Device {
            class,
            label: *label,
            endpoint,
            newest,
        };
        let Ok(_) = self.devices.insert(unit, device) else {
            return Err(TableFault::NoRoom);
        };
        Ok(())
    }

    pub fn changed(&mut self, label: &Name, state: &Option<Endpoint>) -> Result<Moves, TableFault>
        ensures answer { AnswersAs self.old (λ t. changing t label.now state.now) result }
        ensures room { (t : DriverTable) → TableStands self.old t → LacksOnlyWhere (StateTakesMemory t label.now state.now) result }
        ensures after { LeavesAs self.old (λ t. changing t label.now state.now) result self.new }
        ensures unchanged { OnErr result (self.new ≡ self.old) }
    {
        let Some(device) = first_of(&self.devices, label) else {
            return Ok(Moves::new(self.alloc));
        };
        if is_old(device.newest, &device.endpoint, state) {
            return Err(TableFault::OldEndpoint);
        }
        if is_same_state(&device.endpoint, state) {
            return Ok(Moves::new(self.alloc));
        }
        let Ok(moves) = moves_of(self.alloc, &self.devices, &self.pending, label, state) else {
            return Err(TableFault::NoRoom);
        };
        settle(&mut self.pending, &self.devices, label, state);
        note(&mut self.devices, label, state);
        Ok(moves)
    }

    pub fn unit_count(&self) -> usize
        ensures { (t : DriverTable) → TableStands self.now t → result ≡ length t.units }
    {
        self.devices.len()
    }

    pub fn label_at(&self, index: usize) -> Option<Name>
        ensures { (t : DriverTable) → TableStands self.now t → result ≡ option_map (λ u. u.1.label) (slice_get t.units index) }
    {
        match self.devices.get_index(index) {
            Some((_, device)) => Some(device.label),
            None => None,
        }
    }

    pub fn newest(&self, label: &Name) -> Option<Generation>
        ensures { (t : DriverTable) → TableStands self.now t → result ≡ newest t.states label.now }
    {
        status(&self.devices, label).1
    }

    pub fn is_old(&self, label: &Name, state: &Option<Endpoint>) -> bool
        ensures { (t : DriverTable) → TableStands self.now t → result ≡ is_old_for t.states label.now state.now }
    {
        let (endpoint, newest) = status(&self.devices, label);
        is_old(newest, &endpoint, state)
    }

    pub fn submit(&mut self, id: u64, unit: u8) -> Result<Move, TableFault>
        ensures answer { AnswersAs self.old (λ t. submitting t id unit) result }
        ensures room { (t : DriverTable) → TableStands self.old t → LacksOnlyWhere (RequestTakesMemory t id unit) result }
        ensures after { LeavesAs self.old (λ t. submitting t id unit) result self.new }
        ensures unchanged { OnErr result (self.new ≡ self.old) }
    {
        if !is_above(self.last, id) {
            return Err(TableFault::TwoIds);
        }
        let Some(device) = device_at(&self.devices, unit) else {
            return Err(TableFault::NoDevice);
        };
        let step = submitted(device.class, id, &device.endpoint);
        if !is_ending(&step) {
            let sent = device.endpoint;
            let Ok(()) = self.pending.push(Pending { id, unit, sent }) else {
                return Err(TableFault::NoRoom);
            };
        }
        self.last = Some(id);
        Ok(step)
    }

    pub fn reply(&mut self, endpoint: Endpoint, id: u64) -> Result<Move, TableFault>
        ensures answer { (t : DriverTable) → TableStands self.old t → result ≡ (replying t endpoint id).0 }
        ensures after { LeavesAs self.old (λ t. replying t endpoint id) result self.new }
        ensures unchanged { OnErr result (self.new ≡ self.old) }
    {
        let Some(sent) = sent_of(&self.pending, id) else {
            return Err(TableFault::NotPending);
        };
        if !is_same_state(&sent, &Some(endpoint)) {
            return Err(TableFault::OldEndpoint);
        }
        end(&mut self.pending, id);
        Ok(Move::Answer {
            id,
            ending: Ending::Done,
        })
    }
}

// Returns the moves that follow from a new state of the label.
fn moves_of(
    alloc: Global,
    devices: &IndexMap<u8, Device>,
    pending: &Vec<Pending>,
    label: &Name,
    state: &Option<Endpoint>,
) -> Result<Moves, NoRoom>
    ensures all { IfOk result (λ moves. moves ≡ moves_in devices.now.entries pending.now.items label.now state.now) }
    ensures room { OnErr result (moves_in devices.now.entries pending.now.items label.now state.now ≢ []) }
{
    let mut moves = Moves::new(alloc);
    add_starts(&mut moves, devices, label, state)?;
    add_settled(&mut moves, devices, pending, label, state)?;
    Ok(moves)
}

// Returns whether an id is above the last accepted one.
fn is_above(last: Option<u64>, id: u64) -> bool
    ensures { result ≡ is_above_last last id }
{
    match last {
        Some(last) => last < id,
        None => true,
    }
}
