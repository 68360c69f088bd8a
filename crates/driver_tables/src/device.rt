//! Units with their drivers, in order of assignment.

ghost use Rattle.std.specs.Prelude.{◌≡◌, ◌≢◌, ◌==◌, ◌++◌, ◌<◌, [], Some, length, map, slice_get, OnOk, OnErr};
ghost use Rattle.std.specs.List.{find, filter_map};
ghost use Rattle.std.specs.Map.{lookup};
ghost use Rattle.std.specs.Option.{option_copied, option_map};
ghost use Rattle.driver_tables.specs.Devices.{is_of_label, status_of, device_with, noted, start_move};

use crate::moves::{Move, Moves};
use crate::state::newer;
use ds_names::{Endpoint, Generation, Name, NoRoom};
use indexmap::IndexMap;

/// The kind of unit that a driver drives.
#[derive(Clone, Copy, PartialEq, Eq)]
pub enum Class {
    /// A major device whose requests can be sent again.
    Block,
    /// A major device whose requests can't.
    Character,
    /// A port of the network server.
    Network,
}

/// A unit's driver and the state of the driver's label.
#[derive(Clone, Copy)]
pub struct Device {
    pub class: Class,
    pub label: Name,
    /// The driver's endpoint now; `None` if there is no driver.
    pub endpoint: Option<Endpoint>,
    /// The greatest generation that the label ever had.
    pub newest: Option<Generation>,
}

pub(crate) fn device_at(devices: &IndexMap<u8, Device>, unit: u8) -> Option<&Device>
    ensures { option_copied result ≡ lookup (λ u. unit == u) devices.now.entries }
{
    devices.get(&unit)
}

fn unit_at(devices: &IndexMap<u8, Device>, i: usize) -> (u8, &Device)
    requires { i < length devices.now.entries }
    ensures { slice_get devices.now.entries i ≡ Some (result.0, result.1.now) }
{
    let Some((unit, device)) = devices.get_index(i) else {
        unreachable!()
    };
    (*unit, device)
}

// Returns the first device of the label.
pub(crate) fn first_of<'a>(devices: &'a IndexMap<u8, Device>, label: &Name) -> Option<&'a Device>
    ensures { option_copied result ≡ option_map (λ u. u.1) (find (is_of_label label.now) devices.now.entries) }
{
    for i in 0..devices.len() {
        let (_, device) = unit_at(devices, i);
        if *label == device.label {
            return Some(device);
        }
    }
    None
}

// Returns the label's endpoint now, and the greatest generation that it ever had.
pub(crate) fn status(
    devices: &IndexMap<u8, Device>,
    label: &Name,
) -> (Option<Endpoint>, Option<Generation>)
    ensures { result ≡ status_of (find (is_of_label label.now) devices.now.entries) }
{
    match first_of(devices, label) {
        Some(device) => (device.endpoint, device.newest),
        None => (None, None),
    }
}

// Writes a new state to every device of the label.
pub(crate) fn note(devices: &mut IndexMap<u8, Device>, label: &Name, state: &Option<Endpoint>)
    ensures { devices.new.entries ≡ map (noted label.now state.now) devices.old.entries }
{
    for i in 0..devices.len() {
        let (_, device) = unit_at(devices, i);
        if *label == device.label {
            devices[i] = with_state(device, state);
        }
    }
}

fn with_state(device: &Device, state: &Option<Endpoint>) -> Device
    ensures { result ≡ device_with state.now device.now }
{
    Device {
        class: device.class,
        label: device.label,
        endpoint: *state,
        newest: newer(device.newest, state),
    }
}

// Appends the starts of the label's ports.
pub(crate) fn add_starts(
    moves: &mut Moves,
    devices: &IndexMap<u8, Device>,
    label: &Name,
    state: &Option<Endpoint>,
) -> Result<(), NoRoom>
    ensures added { OnOk result (moves.new ≡ moves.old ++ filter_map (start_move label.now state.now) devices.now.entries) }
    ensures room { OnErr result (filter_map (start_move label.now state.now) devices.now.entries ≢ []) }
{
    for i in 0..devices.len() {
        let (unit, device) = unit_at(devices, i);
        moves.add(started_at(unit, device, label, state))?;
    }
    Ok(())
}

// Returns the start of a unit: only a port of the label starts, and only at an endpoint.
fn started_at(unit: u8, device: &Device, label: &Name, state: &Option<Endpoint>) -> Option<Move>
    ensures { result ≡ start_move label.now state.now (unit, device.now) }
{
    if *label != device.label {
        return None;
    }
    let Some(endpoint) = state else {
        return None;
    };
    match device.class {
        Class::Network => Some(Move::Start {
            unit,
            endpoint: *endpoint,
        }),
        Class::Block | Class::Character => None,
    }
}
