//! The parts of a new system.

ghost use Rattle.std.specs.Prelude.{◌≡◌, ◌≢◌, length, replicate, Err, IfOk, OnOk};
ghost use Rattle.std.specs.List.{filter_map};
ghost use Rattle.rs_settings.specs.Settings.{IsSettings};
ghost use Rattle.rs_core.specs.Numbering.{numberer};
ghost use Rattle.driver_tables.specs.declared.fault.TableFault.TheVariants.{NoRoom as room};
ghost use Rattle.driver_tables.specs.Stands.{TableStands};
ghost use Rattle.ds_system.specs.Start.{labels_query, file_unit, net_unit, assigned_all};
ghost use Rattle.ds_system.specs.Begin.{AddsUnit, MakesLabelMap, MakesTwoMaps};

use driver_tables::{FileClass, FileTable, NetTable, TableFault};
use ds_names::{Generation, Kinds, NoRoom};
use ds_pattern::{PatternText, Query};
use ds_replica::{Event, Outcome};
use ds_world::World;
use rs_core::Numberer;
use rs_settings::{Class, Service, Settings};
use std::alloc::Global;

/// The parts of a new system that depend on its settings.
#[derive(Drop)]
pub(crate) struct Parts {
    pub numberers: Vec<Numberer>,
    pub file: FileTable,
    pub net: NetTable,
}

// Returns the numbers of `count` services, none of which has drawn one.
fn no_numbers(alloc: Global, count: usize) -> Result<Vec<Numberer>, NoRoom>
    ensures { IfOk result (λ numberers. numberers.items ≡ replicate count (numberer 0 0)) }
{
    let Some(none) = Generation::of(0) else {
        unreachable!()
    };
    let mut numberers = Vec::new(alloc);
    for index in 0..count {
        let _index = index;
        numberers.push(Numberer::of(none, 0))?;
    }
    Ok(numberers)
}

fn labels(alloc: Global) -> Result<Query, NoRoom>
    ensures { IfOk result (λ query. query ≡ labels_query) }
{
    let Some(kinds) = Kinds::of(1) else {
        unreachable!()
    };
    Ok(Query {
        text: PatternText::of(alloc, b".*")?,
        kinds,
    })
}

// Makes a map of all labels. It fails only if memory runs out.
fn make_map(alloc: Global, world: &mut World) -> Result<(), NoRoom>
    ensures { OnOk result (MakesLabelMap world.old world.new) }
{
    let query = labels(alloc)?;
    let Outcome::MapMade { .. } = world.happen(Event::NewMap { query }) else {
        return Err(NoRoom);
    };
    Ok(())
}

// Makes both servers' maps, the file server's first, in a world without maps.
fn make_maps(alloc: Global, world: &mut World) -> Result<(), NoRoom>
    ensures { OnOk result (MakesTwoMaps world.old world.new) }
{
    make_map(alloc, world)?;
    make_map(alloc, world)
}

pub(crate) fn with_maps(alloc: Global, mut world: World) -> Result<World, NoRoom>
    ensures { IfOk result (λ w. MakesTwoMaps world w) }
{
    make_maps(alloc, &mut world)?;
    Ok(world)
}

// Turns a table's answer into out-of-memory or success. In checked settings no unit occurs twice, and a table keeps the
// first of two.
fn assigned(answer: Result<(), TableFault>) -> Result<(), NoRoom>
    ensures { OnOk result (answer ≢ Err room) }
{
    match answer {
        Err(TableFault::NoRoom) => Err(NoRoom),
        _ => Ok(()),
    }
}

// Assigns a service's unit to the file server's table, if it has one there.
fn add_file(table: &mut FileTable, service: &Service) -> Result<(), NoRoom>
    ensures { AddsUnit (file_unit service.now) table.old table.new result }
{
    let Some(unit) = service.unit else {
        return Ok(());
    };
    match service.class {
        Class::Block => assigned(table.assign(unit, FileClass::Block, &service.label)),
        Class::Character => assigned(table.assign(unit, FileClass::Character, &service.label)),
        Class::Network => Ok(()),
        Class::Server => Ok(()),
    }
}

// Like `add_file`, for the network server's table.
fn add_net(table: &mut NetTable, service: &Service) -> Result<(), NoRoom>
    ensures { AddsUnit (net_unit service.now) table.old table.new result }
{
    let Some(unit) = service.unit else {
        return Ok(());
    };
    match service.class {
        Class::Network => assigned(table.assign(unit, &service.label)),
        Class::Block => Ok(()),
        Class::Character => Ok(()),
        Class::Server => Ok(()),
    }
}

// Returns the file server's table, with the settings' units in order.
fn file_table(alloc: Global, settings: &Settings) -> Result<FileTable, NoRoom>
    ensures { IfOk result (λ table. TableStands table (assigned_all (filter_map file_unit settings.now.services))) }
{
    let services = settings.services();
    let mut table = FileTable::new(alloc);
    for index in 0..services.len() {
        let Some(service) = services.get(index) else {
            unreachable!()
        };
        let Ok(()) = add_file(&mut table, service) else {
            return Err(NoRoom);
        };
    }
    Ok(table)
}

// Returns the network server's table, with the settings' units in order.
fn net_table(alloc: Global, settings: &Settings) -> Result<NetTable, NoRoom>
    ensures { IfOk result (λ table. TableStands table (assigned_all (filter_map net_unit settings.now.services))) }
{
    let services = settings.services();
    let mut table = NetTable::new(alloc);
    for index in 0..services.len() {
        let Some(service) = services.get(index) else {
            unreachable!()
        };
        let Ok(()) = add_net(&mut table, service) else {
            return Err(NoRoom);
        };
    }
    Ok(table)
}

// Returns numbers of which none is drawn, and both tables with the settings' units.
pub(crate) fn parts_of(alloc: Global, settings: &Settings) -> Result<Parts, NoRoom>
    ensures numberers { IfOk result (λ p. p.numberers.items ≡ replicate (length settings.now.services) (numberer 0 0)) }
    ensures file { IfOk result (λ p. TableStands p.file (assigned_all (filter_map file_unit settings.now.services))) }
    ensures net { IfOk result (λ p. TableStands p.net (assigned_all (filter_map net_unit settings.now.services))) }
    ensures settings { IsSettings settings.now }
{
    let Ok(numberers) = no_numbers(alloc, settings.services().len()) else {
        return Err(NoRoom);
    };
    let Ok(file) = file_table(alloc, settings) else {
        return Err(NoRoom);
    };
    let Ok(net) = net_table(alloc, settings) else {
        return Err(NoRoom);
    };
    Ok(Parts {
        numberers,
        file,
        net,
    })
}
