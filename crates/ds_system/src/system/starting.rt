//! The beginning of a system.

ghost use Rattle.std.specs.Prelude.{◌≡◌, [], length, replicate, IfOk, IfErr, OnOk};
ghost use Rattle.std.specs.List.{filter_map};
ghost use Rattle.rs_settings.specs.Settings.{IsSettings};
ghost use Rattle.rs_core.specs.Numbering.{numberer};
ghost use Rattle.driver_tables.specs.Stands.{TableStands};
ghost use Rattle.ds_world.specs.Seeds.{AreSeeds, IsSeedFault};
ghost use Rattle.ds_system.specs.Start.{file_unit, net_unit, assigned_all};
ghost use Rattle.ds_system.specs.Stands.{system_of};
ghost use Rattle.ds_system.specs.Since.{IsJustNew};
ghost use Rattle.ds_system.specs.Begin.{resting_rs, begin_fault_of, HasBothMaps, BeginsOver, CanBegin, IsBeginFault};

use crate::beginning::{Parts, parts_of, with_maps};
use crate::fault::BeginFault;
use crate::system::System;
use ds_names::NoRoom;
use ds_replica::Seed;
use ds_world::{SeedFault, World};
use rs_core::Rs;
use rs_settings::Settings;
use std::alloc::Global;

// Returns a world of two seeds, with both servers' maps.
fn opened(alloc: Global, a: Seed, b: Seed) -> Result<World, SeedFault>
    ensures maps { IfOk result (λ world. HasBothMaps a b world) }
    ensures fits { OnOk result (AreSeeds a b) }
    ensures refused { IfErr result (λ fault. IsSeedFault fault a b) }
{
    match World::new(alloc, a, b) {
        Ok(world) => match with_maps(alloc, world) {
            Ok(made) => Ok(made),
            Err(NoRoom) => Err(SeedFault::NoRoom),
        },
        Err(fault) => Err(fault),
    }
}

// Returns RS with every service down. It fails only if memory runs out.
fn resting(alloc: Global, settings: Settings, next: u32) -> Result<Rs, NoRoom>
    ensures { IfOk result (λ rs. rs ≡ resting_rs settings next) }
{
    match Rs::new(alloc, settings, next) {
        Ok(rs) => Ok(rs),
        Err(_) => Err(NoRoom),
    }
}

// Returns the system of all its parts. It can't fail.
fn joined(alloc: Global, rs: Rs, world: World, parts: Parts) -> System
    requires { length parts.numberers.items ≡ length rs.settings.services }
    ensures { result ≡ system_of rs parts.numberers.items world parts.file parts.net [] }
{
    System {
        alloc,
        rs,
        numberers: parts.numberers,
        world,
        file: parts.file,
        net: parts.net,
        made: Vec::new(alloc),
    }
}

// Returns the system of these parts over a world.
fn over_parts(
    alloc: Global,
    settings: Settings,
    next: u32,
    world: World,
    parts: Parts,
) -> Result<System, NoRoom>
    requires checked { IsSettings settings }
    requires numberers { parts.numberers.items ≡ replicate (length settings.services) (numberer 0 0) }
    requires file { TableStands parts.file (assigned_all (filter_map file_unit settings.services)) }
    requires net { TableStands parts.net (assigned_all (filter_map net_unit settings.services)) }
    ensures { IfOk result (λ system. BeginsOver settings next world system) }
{
    let rs = resting(alloc, settings, next)?;
    Ok(joined(alloc, rs, world, parts))
}

// Returns the system of the settings over a world.
fn over(alloc: Global, settings: Settings, next: u32, world: World) -> Result<System, NoRoom>
    ensures { IfOk result (λ system. BeginsOver settings next world system) }
{
    let parts = parts_of(alloc, &settings)?;
    over_parts(alloc, settings, next, world, parts)
}

fn begin_fault(fault: SeedFault) -> BeginFault
    ensures { result ≡ begin_fault_of fault }
{
    match fault {
        SeedFault::BadRing => BeginFault::BadRing,
        SeedFault::BadFirst => BeginFault::BadFirst,
        SeedFault::OldIncarnation => BeginFault::OldIncarnation,
        SeedFault::NoRoom => BeginFault::NoRoom,
    }
}

impl System {
    /// Returns a new system. Every service is down; both stores are opened with their seeds and empty; both servers'
    /// maps of all labels exist; each table has the settings' units in order; no change was made. `next` is the
    /// generation of RS's first start.
    ///
    /// Refusals in order: OutOfRange unless `next` is 1 to 2097152, like `Rs::new`; BadRing, BadFirst and
    /// OldIncarnation, like `World::new`; NoRoom.
    pub fn new(
        alloc: Global,
        settings: Settings,
        a: Seed,
        b: Seed,
        next: u32,
    ) -> Result<System, BeginFault>
        ensures first { IfOk result (λ system. IsJustNew settings a b next system) }
        ensures fits { OnOk result (CanBegin a b next) }
        ensures refused { IfErr result (λ fault. IsBeginFault fault a b next) }
    {
        if next < 1 || next > 2097152 {
            return Err(BeginFault::OutOfRange);
        }
        match opened(alloc, a, b) {
            Ok(world) => match over(alloc, settings, next, world) {
                Ok(system) => Ok(system),
                Err(NoRoom) => Err(BeginFault::NoRoom),
            },
            Err(fault) => Err(begin_fault(fault)),
        }
    }
}
