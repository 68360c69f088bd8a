//! The session of a script.

ghost use Rattle.std.specs.Prelude.{◌≡◌, ◌≤◌, ◌∷◌, [], false, slice_get, IfOk};
ghost use Rattle.std.specs.Option.{option_copied};
ghost use Rattle.ds_held.specs.Held.{held_items};
ghost use Rattle.ds_machine.specs.declared.command.Command.TheVariants.{Merge};
ghost use Rattle.ds_replica.specs.Happens.{gives_items};
ghost use Rattle.ds_replica.specs.declared.event.Event.TheVariants.{Ask};
ghost use Rattle.ds_replica.specs.declared.outcome.Outcome.TheVariants.{Replied};
ghost use Rattle.ds_world.specs.World.{store_in};
ghost use Rattle.ds_script.specs.Session.{IsOpened, seed as described_seed, held_of, turned, IsHappening};

use ds_entry::Item;
use ds_held::Held;
use ds_machine::{Command, Reply};
use ds_names::NoRoom;
use ds_replica::{Event, Message, Outcome, Seed, Side};
use ds_submap::SubMap;
use ds_world::World;
use script_services::Servers;
use std::alloc::Global;
use std::marker::Model;

mod servers;

/// How many items each store's journal keeps, unless the first line says otherwise.
pub const RING: u32 = 256;

/// The session of scripts: a world of two stores, the side of the current one, and RS with the driver tables.
#[derive(Drop)]
pub struct Session {
    world: World,
    side: Side,
    servers: Servers,
}

impl Model for Session {
    ghost use Rattle.std.specs.Coded.{code_by, coded×};
    ghost use Rattle.ds_replica.specs.declared.event.Side.{Side};
    ghost use Rattle.ds_replica.specs.contracts.event.Side.{the_row as side_row};
    ghost use Rattle.ds_world.specs.World.{WorldRecord};
    ghost use Rattle.ds_world.specs.contracts.world.World.{the_row as world_row};
    ghost use Rattle.script_services.specs.Servers.{ServersRecord};
    ghost use Rattle.script_services.specs.contracts.servers.Servers.{the_row as servers_row};
    ghost use Rattle.ds_script.specs.Session.{SessionContent};

    ghost Value = { SessionContent };

    ghost coded = { code_by
        (WorldRecord × (Side × ServersRecord))
        (coded× world_row.coded (coded× side_row.coded servers_row.coded))
        (λ s. (s.world, (s.side, s.servers)))
        (λ p. record { world = p.0; side = p.1.0; servers = p.1.1 })
        (λ s i. s) };

    ghost view = { λ s. record { world = s.world; side = s.side; servers = s.servers } };
}

impl Session {
    /// Opens a new session: stores of incarnations 1 and 2 whose journals keep `ring` items, no maps, no messages, side
    /// a current, no settings, no units. NoRoom: out of memory for the stores' rings.
    pub fn open(alloc: Global, ring: u32) -> Result<Session, NoRoom>
        requires { (1 ≤ ring) × (ring ≤ 4096) }
        ensures opened { IfOk result (λ session. IsOpened ring session) }
    {
        match World::new(alloc, seed(1, ring), seed(2, ring)) {
            Ok(world) => Ok(Session {
                world,
                side: Side::A,
                servers: Servers::new(alloc),
            }),
            // The rings are in range, and the incarnations differ: only memory is left.
            Err(_) => Err(NoRoom),
        }
    }

    /// Returns the side of the current store.
    pub(crate) fn side(&self) -> Side
        ensures { result ≡ self.now.side }
    {
        self.side
    }

    /// Returns the incarnation of a side's store.
    pub(crate) fn incarnation(&self, side: Side) -> u64
        ensures { result ≡ (store_in self.now.world side).journal.incarnation }
    {
        self.world.store(side).incarnation()
    }

    /// Makes the store of this side the current one.
    pub(crate) fn turn_to(&mut self, side: Side)
        ensures { self.new ≡ turned self.old side }
    {
        self.side = side;
    }

    /// Lets one event happen, and returns its outcome.
    pub(crate) fn happen(&mut self, event: Event) -> Outcome
        ensures { IsHappening event result self.old self.new }
    {
        self.world.happen(event)
    }

    /// Sends a command whose reply has no items to the current store, and returns the reply. It does what `happen` does
    /// for an Ask, with neither event nor outcome.
    pub(crate) fn ask(&mut self, command: Command) -> Reply
        requires { gives_items command ≡ false }
        ensures { IsHappening (Ask self.old.side command) (Replied result) self.old self.new }
    {
        self.world.reply(self.side, command)
    }

    /// Merges one borrowed item into the current store, and returns the reply, as `ask` does for that Merge.
    pub(crate) fn fast_offer(&mut self, item: &Item) -> Reply
        ensures { IsHappening (Ask self.old.side (Merge (item.now ∷ []))) (Replied result) self.old self.new }
    {
        self.world.fast_offer(self.side, item)
    }

    /// Returns what the current store holds.
    pub(crate) fn held(&self) -> &Held
        ensures { held_items result.now ≡ held_of self.now }
    {
        self.world.store(self.side).held()
    }

    /// Returns a map by its number.
    pub(crate) fn map(&self, number: u64) -> Option<&SubMap>
        ensures { option_copied result ≡ slice_get self.now.world.maps number }
    {
        self.world.map(number as usize)
    }

    /// Returns a message by its number: a reply that a store gave.
    pub(crate) fn message(&self, number: usize) -> Option<&Message>
        ensures { option_copied result ≡ slice_get self.now.world.messages number }
    {
        self.world.message(number)
    }
}

// Returns how the store of an incarnation is opened.
fn seed(incarnation: u64, ring: u32) -> Seed
    ensures { result ≡ described_seed incarnation ring }
{
    Seed {
        incarnation,
        first: 0,
        ring,
    }
}
