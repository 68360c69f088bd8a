//! Opening and restarting a world's stores.

ghost use Rattle.std.specs.Prelude.{◌≡◌, true, false, IfOk, IfErr, IfNone, IfSome};
ghost use Rattle.ds_feed.specs.Kept.{IsRing};
ghost use Rattle.ds_held.specs.Limits.{larger};
ghost use Rattle.ds_machine.specs.State.{opening};
ghost use Rattle.ds_content.specs.Stands.{ContentStands};
ghost use Rattle.ds_replica.specs.declared.event.Event.TheVariants.{RestartStore};
ghost use Rattle.ds_world.specs.Seeds.{AreSeeds, IsSeed, IsSeedFault};
ghost use Rattle.ds_world.specs.Run.{EventLeads};
ghost use Rattle.ds_world.specs.Told.{IsTold};

use crate::fault::SeedFault;
use crate::world::World;
use ds_names::limits::{LARGEST_RING, LAST_PLACE};
use ds_replica::{EventFault, Outcome, Seed, Side};
use ds_store::Store;
use std::alloc::Global;

// Returns whether a ring keeps 1 to 4096 items.
fn is_ring(ring: u32) -> bool
    ensures yes { result ≡ true → IsRing ring }
    ensures no { result ≡ false → ¬ IsRing ring }
{
    0 < ring && ring <= LARGEST_RING
}

// Returns the first fault of two seeds.
pub(super) fn seed_fault(a: &Seed, b: &Seed) -> Option<SeedFault>
    ensures none { IfNone result (AreSeeds a.now b.now) }
    ensures some { IfSome result (λ fault. IsSeedFault fault a.now b.now) }
{
    if !is_ring(a.ring) || !is_ring(b.ring) {
        return Some(SeedFault::BadRing);
    }
    if a.first > LAST_PLACE || b.first > LAST_PLACE {
        return Some(SeedFault::BadFirst);
    }
    if a.incarnation == b.incarnation {
        return Some(SeedFault::OldIncarnation);
    }
    None
}

// Opens a store with a seed. Its precondition leaves NoRoom as the only error.
pub(super) fn opened(alloc: Global, seed: Seed) -> Result<Store, SeedFault>
    requires { IsSeed seed }
    ensures opened { IfOk result (λ store. ContentStands store (opening seed.incarnation seed.first seed.ring larger)) }
    ensures noroom { IfErr result (λ fault. fault ≡ SeedFault.NoRoom) }
{
    match Store::open(alloc, seed.incarnation, seed.first, seed.ring) {
        Ok(store) => Ok(store),
        Err(_) => Err(SeedFault::NoRoom),
    }
}

impl World {
    // Opens a store again, empty, as another incarnation.
    pub(super) fn restart(&mut self, side: Side, incarnation: u64) -> Outcome
        ensures leads { EventLeads (RestartStore side incarnation) result self.old self.new }
        ensures told { IsTold (RestartStore side incarnation) result self.old self.new }
    {
        if incarnation <= self.a.incarnation() || incarnation <= self.b.incarnation() {
            return Outcome::Refused(EventFault::OldIncarnation);
        }
        match side {
            Side::A => self.a.restart(incarnation),
            Side::B => self.b.restart(incarnation),
        }
        Outcome::Restarted
    }
}
