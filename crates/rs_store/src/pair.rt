//! RS and its store.

ghost use Rattle.std.specs.Prelude.{◌≡◌, ◌≤◌, None, IfOk, IfErr, IfSome, OnOk, option_map};
ghost use Rattle.std.specs.Option.{option_copied};
ghost use Rattle.ds_feed.specs.Kept.{IsRing};
ghost use Rattle.ds_held.specs.Limits.{larger};
ghost use Rattle.ds_machine.specs.State.{opening};
ghost use Rattle.ds_names.specs.Limits.{last_place};
ghost use Rattle.ds_content.specs.Stands.{ContentStands};
ghost use Rattle.ds_store.specs.Opening.{IsOpenRefusal};
ghost use Rattle.std.specs.Borrow.{sem};
ghost use Rattle.rs_store.specs.Lending.{LendsStore};
ghost use Rattle.rs_store.specs.Renewing.{Renews};
ghost use Rattle.rs_store.specs.Serving.{BeginTurn, EventTurn};
ghost use Rattle.rs_store.specs.Turns.{RsTurn};

use crate::call::{RsCommand, RsReply};
use crate::renewing::renew;
use crate::serving::{ask, begin, serve};
use ds_machine::Refusal;
use ds_store::Store;
use rs_core::{Event, RenewFault, Rs};
use rs_settings::Settings;
use std::alloc::Global;
use std::marker::Model;

/// RS, once it has begun, and its store.
#[derive(Drop)]
pub struct RsStore {
    alloc: Global,
    services: Option<Rs>,
    store: Store,
}

impl Model for RsStore {
    ghost use Rattle.std.specs.Prelude.{Option};
    ghost use Rattle.std.specs.Coded.{code_by, coded×, coded_option};
    ghost use Rattle.rs_core.specs.State.{RsRecord};
    ghost use Rattle.rs_core.specs.contracts.rs.Rs.{the_row as rs_row};
    ghost use Rattle.ds_content.specs.Content.{ContentRecord};
    ghost use Rattle.ds_store.specs.contracts.store.Store.{the_row as store_row};
    ghost use Rattle.rs_store.specs.Pair.{PairRecord, pair_of};

    ghost Value = { PairRecord };

    ghost coded = { code_by
        (Option RsRecord × ContentRecord)
        (coded× (coded_option rs_row.coded) store_row.coded)
        (λ p. (p.services, p.store))
        (λ p. pair_of p.0 p.1)
        (λ p i. p) };

    ghost view = { λ p. pair_of p.services p.store };
}

impl RsStore {
    /// Opens a store of 128 subscriptions and 4096 keys; RS hasn't begun. Refuses what `Store::open` refuses.
    pub fn open(alloc: Global, incarnation: u64, first: u64, ring: u32) -> Result<RsStore, Refusal>
        ensures opened { IfOk result (λ p. ContentStands p.store (opening incarnation first ring larger)) }
        ensures fits { OnOk result (IsRing ring × (first ≤ last_place)) }
        ensures none { IfOk result (λ p. p.services ≡ None) }
        ensures refused { IfErr result (λ refusal. IsOpenRefusal refusal first ring) }
    {
        let store = Store::open(alloc, incarnation, first, ring)?;
        Ok(RsStore {
            alloc,
            services: None,
            store,
        })
    }

    /// Answers a command, in one turn of the machine: a client's command, a beginning or an event. Once RS has begun, refuses
    /// a client's command with RS as its caller as NotAllowed, before any other cause, and changes nothing.
    pub fn answer(&mut self, command: RsCommand) -> RsReply
        ensures { RsTurn self.old command result self.new }
    {
        match command {
            RsCommand::Ask(command) => ask(&self.services, &mut self.store, command),
            RsCommand::Begin {
                settings,
                next,
                first,
            } => self.begin(settings, next, first),
            RsCommand::Tell { event, tick } => self.tell(event, tick),
        }
    }

    /// Lends the store, for turns. RS is unchanged. Unlike `answer`, it bars no command: once RS has begun, a caller that
    /// serves clients refuses those that `is_by_rs` finds.
    #[inline(always)]
    pub fn store_mut(&mut self) -> &mut Store
        ensures* writes_back { sem 𝓛 (LendsStore self.entry result) }
        ensures value { result.now ≡ self.old.store }
    {
        &mut self.store
    }

    /// Begins RS with settings: every service is down, the first start gets the generation `next`, and the slots begin at
    /// `first`. The store is unchanged.
    ///
    /// A system with one RS uses 1 and 16. A later run continues at the earlier run's next generation. Two hosts that exchange
    /// entries use disjoint slots.
    ///
    /// Refuses as Exists if RS has begun, then as OutOfRange if `next` isn't 1 to 2097152, `first` is below 16, or the last
    /// slot is above 1023. Then reports NoRoom if memory runs out, which only settings with a service take. A refusal changes
    /// nothing.
    pub fn begin(&mut self, settings: Settings, next: u32, first: u16) -> RsReply
        ensures services { BeginTurn self.old.services settings next first result self.new.services }
        ensures store { self.new.store ≡ self.old.store }
    {
        begin(self.alloc, &mut self.services, settings, next, first)
    }

    /// Passes an event to RS at a tick, and RS's label changes and sweeps to the store, in order. Returns RS's actions, the
    /// store's reply to each, and the service that RS gave up.
    ///
    /// Refuses as `Rs::event` does, and changes neither RS nor the store then. NoRoom is reported after every other fault,
    /// and only for an event with actions. RS has stepped even if the store refuses one of its changes.
    ///
    /// Before RS has begun, nothing changes. An event of a label is refused as UnknownLabel, one of an endpoint as
    /// OldEndpoint, and a tick has no actions.
    pub fn tell(&mut self, event: Event, tick: u64) -> RsReply
        ensures { EventTurn event tick self.old.services self.old.store result self.new.services self.new.store }
    {
        serve(self.alloc, &mut self.services, &mut self.store, event, tick)
    }

    /// Gives RS other settings, as `Rs::renew` does, between two turns. Returns `None` if RS hasn't begun. The store is
    /// unchanged, with its subscriptions.
    ///
    /// Whatever publishes is judged by the new settings from then on. A refusal changes nothing.
    pub fn renew(&mut self, settings: Settings) -> Option<Result<(), RenewFault>>
        ensures services { Renews self.old.services settings result self.new.services }
        ensures store { self.new.store ≡ self.old.store }
    {
        renew(&mut self.services, settings)
    }

    /// Returns the store, for reads.
    pub fn store(&self) -> &Store
        ensures { result.now ≡ self.now.store }
    {
        &self.store
    }

    /// Returns RS, for reads; `None` before it has begun.
    pub fn services(&self) -> Option<&Rs>
        ensures { option_copied result ≡ self.now.services }
    {
        self.services.as_ref()
    }
}
