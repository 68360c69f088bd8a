//! Stores.

ghost use Rattle.std.specs.Prelude.{◌≡◌, ◌≢◌, ◌≤◌, IfOk, IfErr, OnOk};
ghost use Rattle.ds_feed.specs.Kept.{cursor_of, IsRing};
ghost use Rattle.ds_held.specs.Held.{held_items, IsSound};
ghost use Rattle.ds_held.specs.Limits.{larger};
ghost use Rattle.ds_machine.specs.State.{State, opening};
ghost use Rattle.ds_machine.specs.Machine.{Step};
ghost use Rattle.ds_machine.specs.declared.refusal.Refusal.TheVariants.{NoRoom};
ghost use Rattle.ds_machine.specs.Says.{IsReplyTo};
ghost use Rattle.ds_store.specs.Last.{IsLast};
ghost use Rattle.ds_content.specs.Stands.{ContentStands};
ghost use Rattle.ds_store.specs.Opening.{IsOpenRefusal, refusal_of_opening};
ghost use Rattle.ds_store.specs.InPlace.{TakesNoMemory};
ghost use Rattle.ds_store.specs.Steps.{ContentSteps};
ghost use Rattle.ds_names.specs.Limits.{last_place};

use crate::asked::deleted;
use ds_content::Content;
use ds_entry::{Body, Floor};
use ds_feed::{Cursor, OpenFault};
use ds_held::{Held, Limits};
use ds_machine::{Command, Refusal, Reply};
use std::alloc::Global;
use std::marker::Model;

mod asking;
mod finding;
mod merging;
mod reading;
mod subscribing;
mod sweeping;

/// A replica of the data store: what it holds, the journal, and its subscriptions.
#[derive(Drop)]
pub struct Store {
    alloc: Global,
    /// Boxed, so that moving or dropping a store is as cheap as moving or dropping a pointer.
    content: Box<Content>,
}

impl Model for Store {
    ghost use Rattle.ds_content.specs.Content.{ContentRecord};

    ghost Value = { ContentRecord };

    ghost view = { λ s. s.content.value };
}

// Returns the refusal for a bad ring or a bad first position.
fn refusal_of_opening(fault: OpenFault) -> Refusal
    ensures { result ≡ refusal_of_opening fault }
{
    match fault {
        OpenFault::BadRing => Refusal::BadRing,
        OpenFault::BadFirst => Refusal::BadFirst,
        OpenFault::NoRoom => Refusal::NoRoom,
    }
}

// Returns the store of a content.
fn boxed(alloc: Global, content: Content) -> Result<Store, Refusal>
    ensures made { IfOk result (λ store. store ≡ content) }
    ensures refused { IfErr result (λ refusal. refusal ≡ NoRoom) }
{
    match Box::new(alloc, content) {
        Ok(content) => Ok(Store { alloc, content }),
        Err(_) => Err(Refusal::NoRoom),
    }
}

impl Store {
    /// Opens a store with 128 subscriptions and 4096 keys. It holds nothing, and its first item gets position `first`.
    /// Refuses as BadRing unless the ring is 1 to 4096, then as BadFirst above 2^62, and last as NoRoom.
    pub fn open(alloc: Global, incarnation: u64, first: u64, ring: u32) -> Result<Store, Refusal>
        ensures opened { IfOk result (λ store. ContentStands store (opening incarnation first ring larger)) }
        ensures fits { OnOk result (IsRing ring × (first ≤ last_place)) }
        ensures refused { IfErr result (λ refusal. IsOpenRefusal refusal first ring) }
    {
        Store::open_with(alloc, incarnation, first, ring, Limits::larger())
    }

    /// Like `open`, with other limits.
    pub fn open_with(
        alloc: Global,
        incarnation: u64,
        first: u64,
        ring: u32,
        limits: Limits,
    ) -> Result<Store, Refusal>
        ensures opened { IfOk result (λ store. ContentStands store (opening incarnation first ring limits)) }
        ensures fits { OnOk result (IsRing ring × (first ≤ last_place)) }
        ensures refused { IfErr result (λ refusal. IsOpenRefusal refusal first ring) }
    {
        match Content::open(alloc, incarnation, first, ring, limits) {
            Ok(content) => boxed(alloc, content),
            Err(fault) => Err(refusal_of_opening(fault)),
        }
    }

    /// Restarts as another incarnation: holds nothing, and keeps its first position, ring and limits. Takes no memory.
    pub fn restart(&mut self, incarnation: u64)
        ensures { (s : State) → ContentStands self.old s → ContentStands self.new (opening incarnation s.feed.first s.feed.ring s.limits) }
    {
        self.content.restart(incarnation);
    }

    /// Answers a command, by one step of the store's machine.
    ///
    /// A command is refused for the first cause that applies to it, in the order of [`Refusal`]'s variants; a repeat is
    /// `Known`, judged after `Stale`. Out-of-memory is reported after every other refusal. Exception: a pattern, in a
    /// Subscribe or a scope, is compiled when its turn comes. A refused command changes nothing; a stopped Merge keeps
    /// the items that it did. NameOf, and Retrieve of a label or a number, take no memory.
    pub fn apply(&mut self, command: Command) -> Reply
        ensures step { ContentSteps self.old (λ s t. Step s command result t) self.new }
        ensures in_place { TakesNoMemory command → result ≢ Reply.Refused Refusal.NoRoom }
        ensures last { (s : State) → ContentStands self.old s → IsLast s command result }
        ensures fits { IsReplyTo command result }
    {
        let _stood = self.cursor();
        match command {
            Command::Publish {
                caller,
                key,
                version,
                value,
                overwrite,
            } => self.publish(caller, key, version, value, overwrite),
            Command::Delete {
                caller,
                key,
                version,
            } => self.ask(&deleted(caller, key, version), Body::Gone),
            Command::Sweep {
                caller,
                owner,
                generation,
            } => self.sweep(caller, Floor { owner, generation }),
            Command::Retrieve { key } => self.retrieve(&key),
            Command::NameOf { endpoint } => self.name_of(endpoint),
            Command::Subscribe {
                sub,
                query,
                initial,
                overwrite,
            } => self.subscribe(sub, &query, initial, overwrite),
            Command::Check { sub, max } => self.check(sub, max),
            Command::Since { scope, cursor, max } => self.since(&scope, cursor, max),
            Command::Snapshot { scope } => self.snapshot(&scope),
            Command::Page { scope, after, max } => self.page(&scope, after, max),
            Command::Merge { items } => self.fast_merge(items.as_slice()),
        }
    }

    /// Returns what is held: the greatest floor of each owner, and for each key the greatest version that no floor
    /// makes void.
    pub fn held(&self) -> &Held
        ensures value { held_items result.now ≡ self.now.held }
        ensures limits { result.now.limits ≡ self.now.limits }
        ensures sound { IsSound result.now }
        ensures stood { (s : State) × ContentStands self.now s }
    {
        self.content.held()
    }

    /// Returns the cursor after everything that took effect: the incarnation, and the position of the next item.
    pub fn cursor(&self) -> Cursor
        ensures value { result ≡ cursor_of self.now.journal }
        ensures limit { result.position ≤ last_place }
        ensures stood { (s : State) × ContentStands self.now s }
    {
        self.content.cursor()
    }

    /// Returns the number of this run, which tells its cursors from those of earlier runs.
    pub fn incarnation(&self) -> u64
        ensures { result ≡ self.now.journal.incarnation }
    {
        self.content.cursor().incarnation
    }

    /// Returns how many subscriptions and keys there may be.
    pub fn limits(&self) -> Limits
        ensures { result ≡ self.now.limits }
    {
        self.content.limits()
    }
}
