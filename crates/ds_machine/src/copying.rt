//! Copies of commands and replies.

ghost use Rattle.std.specs.Prelude.{◌≡◌, ◌≢◌, [], IfOk, OnErr};
ghost use Rattle.ds_machine.specs.Copying.{CommandCopyTakesMemory, ReplyCopyTakesMemory, ScopeCopyTakesMemory};
ghost use Rattle.ds_machine.specs.declared.reply.Reply.TheVariants.{Checked, Merged, MergeStopped};

use crate::command::{Command, Scope};
use crate::refusal::Refusal;
use crate::reply::Reply;
use ds_entry::Items;
use ds_feed::{Page, Since, Snapshot};
use ds_names::NoRoom;
use std::alloc::Global;

impl Scope {
    /// Returns a copy. Fails only if memory runs out; without a pattern's text it takes none.
    pub fn copy(&self, alloc: Global) -> Result<Scope, NoRoom>
        ensures same { IfOk result (λ copy. copy ≡ self.now) }
        ensures room { OnErr result (ScopeCopyTakesMemory self.now) }
    {
        match self {
            Scope::All => Ok(Scope::All),
            Scope::Under(query) => Ok(Scope::Under(query.copy(alloc)?)),
        }
    }
}

impl Command {
    /// Returns a copy. Fails only if memory runs out; only an item, a pattern's text, and a text or a blob that isn't empty take any.
    pub fn copy(&self, alloc: Global) -> Result<Command, NoRoom>
        ensures same { IfOk result (λ copy. copy ≡ self.now) }
        ensures room { OnErr result (CommandCopyTakesMemory self.now) }
    {
        match self {
            Command::Publish {
                caller,
                key,
                version,
                value,
                overwrite,
            } => Ok(Command::Publish {
                caller: *caller,
                key: *key,
                version: *version,
                value: value.copy(alloc)?,
                overwrite: *overwrite,
            }),
            Command::Delete {
                caller,
                key,
                version,
            } => Ok(Command::Delete {
                caller: *caller,
                key: *key,
                version: *version,
            }),
            Command::Sweep {
                caller,
                owner,
                generation,
            } => Ok(Command::Sweep {
                caller: *caller,
                owner: *owner,
                generation: *generation,
            }),
            Command::Retrieve { key } => Ok(Command::Retrieve { key: *key }),
            Command::NameOf { endpoint } => Ok(Command::NameOf {
                endpoint: *endpoint,
            }),
            Command::Subscribe {
                sub,
                query,
                initial,
                overwrite,
            } => Ok(Command::Subscribe {
                sub: *sub,
                query: query.copy(alloc)?,
                initial: *initial,
                overwrite: *overwrite,
            }),
            Command::Check { sub, max } => Ok(Command::Check {
                sub: *sub,
                max: *max,
            }),
            Command::Since { scope, cursor, max } => Ok(Command::Since {
                scope: scope.copy(alloc)?,
                cursor: *cursor,
                max: *max,
            }),
            Command::Snapshot { scope } => Ok(Command::Snapshot {
                scope: scope.copy(alloc)?,
            }),
            Command::Page { scope, after, max } => Ok(Command::Page {
                scope: scope.copy(alloc)?,
                after: *after,
                max: *max,
            }),
            Command::Merge { items } => Ok(Command::Merge {
                items: items.copy(alloc)?,
            }),
        }
    }
}

// Returns the reply to a Check.
fn checked(items: Items, before: u64, after: u64) -> Reply
    ensures { result ≡ Checked items before after }
{
    Reply::Checked {
        items,
        before,
        after,
    }
}

// Returns the reply to a Merge that did all its items.
fn merged(done: usize, taken: usize, stale: usize, owed: u128) -> Reply
    ensures { result ≡ Merged done taken stale owed }
{
    Reply::Merged {
        done,
        taken,
        stale,
        owed,
    }
}

// Returns the reply to a Merge that stopped.
fn stopped(done: usize, fault: Refusal, owed: u128) -> Reply
    ensures { result ≡ MergeStopped done fault owed }
{
    Reply::MergeStopped { done, fault, owed }
}

fn since_again(alloc: Global, since: &Since) -> Result<Since, NoRoom>
    ensures same { IfOk result (λ copy. copy ≡ since.now) }
    ensures room { OnErr result (since.now.items ≢ []) }
{
    Ok(Since {
        items: since.items.copy(alloc)?,
        cursor: since.cursor,
    })
}

fn snapshot_again(alloc: Global, snapshot: &Snapshot) -> Result<Snapshot, NoRoom>
    ensures same { IfOk result (λ copy. copy ≡ snapshot.now) }
    ensures room { OnErr result (snapshot.now.items ≢ []) }
{
    Ok(Snapshot {
        items: snapshot.items.copy(alloc)?,
        cursor: snapshot.cursor,
    })
}

fn page_again(alloc: Global, page: &Page) -> Result<Page, NoRoom>
    ensures same { IfOk result (λ copy. copy ≡ page.now) }
    ensures room { OnErr result (page.now.items ≢ []) }
{
    Ok(Page {
        items: page.items.copy(alloc)?,
        last: page.last,
        cursor: page.cursor,
    })
}

impl Reply {
    /// Returns a copy. Fails only if memory runs out; only an item, a pattern's text, and a text or a blob that isn't empty take any.
    pub fn copy(&self, alloc: Global) -> Result<Reply, NoRoom>
        ensures same { IfOk result (λ copy. copy ≡ self.now) }
        ensures room { OnErr result (ReplyCopyTakesMemory self.now) }
    {
        match self {
            Reply::Changed { owed } => Ok(Reply::Changed { owed: *owed }),
            Reply::Known => Ok(Reply::Known),
            Reply::Swept { count, owed } => Ok(Reply::Swept {
                count: *count,
                owed: *owed,
            }),
            Reply::Found(value) => Ok(Reply::Found(value.copy(alloc)?)),
            Reply::Named(name) => Ok(Reply::Named(*name)),
            Reply::Subscribed { stamp, owed } => Ok(Reply::Subscribed {
                stamp: *stamp,
                owed: *owed,
            }),
            Reply::Checked {
                items,
                before,
                after,
            } => Ok(checked(items.copy(alloc)?, *before, *after)),
            Reply::Journaled(since) => Ok(Reply::Journaled(since_again(alloc, since)?)),
            Reply::Snapped(snapshot) => Ok(Reply::Snapped(snapshot_again(alloc, snapshot)?)),
            Reply::Paged(page) => Ok(Reply::Paged(page_again(alloc, page)?)),
            Reply::Merged {
                done,
                taken,
                stale,
                owed,
            } => Ok(merged(*done, *taken, *stale, *owed)),
            Reply::MergeStopped { done, fault, owed } => Ok(stopped(*done, *fault, *owed)),
            Reply::Refused(refusal) => Ok(Reply::Refused(*refusal)),
        }
    }
}
