//! Since, Snapshot and Page.

ghost use Rattle.std.specs.Prelude.{◌≡◌, Err, IfOk, IfErr, OnErr};
ghost use Rattle.ds_machine.specs.State.{State};
ghost use Rattle.ds_machine.specs.Machine.{Answers, journaling, snapping, paging};
ghost use Rattle.ds_machine.specs.Scope.{is_kept};
ghost use Rattle.ds_feed.specs.Since.{since_of, IsGiven};
ghost use Rattle.ds_store.specs.Last.{IsLast, GivingTakesMemory};
ghost use Rattle.ds_store.specs.Refused.{IsJournalRefusal};
ghost use Rattle.ds_store.specs.Scopes.{scope_of};
ghost use Rattle.ds_content.specs.Stands.{ContentStands};
ghost use Rattle.ds_store.specs.Reading.{page_in, snapshot_in};

use crate::reading::{refusal_of_journal, scope_of_page, scope_of_since};
use crate::scope::ScopeFilter;
use crate::store::Store;
use ds_feed::{AllKeys, Cursor, Page, Since, Snapshot};
use ds_machine::{Command, Refusal, Reply, Scope};
use ds_names::{Key, NoRoom};

impl Store {
    // Returns the refusal of a Since when memory for the scope's matcher ran out: that of the cursor (OldCursor, Ahead
    // or Behind), else NoRoom.
    fn refusal_without_room(&self, cursor: Cursor) -> Refusal
        ensures { (s : State) → ContentStands self.now s → IsJournalRefusal s.feed cursor result }
    {
        match self.content.since(&mut AllKeys, cursor, 0) {
            Ok(_) => Refusal::NoRoom,
            Err(fault) => refusal_of_journal(fault),
        }
    }

    // Reads the journal under a scope that was read.
    fn give_since(&self, filter: &ScopeFilter, cursor: Cursor, max: u32) -> Result<Since, Refusal>
        ensures given { (s : State) → ContentStands self.now s → IfOk result (IsGiven s.feed (is_kept (scope_of filter.now)) cursor max) }
        ensures refused { (s : State) → ContentStands self.now s → IfErr result (IsJournalRefusal s.feed cursor) }
        ensures lacks { (s : State) → ContentStands self.now s → result ≡ Err Refusal.NoRoom
            → GivingTakesMemory (scope_of filter.now) (since_of s.feed (is_kept (scope_of filter.now)) cursor max).items }
    {
        let Ok(mut asker) = filter.asker(self.alloc) else {
            return Err(self.refusal_without_room(cursor));
        };
        match self.content.since(&mut asker, cursor, max) {
            Ok(since) => Ok(since),
            Err(fault) => Err(refusal_of_journal(fault)),
        }
    }

    // Answers a Since: up to `max` items that took effect under the scope from the cursor on.
    pub(super) fn since(&self, scope: &Scope, cursor: Cursor, max: u32) -> Reply
        ensures answer { (s : State) → ContentStands self.now s → Answers s (journaling s scope.now cursor max) result s }
        ensures last { (s : State) → ContentStands self.now s → IsLast s (Command.Since scope.now cursor max) result }
    {
        let filter = match scope_of_since(self.alloc, scope, max) {
            Ok(filter) => filter,
            Err(refusal) => return Reply::Refused(refusal),
        };
        match self.give_since(&filter, cursor, max) {
            Ok(since) => Reply::Journaled(since),
            Err(refusal) => Reply::Refused(refusal),
        }
    }

    // Returns everything held under a scope that was read.
    fn give_snapshot(&self, filter: &ScopeFilter) -> Result<Snapshot, NoRoom>
        ensures value { (s : State) → ContentStands self.now s → IfOk result (λ snapshot. snapshot ≡ snapshot_in s (scope_of filter.now)) }
        ensures lacks { (s : State) → ContentStands self.now s
            → OnErr result (GivingTakesMemory (scope_of filter.now) (snapshot_in s (scope_of filter.now)).items) }
    {
        let mut asker = filter.asker(self.alloc)?;
        self.content.snapshot(&mut asker)
    }

    // Answers a Snapshot: everything held under the scope.
    pub(super) fn snapshot(&self, scope: &Scope) -> Reply
        ensures answer { (s : State) → ContentStands self.now s → Answers s (snapping s scope.now) result s }
        ensures last { (s : State) → ContentStands self.now s → IsLast s (Command.Snapshot scope.now) result }
    {
        let filter = match ScopeFilter::read(self.alloc, scope) {
            Ok(filter) => filter,
            Err(refusal) => return Reply::Refused(refusal),
        };
        match self.give_snapshot(&filter) {
            Ok(snapshot) => Reply::Snapped(snapshot),
            Err(NoRoom) => Reply::Refused(Refusal::NoRoom),
        }
    }

    // Returns a page under a scope that was read.
    fn give_page(&self, filter: &ScopeFilter, after: Option<Key>, max: u32) -> Result<Page, NoRoom>
        ensures value { (s : State) → ContentStands self.now s → IfOk result (λ page. page ≡ page_in s (scope_of filter.now) after max) }
        ensures lacks { (s : State) → ContentStands self.now s
            → OnErr result (GivingTakesMemory (scope_of filter.now) (page_in s (scope_of filter.now) after max).items) }
    {
        let mut asker = filter.asker(self.alloc)?;
        self.content.page(&mut asker, after, max)
    }

    // Answers a Page: the first `max` changes after the key that are held under the scope, and all floors on the first
    // page.
    pub(super) fn page(&self, scope: &Scope, after: Option<Key>, max: u32) -> Reply
        ensures answer { (s : State) → ContentStands self.now s → Answers s (paging s scope.now after max) result s }
        ensures last { (s : State) → ContentStands self.now s → IsLast s (Command.Page scope.now after max) result }
    {
        let filter = match scope_of_page(self.alloc, scope, max) {
            Ok(filter) => filter,
            Err(refusal) => return Reply::Refused(refusal),
        };
        match self.give_page(&filter, after, max) {
            Ok(page) => Reply::Paged(page),
            Err(NoRoom) => Reply::Refused(Refusal::NoRoom),
        }
    }
}
