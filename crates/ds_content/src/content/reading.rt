//! Reads of the journal and of everything held.

ghost use Rattle.std.specs.Prelude.{◌≡◌, ◌≢◌, [], Err, IfOk, IfErr, OnErr};
ghost use Rattle.ds_entry.specs.Item.{passes};
ghost use Rattle.ds_feed.specs.Since.{since_of, IsGiven, IsSinceRefused};
ghost use Rattle.ds_content.specs.Stands.{InEachState};
ghost use Rattle.ds_content.specs.Given.{content_snapshot, state_snapshot};

use crate::content::Content;
use crate::content::copying::all_under;
use ds_feed::{Cursor, KeyScope, Since, SinceFault, Snapshot};
use ds_names::NoRoom;

impl Content {
    /// Returns at most `max` items that took effect under the scope from the cursor on, and the cursor after all that
    /// was looked at. Refuses as OldCursor for another incarnation, Ahead past the next item's position, Behind if the
    /// journal no longer reaches back to the cursor, and last as NoRoom if memory runs out for an item that it returns.
    pub fn since<S: KeyScope>(
        &self,
        scope: &mut S,
        cursor: Cursor,
        max: u32,
    ) -> Result<Since, SinceFault>
        ensures given { InEachState self.now (λ s. IfOk result (IsGiven s.feed (passes (S.keeps scope.old)) cursor max)) }
        ensures refused { InEachState self.now (λ s. IfErr result (IsSinceRefused s.feed cursor)) }
        ensures lacks { InEachState self.now (λ s. result ≡ Err SinceFault.NoRoom
            → (since_of s.feed (passes (S.keeps scope.old)) cursor max).items ≢ []) }
        ensures scope { S.keeps scope.new ≡ S.keeps scope.old }
    {
        self.journal.since_under(self.alloc, scope, cursor, max)
    }

    /// Returns everything held under the scope, floors first, then changes in key order, and the cursor after
    /// everything that took effect. Fails only if memory runs out for an item that it would return.
    pub fn snapshot<S: KeyScope>(&self, scope: &mut S) -> Result<Snapshot, NoRoom>
        ensures given { IfOk result (λ snapshot. snapshot ≡ content_snapshot self.now (passes (S.keeps scope.old))) }
        ensures stands { InEachState self.now (λ s. IfOk result (λ snapshot. snapshot ≡ state_snapshot s (passes (S.keeps scope.old)))) }
        ensures lacks { InEachState self.now (λ s. OnErr result ((state_snapshot s (passes (S.keeps scope.old))).items ≢ [])) }
        ensures scope { S.keeps scope.new ≡ S.keeps scope.old }
    {
        let items = all_under(self.alloc, self.held.held(), scope)?;
        Ok(Snapshot {
            items,
            cursor: self.journal.cursor(),
        })
    }
}
