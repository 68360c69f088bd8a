//! What a reply with items has besides its items.

ghost use Rattle.std.specs.Prelude.{◌≡◌, None, IfNone, IfSome};
ghost use Rattle.std.specs.Option.{option_copied};
ghost use Rattle.ds_replica.specs.Happens.{items_given};
ghost use Rattle.ds_replica.specs.Head.{reply_with, IsHead};

use ds_entry::Items;
use ds_feed::{Cursor, Page, Since, Snapshot};
use ds_machine::Reply;

/// What a reply with items has besides its items.
#[derive(Clone, Copy)]
pub enum Head {
    /// Of a Check: the subscription's stamps before and after it.
    Checked { before: u64, after: u64 },
    /// Of a Since: the cursor after all that was looked at.
    Journaled { cursor: Cursor },
    /// Of a Snapshot: the cursor after all that took effect.
    Snapped { cursor: Cursor },
    /// Of a Page: whether it is the last one, and the cursor after all that took effect.
    Paged { last: bool, cursor: Cursor },
}

impl Head {
    // Returns what a reply has besides its items, or `None` if it has none.
    pub(crate) fn of(reply: &Reply) -> Option<Head>
        ensures some { IfSome result (λ head. IsHead head reply.now) }
        ensures none { IfNone result (items_given reply.now ≡ None) }
    {
        match reply {
            Reply::Checked { before, after, .. } => Some(Head::Checked {
                before: *before,
                after: *after,
            }),
            Reply::Journaled(since) => Some(Head::Journaled {
                cursor: since.cursor,
            }),
            Reply::Snapped(snapshot) => Some(Head::Snapped {
                cursor: snapshot.cursor,
            }),
            Reply::Paged(page) => Some(Head::Paged {
                last: page.last,
                cursor: page.cursor,
            }),
            _ => None,
        }
    }

    // Returns the reply with these items.
    pub(crate) fn reply(self, items: Items) -> Reply
        ensures { result ≡ reply_with self items }
    {
        match self {
            Head::Checked { before, after } => Reply::Checked {
                items,
                before,
                after,
            },
            Head::Journaled { cursor } => Reply::Journaled(Since { items, cursor }),
            Head::Snapped { cursor } => Reply::Snapped(Snapshot { items, cursor }),
            Head::Paged { last, cursor } => Reply::Paged(Page {
                items,
                last,
                cursor,
            }),
        }
    }
}

// Returns the items of a reply, or `None` if it has none.
pub(crate) fn items_of(reply: &Reply) -> Option<&Items>
    ensures { option_copied result ≡ items_given reply.now }
{
    match reply {
        Reply::Checked { items, .. } => Some(items),
        Reply::Journaled(since) => Some(&since.items),
        Reply::Snapped(snapshot) => Some(&snapshot.items),
        Reply::Paged(page) => Some(&page.items),
        Reply::Changed { .. }
        | Reply::Known
        | Reply::Swept { .. }
        | Reply::Found(_)
        | Reply::Named(_)
        | Reply::Subscribed { .. }
        | Reply::Merged { .. }
        | Reply::MergeStopped { .. }
        | Reply::Refused(_) => None,
    }
}
