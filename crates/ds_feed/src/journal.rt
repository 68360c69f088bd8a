//! Journals.

ghost use Rattle.std.specs.Prelude.{◌≡◌, ◌≢◌, ◌≤◌, ◌<◌, ◌+◌, ◌++◌, ◌∷◌, [], length, drop, take, filter, true};
ghost use Rattle.std.specs.Prelude.{IfOk, IfErr, OnOk, OnErr, Some, None, Err};
ghost use Rattle.ds_entry.specs.Item.{passes};
ghost use Rattle.ds_feed.specs.Feed.{Feed, opening_feed, restarted, accepts, from, all_keys};
ghost use Rattle.ds_feed.specs.Since.{place_fault, fault_at, since_of, IsGiven, IsSinceRefused};
ghost use Rattle.ds_feed.specs.Kept.{Keeps, IsJournal, IsStart, cursor_of, IsRing, IsJournalFault};
ghost use Rattle.ds_names.specs.Limits.{last_place};

use crate::cursor::Cursor;
use crate::reading::Since;
use crate::scope::{AllKeys, KeyScope};
use circular_buffer::HeapCircularBuffer;
use ds_entry::{Item, Items};
use ds_names::NoRoom;
use ds_names::limits::{LARGEST_RING, LAST_PLACE};
use std::alloc::Global;
use std::marker::Model;
use thiserror::Error;

/// Why a journal can't be opened. The causes are judged in this order.
#[derive(Clone, Copy, Debug, PartialEq, Eq, Error)]
pub enum OpenFault {
    /// The ring isn't 1 to 4096.
    #[error("a ring keeps 1 to 4096 items")]
    BadRing,
    /// The first position is above 2^62.
    #[error("positions end at 2^62")]
    BadFirst,
    /// Out of memory for the ring.
    #[error("out of memory")]
    NoRoom,
}

/// Why a cursor is refused. The causes are judged in this order.
#[derive(Clone, Copy, Debug, PartialEq, Eq, Error)]
pub enum SinceFault {
    /// The cursor is of another incarnation.
    #[error("the cursor is of another incarnation")]
    OldCursor,
    /// The cursor is past the position of the next item.
    #[error("the cursor is ahead")]
    Ahead,
    /// The ring doesn't reach back to the cursor.
    #[error("the journal doesn't reach back to the cursor")]
    Behind,
    /// Out of memory for the items.
    #[error("out of memory")]
    NoRoom,
}

impl From<NoRoom> for SinceFault {
    ghost use Rattle.std.specs.Prelude.{◌≡◌};
    ghost use Rattle.ds_feed.specs.declared.journal.SinceFault.TheVariants.{NoRoom as no_room};

    ghost from_gives = { λ _ fault. fault ≡ no_room };

    fn from(_refused: NoRoom) -> SinceFault {
        SinceFault::NoRoom
    }
}

/// The last items that took effect in a store, and the position of the next one.
///
/// The first item has position `first`, and each item's position is one above that of the item before it. The ring is
/// allocated once, so appending an item takes no memory.
#[derive(Drop)]
pub struct Journal {
    incarnation: u64,
    first: u64,
    position: u64,
    items: HeapCircularBuffer<Item>,
}

impl Model for Journal {
    ghost use Rattle.ds_feed.specs.Kept.{Kept};
    ghost use Rattle.ds_feed.specs.Sound.{kept_of, IsJournalSound};

    ghost Value = { Kept };

    ghost view = { kept_of };

    ghost invariant = { IsJournalSound };
}

impl Journal {
    /// Opens an empty journal that keeps the last `ring` items, and whose first item gets position `first`.
    ///
    /// Refuses a ring of 0 or above 4096 as BadRing, then a `first` above 2^62 as BadFirst. Then reports NoRoom if memory
    /// runs out.
    pub fn new(alloc: Global, incarnation: u64, first: u64, ring: u32) -> Result<Journal, OpenFault>
        ensures opened { IfOk result (λ journal. Keeps journal (opening_feed incarnation first ring)) }
        ensures fits { OnOk result (IsRing ring × (first ≤ last_place)) }
        ensures refused { IfErr result (λ fault. IsJournalFault fault first ring) }
    {
        if ring == 0 || ring > LARGEST_RING {
            return Err(OpenFault::BadRing);
        }
        if first > LAST_PLACE {
            return Err(OpenFault::BadFirst);
        }
        match HeapCircularBuffer::with_capacity(alloc, ring as usize) {
            Ok(items) => Ok(Journal {
                incarnation,
                first,
                position: first,
                items,
            }),
            Err(_) => Err(OpenFault::NoRoom),
        }
    }

    /// Empties the journal for another incarnation. The first position and the ring are unchanged. Takes no memory.
    pub fn restart(&mut self, incarnation: u64)
        ensures { (f : Feed) → Keeps self.old f → Keeps self.new (restarted f incarnation) }
    {
        self.items.clear();
        self.position = self.first;
        self.incarnation = incarnation;
    }

    /// Appends the next item. A full ring loses its oldest one. Takes no memory.
    #[inline(always)]
    pub fn push(&mut self, item: Item)
        requires { self.old.position < last_place }
        ensures { (f : Feed) → Keeps self.old f → Keeps self.new (accepts f item) }
    {
        let _oldest = self.items.push_back(item);
        self.position += 1;
    }

    /// Returns the cursor after the last item.
    pub fn cursor(&self) -> Cursor
        ensures value { result ≡ cursor_of self.now }
        ensures journal { IsJournal self.now }
    {
        Cursor {
            incarnation: self.incarnation,
            position: self.position,
        }
    }

    /// Returns the position of the first item of an incarnation.
    pub fn first(&self) -> u64
        ensures { result ≡ self.now.first }
    {
        self.first
    }

    /// Returns the first `max` items from the cursor on, or all.
    ///
    /// Refuses a cursor of another incarnation as OldCursor, then one past the position of the next item as Ahead, then one
    /// that the ring doesn't reach back to as Behind. Then reports NoRoom if memory runs out for an item that it returns.
    pub fn since(&self, alloc: Global, cursor: Cursor, max: u32) -> Result<Since, SinceFault>
        ensures given { (f : Feed) → Keeps self.now f → IfOk result (IsGiven f (passes all_keys) cursor max) }
        ensures items { (f : Feed) → Keeps self.now f → IfOk result (λ since. since.items ≡ take max (from f cursor.position)) }
        ensures refused { (f : Feed) → Keeps self.now f → IfErr result (λ fault. IsSinceRefused f cursor fault) }
        ensures lacks { (f : Feed) → Keeps self.now f → result ≡ Err SinceFault.NoRoom → take max (from f cursor.position) ≢ [] }
    {
        self.since_under(alloc, &mut AllKeys, cursor, max)
    }

    /// Like `since`, for the items under a scope, with the cursor after the last item looked at. A floor is under every
    /// scope.
    ///
    /// Looks at no more items than it takes to find `max` of them, and copies only those that it returns. Nothing else
    /// takes memory.
    pub fn since_under<S: KeyScope>(
        &self,
        alloc: Global,
        scope: &mut S,
        cursor: Cursor,
        max: u32,
    ) -> Result<Since, SinceFault>
        ensures given { (f : Feed) → Keeps self.now f → IfOk result (IsGiven f (passes (S.keeps scope.old)) cursor max) }
        ensures refused { (f : Feed) → Keeps self.now f → IfErr result (λ fault. IsSinceRefused f cursor fault) }
        ensures lacks { (f : Feed) → Keeps self.now f → result ≡ Err SinceFault.NoRoom
            → (since_of f (passes (S.keeps scope.old)) cursor max).items ≢ [] }
        ensures scope { S.keeps scope.new ≡ S.keeps scope.old }
    {
        let start = self.start(cursor)?;
        let mut items = Items::new(alloc);
        let mut left = max;
        let mut next = start;
        while left > 0 {
            let Some(item) = self.items.get(next) else {
                break;
            };
            if add(alloc, scope, item, &mut items)? {
                left -= 1;
            }
            next += 1;
        }
        Ok(Since {
            items,
            cursor: Cursor {
                incarnation: cursor.incarnation,
                position: cursor.position + (next - start) as u64,
            },
        })
    }

    // Returns the index in the ring of the item after the cursor, or why the cursor is refused.
    fn start(&self, cursor: Cursor) -> Result<usize, SinceFault>
        ensures found { (f : Feed) → Keeps self.now f → IfOk result (IsStart self.now f cursor) }
        ensures within { IfOk result (λ i. i ≤ length self.now.items) }
        ensures room { IfOk result (λ i. cursor.position + length self.now.items ≤ last_place + i) }
        ensures refused { (f : Feed) → Keeps self.now f → IfErr result (λ fault. IsSinceRefused f cursor fault) }
        ensures judged { IfErr result (λ fault. fault ≢ SinceFault.NoRoom) }
    {
        place(self.incarnation, self.position, self.items.len(), cursor)
    }
}

// Appends a copy of the item if it is under the scope, and returns whether it is. A floor always is. A change and a floor
// are copied in separate arms, which saves one move.
fn add<S: KeyScope>(
    alloc: Global,
    scope: &mut S,
    item: &Item,
    items: &mut Items,
) -> Result<bool, NoRoom>
    ensures told { IfOk result (λ yes. yes ≡ passes (S.keeps scope.old) item.now) }
    ensures added { OnOk result (items.new ≡ items.old ++ filter (passes (S.keeps scope.old)) (item.now ∷ [])) }
    ensures lacks { OnErr result (passes (S.keeps scope.old) item.now ≡ true) }
    ensures scope { S.keeps scope.new ≡ S.keeps scope.old }
{
    match item {
        Item::Change(change) => {
            if !scope.admits(change.key()) {
                return Ok(false);
            }
            items.push(Item::Change(change.copy(alloc)?))?;
        }
        Item::Floor(floor) => items.push(Item::Floor(*floor))?,
    }
    Ok(true)
}

// Returns the index of the item after the cursor among the last `kept` items, or why the cursor is refused.
fn place(incarnation: u64, position: u64, kept: usize, cursor: Cursor) -> Result<usize, SinceFault>
    requires { position ≤ last_place }
    ensures found { IfOk result (λ i. (place_fault incarnation position kept cursor ≡ None) × (cursor.position + kept ≡ position + i)) }
    ensures within { IfOk result (λ i. i ≤ kept) }
    ensures refused { IfErr result (λ fault. place_fault incarnation position kept cursor ≡ Some fault) }
    ensures judged { IfErr result (λ fault. fault ≢ SinceFault.NoRoom) }
{
    if cursor.incarnation != incarnation {
        return Err(SinceFault::OldCursor);
    }
    if cursor.position > position {
        return Err(SinceFault::Ahead);
    }
    let missing = position - cursor.position;
    if missing > kept as u64 {
        return Err(SinceFault::Behind);
    }
    Ok(kept - missing as usize)
}
