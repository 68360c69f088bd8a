//! Why a command is refused, and the other cause against a change: a repeat.

ghost use Rattle.std.specs.Prelude.{◌≡◌};
ghost use Rattle.ds_machine.specs.Stopped.{refusal_of_join};

use ds_join::JoinFault;
use ds_names::Version;
use thiserror::Error;

/// Why a command is refused, in the order of judgement, or why a store can't be opened.
#[derive(Clone, Copy, Debug, PartialEq, Eq, Error)]
pub enum Refusal {
    /// The subscription's number isn't below the limit, 128 or 64.
    #[error("no number of a subscription")]
    BadSub,
    /// A Merge has more than 256 items, or the `max` of a Check, Since or Page isn't 1 to 256.
    #[error("not so many items at once")]
    TooMany,
    /// The pattern is longer than 128 bytes.
    #[error("a pattern has at most 128 bytes")]
    TooLong,
    /// The text isn't a pattern.
    #[error("not a pattern over names")]
    BadPattern,
    /// The value's kind differs from the key's.
    #[error("the value is of another kind than the key")]
    BadKind,
    /// The change breaks the rules of labels: its name is `rs`, its epoch is 0 or differs from its endpoint's
    /// generation, or its sequence number isn't 0 (to put) or 1 (to delete).
    #[error("no change of a label")]
    BadLabel,
    /// The epoch isn't the caller's generation, or the sequence number is 4294967295, which no caller may use.
    #[error("the version isn't one of the caller")]
    BadVersion,
    /// The caller isn't RS, and no live label holds its endpoint.
    #[error("the caller has no name")]
    NoCaller,
    /// The caller isn't RS, which alone publishes labels and sweeps.
    #[error("only RS may do this")]
    NotAllowed,
    /// The key's held change has another owner.
    #[error("the key has another owner")]
    NotOwner,
    /// The key's held change has the same version and another body.
    #[error("the key has another change of version {version:?}")]
    Clash { version: Version },
    /// The key's held change has a greater version, or a floor makes the change void.
    #[error("the key has a greater version, or its owner a floor")]
    Stale,
    /// The entry is live, or the subscription exists, and the command may not overwrite it.
    #[error("there is one already")]
    Exists,
    /// No such live entry, live label or subscription exists.
    #[error("there is none")]
    NotFound,
    /// The cursor is of another incarnation.
    #[error("the cursor is of another run of the store")]
    OldCursor,
    /// The cursor is past the store's position.
    #[error("the cursor is ahead of the store")]
    Ahead,
    /// The journal no longer has the item at the cursor.
    #[error("the journal doesn't reach back to the cursor")]
    Behind,
    /// The key isn't held and the store has all the keys it may hold, or 64 floors of other owners are held.
    #[error("all keys or floors are used")]
    Full,
    /// The position or the stamp would pass 2^62.
    #[error("all positions or stamps are used")]
    Worn,
    /// The store is out of memory.
    #[error("out of memory")]
    NoRoom,
    /// The ring isn't 1 to 4096. Only opening a store reports it.
    #[error("a ring keeps 1 to 4096 items")]
    BadRing,
    /// The first position is above 2^62. Only opening a store reports it.
    #[error("the first position is above 2^62")]
    BadFirst,
}

impl Refusal {
    /// Returns the refusal with which a Merge stops when a join fails.
    pub fn of_join(fault: JoinFault) -> Refusal
        ensures { result ≡ refusal_of_join fault }
    {
        match fault {
            JoinFault::NotOwner => Refusal::NotOwner,
            JoinFault::Clash { version } => Refusal::Clash { version },
            JoinFault::Full => Refusal::Full,
            JoinFault::NoRoom => Refusal::NoRoom,
        }
    }
}

/// A cause against a change, a floor or an item: it is already held, or it is refused.
#[derive(Clone, Copy)]
pub enum Cause {
    Known,
    Refused(Refusal),
}
