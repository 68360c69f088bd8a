//! The outcomes of events.

ghost use Rattle.std.specs.Prelude.{◌≡◌, IfOk, OnErr};
ghost use Rattle.ds_replica.specs.Copying.{OutcomeCopyTakesMemory};

use ds_join::Count;
use ds_machine::{Refusal, Reply};
use ds_names::NoRoom;
use std::alloc::Global;
use thiserror::Error;

/// The outcome of an event. Not part of MINIX 3.
#[derive(Drop)]
pub enum Outcome {
    /// The store's reply.
    Replied(Reply),
    /// The reply's items are kept as this message.
    Made {
        message: usize,
    },
    /// The map was made, with this number.
    MapMade {
        map: usize,
    },
    /// All delivered items were done. `owed` is the mask of the store's subscriptions to notify, 0 for a map.
    Merged {
        count: Count,
        owed: u128,
    },
    /// The first `done` items were done, and the next one was refused.
    Stopped {
        done: usize,
        fault: Refusal,
        owed: u128,
    },
    /// The map is empty.
    Cleared,
    /// The store is empty, in its new incarnation.
    Restarted,
    /// The event was refused, and nothing changed.
    Refused(EventFault),
}

/// Why a world refuses an event, apart from what a store or a map refuses. Nothing changes.
#[derive(Clone, Copy, Debug, PartialEq, Eq, Error)]
pub enum EventFault {
    /// The world has 65536 messages.
    #[error("there are 65536 messages")]
    MessagesFull,
    /// The world has 64 maps.
    #[error("there are 64 maps")]
    MapsFull,
    /// The pattern is longer than 128 bytes.
    #[error("a pattern has at most 128 bytes")]
    TooLong,
    /// The text isn't a pattern.
    #[error("not a pattern over names")]
    BadPattern,
    /// No such message exists.
    #[error("there is no such message")]
    NoMessage,
    /// No such map exists.
    #[error("there is no such map")]
    NoMap,
    /// The message has fewer items than `count`.
    #[error("the message has fewer items")]
    TooMany,
    /// The incarnation isn't above all that were used.
    #[error("the incarnation isn't above all that were used")]
    OldIncarnation,
    /// The world is out of memory.
    #[error("out of memory")]
    NoRoom,
}

impl Outcome {
    /// Returns a copy. Fails only if memory runs out for a reply's copy.
    pub fn copy(&self, alloc: Global) -> Result<Outcome, NoRoom>
        ensures same { IfOk result (λ copy. copy ≡ self.now) }
        ensures room { OnErr result (OutcomeCopyTakesMemory self.now) }
    {
        match self {
            Outcome::Replied(reply) => Ok(Outcome::Replied(reply.copy(alloc)?)),
            Outcome::Made { message } => Ok(Outcome::Made { message: *message }),
            Outcome::MapMade { map } => Ok(Outcome::MapMade { map: *map }),
            Outcome::Merged { count, owed } => Ok(Outcome::Merged {
                count: *count,
                owed: *owed,
            }),
            Outcome::Stopped { done, fault, owed } => Ok(Outcome::Stopped {
                done: *done,
                fault: *fault,
                owed: *owed,
            }),
            Outcome::Cleared => Ok(Outcome::Cleared),
            Outcome::Restarted => Ok(Outcome::Restarted),
            Outcome::Refused(fault) => Ok(Outcome::Refused(*fault)),
        }
    }
}
