//! The outcome of a system's event.

ghost use Rattle.std.specs.Prelude.{◌≡◌, IfOk, OnErr};
ghost use Rattle.ds_system.specs.Copying.{CopyTakesMemory};

use crate::replies::Replies;
use crate::rounds::Rounds;
use driver_tables::{Move, TableFault};
use ds_machine::Reply;
use ds_names::NoRoom;
use ds_replica::Outcome;
use rs_core::{Actions, RsFault};
use std::alloc::Global;
use thiserror::Error;

/// The outcome of a system's event. Not part of MINIX 3.
#[derive(Drop)]
pub enum SystemOutcome {
    /// RS's actions, and the store's reply to each offered change and each sweep.
    Acted {
        actions: Actions,
        replies: Replies,
    },
    /// The store's reply.
    Replied(Reply),
    /// What the servers did: the moves of each label that was followed, the move of the request or of the reply, and
    /// what ended the event early, if anything did.
    Moved {
        rounds: Rounds,
        own: Option<Move>,
        fault: Option<TableFault>,
    },
    /// The outcome of the world's event.
    Happened(Outcome),
    /// The event was refused, and nothing changed.
    Refused(SystemFault),
}

impl SystemOutcome {
    /// Returns a copy. Only an action, a round, a list of replies, a text, a blob or an item takes memory.
    pub fn copy(&self, alloc: Global) -> Result<SystemOutcome, NoRoom>
        ensures same { IfOk result (λ copy. copy ≡ self.now) }
        ensures room { OnErr result (CopyTakesMemory self.now) }
    {
        match self {
            SystemOutcome::Acted { actions, replies } => Ok(SystemOutcome::Acted {
                actions: actions.copy(alloc)?,
                replies: replies.copy(alloc)?,
            }),
            SystemOutcome::Replied(reply) => Ok(SystemOutcome::Replied(reply.copy(alloc)?)),
            SystemOutcome::Moved { rounds, own, fault } => Ok(SystemOutcome::Moved {
                rounds: rounds.copy(alloc)?,
                own: *own,
                fault: *fault,
            }),
            SystemOutcome::Happened(outcome) => Ok(SystemOutcome::Happened(outcome.copy(alloc)?)),
            SystemOutcome::Refused(fault) => Ok(SystemOutcome::Refused(*fault)),
        }
    }
}

/// Why a system refuses an event, in the order in which the causes are judged. A refused event changes nothing.
#[derive(Clone, Copy, Debug, PartialEq, Eq, Error)]
pub enum SystemFault {
    /// RS refuses it, or memory ran out for it.
    #[error("{0}")]
    Service(RsFault),
    /// No service of the settings has the label.
    #[error("no service has the label")]
    UnknownLabel,
    /// The service doesn't declare the name, or the key is a label.
    #[error("the service doesn't publish this")]
    NotDeclared,
    /// The service isn't running.
    #[error("the service isn't up")]
    NotUp,
    /// The value isn't of the key's kind.
    #[error("the value isn't of this kind")]
    BadKind,
    /// The instance has drawn every number.
    #[error("all sequence numbers are spent")]
    SeqSpent,
    /// No change of this number was made.
    #[error("there is no such change")]
    NoMessage,
    /// The event brings something in; only RS and the services may.
    #[error("only RS and the services may bring something in")]
    NotAllowed,
    /// Out of memory.
    #[error("out of memory")]
    NoRoom,
}
