//! A Merge into the store of a seat's desk.

ghost use Rattle.std.specs.Prelude.{◌≡◌, ℕ, IfOk, IfErr};
ghost use Rattle.ds_machine.specs.declared.command.Command.TheVariants as commands;
ghost use Rattle.ds_machine.specs.declared.reply.Reply.TheVariants.{Merged};
ghost use Rattle.desk_store.specs.Called.{MadeCall};
ghost use Rattle.desk_store.specs.Merging.{FailsMerging};
ghost use Rattle.desk_store.specs.Seat.{IsSameSeat};

use crate::client_seat::ClientSeat;
use desk::DeskFault;
use ds_entry::Items;
use ds_machine::{Command, Refusal, Reply};
use thiserror::Error;

/// Why a Merge didn't do all of its items.
#[derive(Clone, Copy, Debug, PartialEq, Eq, Error)]
pub enum MergeFault {
    /// The desk refused the call.
    #[error("the desk refused: {0}")]
    Desk(DeskFault),
    /// The store did the first `done` items, and refused the next one. `done` is 0 if the store refused the whole Merge.
    #[error("stopped after {done} items: {fault}")]
    Stopped {
        /// How many items were done.
        done: usize,
        /// Why the next item was refused.
        fault: Refusal,
    },
}

impl From<DeskFault> for MergeFault {
    ghost use Rattle.std.specs.Prelude.{◌≡◌};
    ghost use Rattle.desk_store.specs.declared.merging.MergeFault.TheVariants as faults;

    ghost from_gives = { λ refused fault. fault ≡ faults.Desk refused };

    fn from(fault: DeskFault) -> MergeFault {
        MergeFault::Desk(fault)
    }
}

/// Merges at most 256 items into the store, in order. Returns how many of them took effect.
pub(crate) fn merge<S: ClientSeat>(seat: &mut S, items: Items) -> Result<usize, MergeFault>
    ensures same { IsSameSeat (S.seat seat.old) (S.seat seat.new) }
    ensures told { IfOk result (λ taken. (done stale owed place : ℕ)
        × MadeCall (S.seat seat.old).pass (S.seat seat.new).pass (commands.Merge items) (Merged done taken stale owed) place) }
    ensures fault { IfErr result (FailsMerging (S.seat seat.old).pass (S.seat seat.new).pass (commands.Merge items)) }
{
    let (reply, _place) = seat.send(Command::Merge { items })?;
    match reply {
        Reply::Merged { taken, .. } => Ok(taken),
        Reply::MergeStopped { done, fault, .. } => Err(MergeFault::Stopped { done, fault }),
        Reply::Refused(fault) => Err(MergeFault::Stopped { done: 0, fault }),
        _ => unreachable!(),
    }
}
