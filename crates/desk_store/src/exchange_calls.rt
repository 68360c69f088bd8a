//! The questions of an exchange, each with a result of its own type.

ghost use Rattle.std.specs.Prelude.{◌≡◌, ◌≤◌, ◌^◌, ℕ, IfOk, IfErr, OnOk};
ghost use Rattle.ds_machine.specs.declared.command.Command.TheVariants as commands;
ghost use Rattle.ds_machine.specs.declared.reply.Reply.TheVariants.{Paged, Journaled};
ghost use Rattle.desk_store.specs.Called.{MadeCall};
ghost use Rattle.desk_store.specs.CallFaults.{FailsAsking};
ghost use Rattle.desk_store.specs.Record.{place_after};
ghost use Rattle.desk_store.specs.Seat.{IsSameSeat};

use crate::call_fault::CallFault;
use crate::client_seat::ClientSeat;
use ds_feed::{Cursor, Page, Since};
use ds_machine::{Command, Reply, Scope};
use ds_names::Key;

/// Returns a page of what is held under the scope: at most `max` changes after the key.
pub(crate) fn page<S: ClientSeat>(
    seat: &mut S,
    scope: Scope,
    after: Option<Key>,
    max: u32,
) -> Result<Page, CallFault>
    ensures same { IsSameSeat (S.seat seat.old) (S.seat seat.new) }
    ensures told { IfOk result (λ page. (place : ℕ)
        × MadeCall (S.seat seat.old).pass (S.seat seat.new).pass (commands.Page scope after max) (Paged page) place) }
    ensures bound { OnOk result (place_after (S.seat seat.new).pass ≤ 2 ^ 62) }
    ensures fault { IfErr result (FailsAsking (S.seat seat.old).pass (S.seat seat.new).pass (commands.Page scope after max)) }
{
    let (reply, _place) = seat.send(Command::Page { scope, after, max })?;
    match reply {
        Reply::Paged(page) => Ok(page),
        Reply::Refused(refusal) => Err(CallFault::from(refusal)),
        _ => unreachable!(),
    }
}

/// Returns at most `max` items of the journal that are under the scope, from the cursor on.
pub(crate) fn since<S: ClientSeat>(
    seat: &mut S,
    scope: Scope,
    cursor: Cursor,
    max: u32,
) -> Result<Since, CallFault>
    ensures same { IsSameSeat (S.seat seat.old) (S.seat seat.new) }
    ensures told { IfOk result (λ since. (place : ℕ)
        × MadeCall (S.seat seat.old).pass (S.seat seat.new).pass (commands.Since scope cursor max) (Journaled since) place) }
    ensures fault { IfErr result (FailsAsking (S.seat seat.old).pass (S.seat seat.new).pass (commands.Since scope cursor max)) }
{
    let (reply, _place) = seat.send(Command::Since { scope, cursor, max })?;
    match reply {
        Reply::Journaled(since) => Ok(since),
        Reply::Refused(refusal) => Err(CallFault::from(refusal)),
        _ => unreachable!(),
    }
}
