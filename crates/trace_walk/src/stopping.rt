//! Out of memory in a recorded reply.

ghost use Rattle.std.specs.Prelude.{◌≡◌, ◌<◌, length, is_some, IfOk, IfErr, IfSome, IfNone};
ghost use Rattle.ds_machine.specs.OneStep.{room_wanted};
ghost use Rattle.trace_walk.specs.Noroom.{stopped_line};
ghost use Rattle.trace_walk.specs.Reads.{IsBlameless};
ghost use Rattle.trace_walk.specs.Steps.{EndsMidway, IsUnmerged, StopsMidway, FailsToStop, StopsNowhere};
ghost use Rattle.trace_walk.specs.Wanting.{IsOfReply};

use crate::fault::WalkFault;
use crate::replies::stopped_at;
use ds_entry::Items;
use ds_machine::{Command, Refusal, Reply};
use ds_store::Store;
use std::alloc::Global;

/// Returns after how many of its items the line stops a Merge for lack of memory.
pub(crate) fn stop_of(line: &[u8], count: usize) -> Option<usize>
    ensures found { IfSome result (λ done. (done < count) × (line.now ≡ stopped_line done)) }
    ensures none { IfNone result (StopsNowhere line.now count) }
{
    let done = stopped_at(line)? as usize;
    if done < count { Some(done) } else { None }
}

/// Merges the first `done` items, and returns the reply of a Merge that memory stopped after them.
pub(crate) fn stopped(
    alloc: Global,
    store: &mut Store,
    items: &Items,
    done: usize,
    number: u64,
) -> Result<Reply, WalkFault>
    requires { done < length items.now }
    ensures stops { IfOk result (λ reply. StopsMidway store.old items.now done reply store.new) }
    ensures fails { IfErr result (λ fault. FailsToStop store.old items.now done number fault) }
    ensures kind { IfErr result IsOfReply }
    ensures blames { IfErr result (λ fault. IsBlameless fault) }
{
    let first = Items::copies(alloc, &items.as_slice()[..done])?;
    let reply = store.apply(Command::Merge { items: first });
    if wants_room(&reply) {
        return Err(WalkFault::NoRoom);
    }
    stopped_after(&reply, done, number)
}

// Returns the reply of a Merge that memory stopped after `done` items, from the reply to a Merge of those alone.
fn stopped_after(reply: &Reply, done: usize, number: u64) -> Result<Reply, WalkFault>
    ensures stops { IfOk result (EndsMidway reply.now done) }
    ensures fails { IfErr result (λ fault. (fault ≡ WalkFault.IllegalAt number) × IsUnmerged reply.now) }
{
    match reply {
        Reply::Merged { owed, .. } => Ok(Reply::MergeStopped {
            done,
            fault: Refusal::NoRoom,
            owed: *owed,
        }),
        _ => Err(WalkFault::IllegalAt(number)),
    }
}

/// Returns whether the store ran out of memory.
pub(crate) fn wants_room(reply: &Reply) -> bool
    ensures { result ≡ is_some (room_wanted reply.now) }
{
    matches!(
        reply,
        Reply::Refused(Refusal::NoRoom)
            | Reply::MergeStopped {
                fault: Refusal::NoRoom,
                ..
            }
    )
}
