//! The end of a run.

ghost use Rattle.std.specs.Prelude.{All, ◌≤◌, length};
ghost use Rattle.desk.specs.Closing.{LeavesHistory};
ghost use Rattle.desk.specs.Desk.{first_call, opened_with, pass_count};
ghost use Rattle.ds_live.specs.Homes.{home_of};
ghost use Rattle.ds_live.specs.Report.{IsExactAccount};
ghost use Rattle.ds_live.specs.Workers.{IsAtHome};
ghost use Rattle.ds_machine.specs.Owed.{owed_by};
ghost use Rattle.desk_store.specs.Record.{is_content};
ghost use Rattle.ds_store.specs.Turns.{Turn};

use desk::{AccountRoom, Closed, Desk, Pass, Passes};
use ds_store::Store;

/// Closes a desk with all of its passes, none of which made a note. Takes no memory, and can't fail.
pub(crate) fn close_desk(
    desk: Desk<Box<Store>>,
    room: AccountRoom,
    passes: Vec<Pass<Box<Store>>>,
) -> Closed<Box<Store>>
    requires home { All (λ p. IsAtHome (home_of desk) p) passes.items }
    requires all { pass_count desk ≤ length passes.items }
    ensures history { LeavesHistory is_content Turn owed_by (opened_with desk) (first_call desk) passes.items result }
    ensures account { IsExactAccount result.account }
{
    match desk.close_into(room, Passes::of(passes)) {
        Ok(closed) => closed,
        Err(_stop) => unreachable!(),
    }
}
