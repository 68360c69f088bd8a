//! The steps that a seat may make at any time, with or without the turn.

ghost use Rattle.std.specs.Prelude.{◌<◌, length};
ghost use Rattle.history.specs.History.{Stepped};
ghost use Rattle.desk_rule.specs.Kinds.{TakesBits};
ghost use Rattle.desk_rule.specs.Seat.{IsAtTable};
ghost use Rattle.desk_rule.specs.Steps.{KeepsSlots, LooksAt, MayPost, PostsAt};

use crate::play::{Look, PostBits, TakeBits};
use crate::table::{DeskSeat, DeskShared};
use history::Machine;

/// Loads word 0, which is twice the place of the next call, plus 1 while a seat holds the turn. The seat has then seen all
/// entries up to that place.
pub fn look<M: Machine>(shared: &DeskShared<M>, seat: &mut DeskSeat<M>) -> u64
    requires { IsAtTable shared.now.table_id seat.old }
    ensures { LooksAt (Stepped M.stands M.steps) M.owes seat.old result seat.new }
{
    shared.load::<Look>(seat, 0)
}

/// Sets bits of a server's pending word, and returns the word before. The last call that the seat has seen must be its own
/// and owe the bits. The word before is the one that the earlier notices left.
pub fn post<M: Machine>(
    shared: &DeskShared<M>,
    seat: &mut DeskSeat<M>,
    server: usize,
    bits: u64,
) -> u64
    requires at { IsAtTable shared.now.table_id seat.old }
    requires server { server < 16 }
    requires owed { MayPost M.owes seat.old.me.0 server bits }
    ensures { PostsAt seat.old server bits result seat.new }
{
    shared.fetch_or::<PostBits>(seat, server + 1, bits)
}

/// Swaps a server's pending word for 0, and returns the word before, which is the one that the earlier notices left. The
/// seat has then seen a call that owes each of its bits.
pub fn take<M: Machine>(shared: &DeskShared<M>, seat: &mut DeskSeat<M>, server: usize) -> u64
    requires at { IsAtTable shared.now.table_id seat.old }
    requires server { server < 16 }
    requires some_pass { 0 < length seat.old.me.0.passes }
    ensures same { KeepsSlots seat.old seat.new }
    ensures taken { TakesBits M.owes seat.old.me.0 server result seat.new.me.0 }
{
    shared.swap::<TakeBits>(seat, server + 1, 0)
}
