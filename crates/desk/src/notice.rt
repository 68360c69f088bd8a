//! Posts, and counts of bits.

ghost use Rattle.std.specs.Prelude.{◌≡◌, ℕ, ◌*◌, ◌^◌, ◌<◌};
ghost use Rattle.desk_rule.specs.Kinds.{LastOwes};
ghost use Rattle.desk_rule.specs.Notices.{raised_by};
ghost use Rattle.desk_rule.specs.Seat.{IsAtTable, SameSeat};
ghost use Rattle.desk.specs.Tally.{CanPost, Counts, Posts, RaisesMask, Tallies, row_at};

use desk_rule::{DeskSeat, DeskShared, Machine, post};

/// Adds 1 to the row of each set bit of a server: bit b of server s has row `8 s + b`.
pub(crate) fn tally(rows: &mut [u64; 128], server: u32, bits: u64)
    requires server { server < 16 }
    requires room { (b : ℕ) → b < 8 → row_at rows.old server b < 2 ^ 63 }
    ensures { Counts rows.old server bits rows.new }
{
    for bit in 0..8u32 {
        rows[(8 * server + bit) as usize] += (bits >> bit) & 1;
    }
}

/// Posts to each server the bits that the last call owes it, and counts in `raises` those that weren't pending before. Returns the mask of
/// these; server s has bits 8 s to 8 s + 7.
pub(crate) fn post_owed<M: Machine>(
    shared: &DeskShared<M>,
    seat: &mut DeskSeat<M>,
    raises: &mut [u64; 128],
    owed: u128,
) -> u128
    requires at { IsAtTable shared.now.table_id seat.old }
    requires last { LastOwes M.owes seat.old.me.0 owed }
    requires room { CanPost seat.old.me.0 }
    requires counted { Tallies raises.old (raised_by seat.old.me.0.passes) }
    ensures same { SameSeat seat.old seat.new × (seat.new.me.1 ≡ seat.old.me.1) }
    ensures posts { Posts seat.old.me.0 seat.new.me.0 16 owed }
    ensures counted { Tallies raises.new (raised_by seat.new.me.0.passes) }
    ensures raised { RaisesMask (raised_by seat.old.me.0.passes) (raised_by seat.new.me.0.passes) result }
{
    let mut raised = 0u128;
    for server in 0..16u32 {
        let bits = ((owed >> (8 * server)) & 255) as u64;
        if bits != 0 {
            let found = post(shared, seat, server as usize, bits);
            let fresh = bits & !found;
            tally(raises, server, fresh);
            raised += (fresh as u128) << (8 * server);
        }
    }
    raised
}
