//! Exchanges from the first desk's store to the second's.

ghost use Rattle.std.specs.Prelude.{◌≡◌, IfErr, IfOk, OnOk};
ghost use Rattle.desk.specs.Desk.{identity};
ghost use Rattle.desk.specs.Pass.{desk_of};
ghost use Rattle.desk_store.specs.Record.{pass_record as seen};
ghost use Rattle.ds_live.specs.Turns.{FailsExchanging, FailsHandingOver, HasCalled, HasExchanged, HasHandedOver, IsHandedOver};
ghost use Rattle.ds_live.specs.Turns.{SeatHasCalled};

use desk::{Desk, Pass};
use desk_store::{CallFault, ExchangeFault, Seat, exchange_once};
use ds_feed::Cursor;
use ds_machine::Refusal;
use ds_store::Store;
use std::sync::Wait;

/// Makes one exchange, from the cursor on. Returns whether there may be more. If the journal doesn't reach back to the cursor, the next
/// exchange has none.
pub(crate) fn exchange<W: Wait>(
    rt: &W,
    first: &Desk<Box<Store>>,
    pass: &mut Pass<Box<Store>>,
    second: &Desk<Box<Store>>,
    other: &mut Pass<Box<Store>>,
    cursor: &mut Option<Cursor>,
) -> Result<bool, ExchangeFault>
    requires first { desk_of pass.old ≡ identity first.now }
    requires second { desk_of other.old ≡ identity second.now }
    ensures stays { desk_of pass.new ≡ desk_of pass.old }
    ensures other_stays { desk_of other.new ≡ desk_of other.old }
    ensures called { HasCalled (seen pass.old) (seen pass.new) × HasCalled (seen other.old) (seen other.new) }
    ensures exchanged { IfOk result (HasExchanged (seen pass.old) (seen pass.new) (seen other.old) (seen other.new) cursor.old cursor.new) }
    ensures fault { IfErr result (FailsExchanging (seen pass.old) (seen pass.new) (seen other.old) (seen other.new) cursor.old) }
{
    let mut here = Seat::new(rt, first, pass);
    let mut there = Seat::new(rt, second, other);
    let told = exchange_at(&mut here, &mut there, cursor);
    let _other = there.leave();
    let _pass = here.leave();
    told
}

// Like `exchange`, at two seats.
fn exchange_at<W: Wait>(
    first: &mut Seat<'_, W>,
    second: &mut Seat<'_, W>,
    cursor: &mut Option<Cursor>,
) -> Result<bool, ExchangeFault>
    ensures called { SeatHasCalled first.old first.new × SeatHasCalled second.old second.new }
    ensures exchanged { IfOk result (HasExchanged first.old.pass first.new.pass second.old.pass second.new.pass cursor.old cursor.new) }
    ensures fault { IfErr result (FailsExchanging first.old.pass first.new.pass second.old.pass second.new.pass cursor.old) }
{
    match exchange_once(first.rt(), first, second, *cursor) {
        Ok(exchanged) => {
            *cursor = Some(exchanged.cursor);
            Ok(exchanged.more)
        }
        Err(ExchangeFault::Call(CallFault::Refused(Refusal::Behind))) => {
            *cursor = None;
            Ok(true)
        }
        Err(fault) => Err(fault),
    }
}

/// Makes exchanges until there is no more.
pub(crate) fn hand_over<W: Wait>(
    rt: &W,
    first: &Desk<Box<Store>>,
    pass: &mut Pass<Box<Store>>,
    second: &Desk<Box<Store>>,
    other: &mut Pass<Box<Store>>,
    cursor: &mut Option<Cursor>,
) -> Result<(), ExchangeFault>
    requires first { desk_of pass.old ≡ identity first.now }
    requires second { desk_of other.old ≡ identity second.now }
    ensures stays { desk_of pass.new ≡ desk_of pass.old }
    ensures other_stays { desk_of other.new ≡ desk_of other.old }
    ensures called { HasCalled (seen pass.old) (seen pass.new) × HasCalled (seen other.old) (seen other.new) }
    ensures handed { OnOk result (IsHandedOver (seen pass.new) (seen other.new)) }
    ensures exchanged { OnOk result
        (HasHandedOver (seen pass.old) (seen pass.new) (seen other.old) (seen other.new) cursor.old cursor.new) }
    ensures fault { IfErr result (FailsHandingOver (seen pass.old) (seen pass.new) (seen other.old) (seen other.new) cursor.old) }
{
    let mut here = Seat::new(rt, first, pass);
    let mut there = Seat::new(rt, second, other);
    let told = hand_over_at(&mut here, &mut there, cursor);
    let _other = there.leave();
    let _pass = here.leave();
    told
}

// Like `hand_over`, at two seats.
fn hand_over_at<W: Wait>(
    first: &mut Seat<'_, W>,
    second: &mut Seat<'_, W>,
    cursor: &mut Option<Cursor>,
) -> Result<(), ExchangeFault>
    ensures called { SeatHasCalled first.old first.new × SeatHasCalled second.old second.new }
    ensures handed { OnOk result (IsHandedOver first.new.pass second.new.pass) }
    ensures exchanged { OnOk result (HasHandedOver first.old.pass first.new.pass second.old.pass second.new.pass cursor.old cursor.new) }
    ensures fault { IfErr result (FailsHandingOver first.old.pass first.new.pass second.old.pass second.new.pass cursor.old) }
{
    for _ in first.rt().forever() {
        let more = exchange_at(first, second, cursor)?;
        if !more {
            return Ok(());
        }
    }
    unreachable!()
}
