//! A follower's questions, at a desk of RS and its store.

use crate::call_fault::CallFault;
use crate::pair::PairSeat;
use crate::questions::Shown;
use crate::store_seat::StoreSeat;
use ds_machine::{Command, Reply};
use ds_pattern::Query;
use std::sync::Wait;

impl<'a, W: Wait> StoreSeat for PairSeat<'a, W> {
    ghost seat = { λ s. s };

    fn subscribe(&mut self, sub: u32, query: Query) -> Result<u64, CallFault> {
        let (reply, _place) = self.ask(Command::Subscribe {
            sub,
            query,
            initial: true,
            overwrite: true,
        })?;
        match reply {
            Reply::Subscribed {
                stamp,
                owed: _shown,
            } => Ok(stamp),
            Reply::Refused(refusal) => Err(CallFault::from(refusal)),
            _ => unreachable!(),
        }
    }

    fn check(&mut self, sub: u32, max: u32) -> Result<Shown, CallFault> {
        let (reply, place) = self.ask(Command::Check { sub, max })?;
        match reply {
            Reply::Checked {
                items,
                before,
                after,
            } => Ok(Shown {
                items,
                before,
                after,
                place,
            }),
            Reply::Refused(refusal) => Err(CallFault::from(refusal)),
            _ => unreachable!(),
        }
    }
}
