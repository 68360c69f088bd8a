//! A follower's questions, each with an answer of its own type.

ghost use Rattle.std.specs.Prelude.{◌≡◌, ◌<◌, ◌^◌, ℕ, true, IfOk, IfErr};
ghost use Rattle.ds_machine.specs.declared.command.Command.TheVariants as commands;
ghost use Rattle.ds_machine.specs.declared.reply.Reply.TheVariants.{Subscribed, Checked};
ghost use Rattle.desk_store.specs.Called.{MadeCall};
ghost use Rattle.desk_store.specs.CallFaults.{FailsAsking};
ghost use Rattle.desk_store.specs.Seat.{IsSameSeat};

use crate::call_fault::CallFault;
use crate::seat::Seat;
use desk::Answer;
use ds_entry::Items;
use ds_machine::{Command, Reply};
use ds_pattern::Query;
use std::sync::Wait;

/// The answer to a Check.
#[derive(Drop)]
pub struct Shown {
    /// The items, in the order of their keys.
    pub items: Items,
    /// The subscription's stamp before the Check.
    pub before: u64,
    /// The subscription's stamp after the Check.
    pub after: u64,
    /// The place of the Check in the history.
    pub place: u64,
}

impl<W: Wait> Seat<'_, W> {
    /// Subscribes with INITIAL, in place of any subscription of this number. Returns the new stamp.
    pub fn subscribe(&mut self, sub: u32, query: Query) -> Result<u64, CallFault>
        ensures same { IsSameSeat self.old self.new }
        ensures told { IfOk result (λ stamp. (owed place : ℕ)
            × MadeCall self.old.pass self.new.pass (commands.Subscribe sub query true true) (Subscribed stamp owed) place) }
        ensures fault { IfErr result (FailsAsking self.old.pass self.new.pass (commands.Subscribe sub query true true)) }
    {
        let Answer {
            reply,
            place: _place,
            owed: _owed,
            raised: _raised,
        } = self.ask(Command::Subscribe {
            sub,
            query,
            initial: true,
            overwrite: true,
        })?;
        match reply {
            Reply::Subscribed {
                stamp,
                owed: _shown,
            } => Ok(stamp),
            Reply::Refused(refusal) => Err(CallFault::from(refusal)),
            _ => unreachable!(),
        }
    }

    /// Checks the subscription. Returns at most `max` items that it hasn't been shown.
    pub fn check(&mut self, sub: u32, max: u32) -> Result<Shown, CallFault>
        ensures same { IsSameSeat self.old self.new }
        ensures told { IfOk result (λ s.
            MadeCall self.old.pass self.new.pass (commands.Check sub max) (Checked s.items s.before s.after) s.place) }
        ensures place { IfOk result (λ s. s.place < 2 ^ 62) }
        ensures fault { IfErr result (FailsAsking self.old.pass self.new.pass (commands.Check sub max)) }
    {
        let Answer {
            reply,
            place,
            owed: _owed,
            raised: _raised,
        } = self.ask(Command::Check { sub, max })?;
        match reply {
            Reply::Checked {
                items,
                before,
                after,
            } => Ok(Shown {
                items,
                before,
                after,
                place,
            }),
            Reply::Refused(refusal) => Err(CallFault::from(refusal)),
            _ => unreachable!(),
        }
    }
}
