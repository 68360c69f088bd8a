//! Commands to RS and its store, and their replies.

ghost use Rattle.std.specs.Prelude.{◌≡◌};
ghost use Rattle.rs_store.specs.Owed.{owed_by_all, owed_by_one, owed_in};

use crate::replies::Replies;
use ds_machine::{Command, Reply};
use rs_core::{Actions, Event, NewFault, RsFault};
use rs_settings::Settings;

/// A command to RS and its store.
#[derive(Drop)]
pub enum RsCommand {
    /// A client's command to the store.
    Ask(Command),
    /// RS begins with these settings. Its first start has the generation `next`, and its slots begin at `first`.
    Begin {
        settings: Settings,
        next: u32,
        first: u16,
    },
    /// An event for RS at a tick.
    Tell {
        event: Event,
        tick: u64,
    },
}

/// A reply.
#[derive(Drop)]
pub enum RsReply {
    /// The store's reply to a client.
    Replied(Reply),
    /// A client's command has RS as its caller. Once RS has begun, only RS sends such commands.
    NotAllowed,
    /// RS began, with settings of `services` services and `slots` slots.
    Begun {
        services: usize,
        slots: u32,
    },
    /// RS had begun before, and continues.
    Exists,
    /// Why RS didn't begin.
    NotBegun(NewFault),
    /// RS's actions in order, and the store's reply to each: `None` for a kill, a start and a ping, which aren't
    /// commands to the store. `given_up` is the index in the settings of the service that RS gave up by them.
    Acted {
        actions: Actions,
        replies: Replies,
        given_up: Option<usize>,
    },
    /// Why RS refused the event.
    Refused(RsFault),
}

impl RsReply {
    /// Returns the mask of the subscriptions that are owed a notice, by all of the store's replies together.
    pub fn owed(&self) -> u128
        ensures { result ≡ owed_in self.now }
    {
        match self {
            RsReply::Replied(reply) => reply.owed(),
            RsReply::Acted { replies, .. } => owed_by_all(replies.as_slice()),
            _ => 0,
        }
    }
}

// Returns the mask of all of the replies together.
fn owed_by_all(replies: &[Option<Reply>]) -> u128
    ensures { result ≡ owed_by_all replies.now }
{
    let mut owed = 0;
    for reply in replies {
        owed |= owed_by_one(reply);
    }
    owed
}

// Returns the mask of a reply, or 0 if there is none.
fn owed_by_one(reply: &Option<Reply>) -> u128
    ensures { result ≡ owed_by_one reply.now }
{
    match reply {
        Some(reply) => reply.owed(),
        None => 0,
    }
}
