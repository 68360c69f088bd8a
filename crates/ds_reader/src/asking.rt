//! Commands to a store, and what its replies say about its states.

ghost use Rattle.std.specs.Prelude.{◌≡◌, IfOk, IfErr};
ghost use Rattle.ds_machine.specs.declared.command.Command.TheVariants as commands;
ghost use Rattle.ds_machine.specs.declared.reply.Reply.TheVariants.{Paged, Journaled};
ghost use Rattle.ds_reader.specs.Asked.{GetsReply, GetsShown, GetsStamp, subscribe_anew};
ghost use Rattle.ds_reader.specs.Stops.{StopsThere};

use crate::asks::Asks;
use crate::fault::ReadFault;
use ds_entry::Items;
use ds_feed::{Cursor, Page, Since};
use ds_machine::{Command, Reply, Scope};
use ds_names::Key;
use ds_pattern::Query;

/// What a Check showed.
#[derive(Drop)]
pub(crate) struct Shown {
    pub items: Items,
    /// The subscription's stamp before the Check, and after it.
    pub before: u64,
    pub after: u64,
}

/// Subscribes with INITIAL, over any earlier subscription of this number. Returns its stamp.
pub(crate) fn subscribe<A: Asks>(asked: &mut A, sub: u32, query: Query) -> Result<u64, ReadFault>
    ensures made { IfOk result (λ stamp. GetsStamp A.stands asked.old sub query stamp asked.new) }
    ensures refused { IfErr result (λ fault. StopsThere A.stands A.is_worn asked.old (subscribe_anew sub query) fault asked.new) }
    ensures only { A.asks_once asked.old (subscribe_anew sub query) asked.new }
    ensures same { A.origin_of asked.new ≡ A.origin_of asked.old }
{
    let Some(reply) = asked.ask(Command::Subscribe {
        sub,
        query,
        initial: true,
        overwrite: true,
    }) else {
        return Err(ReadFault::Worn);
    };
    match reply {
        Reply::Subscribed { stamp, owed: _owed } => Ok(stamp),
        Reply::Refused(refusal) => Err(ReadFault::Refused(refusal)),
        _ => unreachable!(),
    }
}

/// Checks the subscription.
pub(crate) fn check<A: Asks>(asked: &mut A, sub: u32, max: u32) -> Result<Shown, ReadFault>
    ensures shown { IfOk result (λ shown. GetsShown A.stands asked.old sub max shown.items shown.before shown.after asked.new) }
    ensures refused { IfErr result (λ fault. StopsThere A.stands A.is_worn asked.old (commands.Check sub max) fault asked.new) }
    ensures only { A.asks_once asked.old (commands.Check sub max) asked.new }
    ensures same { A.origin_of asked.new ≡ A.origin_of asked.old }
{
    let Some(reply) = asked.ask(Command::Check { sub, max }) else {
        return Err(ReadFault::Worn);
    };
    match reply {
        Reply::Checked {
            items,
            before,
            after,
        } => Ok(Shown {
            items,
            before,
            after,
        }),
        Reply::Refused(refusal) => Err(ReadFault::Refused(refusal)),
        _ => unreachable!(),
    }
}

/// Reads a page after the key.
pub(crate) fn page<A: Asks>(
    asked: &mut A,
    scope: Scope,
    after: Option<Key>,
    max: u32,
) -> Result<Page, ReadFault>
    ensures given { IfOk result (λ page. GetsReply A.stands asked.old (commands.Page scope after max) (Paged page) asked.new) }
    ensures refused { IfErr result (λ fault. StopsThere A.stands A.is_worn asked.old (commands.Page scope after max) fault asked.new) }
    ensures only { A.asks_once asked.old (commands.Page scope after max) asked.new }
    ensures same { A.origin_of asked.new ≡ A.origin_of asked.old }
{
    let Some(reply) = asked.ask(Command::Page { scope, after, max }) else {
        return Err(ReadFault::Worn);
    };
    match reply {
        Reply::Paged(page) => Ok(page),
        Reply::Refused(refusal) => Err(ReadFault::Refused(refusal)),
        _ => unreachable!(),
    }
}

/// Reads the journal from the cursor on.
pub(crate) fn since<A: Asks>(
    asked: &mut A,
    scope: Scope,
    cursor: Cursor,
    max: u32,
) -> Result<Since, ReadFault>
    ensures given { IfOk result (λ since. GetsReply A.stands asked.old (commands.Since scope cursor max) (Journaled since) asked.new) }
    ensures refused { IfErr result (λ fault. StopsThere A.stands A.is_worn asked.old (commands.Since scope cursor max) fault asked.new) }
    ensures only { A.asks_once asked.old (commands.Since scope cursor max) asked.new }
    ensures same { A.origin_of asked.new ≡ A.origin_of asked.old }
{
    let Some(reply) = asked.ask(Command::Since { scope, cursor, max }) else {
        return Err(ReadFault::Worn);
    };
    match reply {
        Reply::Journaled(since) => Ok(since),
        Reply::Refused(refusal) => Err(ReadFault::Refused(refusal)),
        _ => unreachable!(),
    }
}
