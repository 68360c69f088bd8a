//! The grammar of commands as a table: for each word, the slots after it.

ghost use Rattle.std.specs.Prelude.{◌≡◌};
ghost use Rattle.script_commands.specs.Table.{slots_of};
ghost use Rattle.script_commands.specs.Words.{IsOfServices, IsOfWorld};

use crate::slot::Slot;
use crate::word::Word;

/// Returns the slots after a word, in order.
pub fn slots_of(word: Word) -> &'static [Slot]
    ensures { result.now ≡ slots_of word }
{
    match word {
        Word::Offer => &[Slot::Item],
        Word::Show | Word::All => &[Slot::End],
        Word::Publish => &[
            Slot::Caller,
            Slot::Mode,
            Slot::Key,
            Slot::Version,
            Slot::Value,
        ],
        Word::Delete => &[Slot::Caller, Slot::Key, Slot::Version, Slot::End],
        Word::Sweep => &[Slot::Caller, Slot::Owner, Slot::Generation, Slot::End],
        Word::Retrieve => &[Slot::Key, Slot::End],
        Word::NameOf => &[Slot::Endpoint, Slot::End],
        Word::Subscribe => &[
            Slot::Sub,
            Slot::Pattern,
            Slot::Kinds,
            Slot::Initial,
            Slot::Mode,
            Slot::End,
        ],
        Word::Check => &[Slot::Sub, Slot::Max, Slot::End],
        Word::Map => &[Slot::Pattern, Slot::Kinds, Slot::End],
        Word::Entries => &[Slot::Map, Slot::End],
        _ => slots_of_world(word),
    }
}

// Returns the slots after a word of a line for a world, for RS or for driver tables.
fn slots_of_world(word: Word) -> &'static [Slot]
    ensures world { IsOfWorld word → result.now ≡ slots_of word }
    ensures services { IsOfServices word → result.now ≡ slots_of word }
{
    match word {
        Word::Ring => &[Slot::Ring, Slot::End],
        Word::Side => &[Slot::Side, Slot::End],
        Word::Clear => &[Slot::Map, Slot::End],
        Word::Restart => &[Slot::Side, Slot::Incarnation, Slot::End],
        Word::Deliver => &[Slot::Message, Slot::Holder, Slot::Count, Slot::End],
        Word::Since => &[
            Slot::Scope,
            Slot::Incarnation,
            Slot::Position,
            Slot::Max,
            Slot::End,
        ],
        Word::Snapshot => &[Slot::Scope, Slot::End],
        Word::Page => &[Slot::Scope, Slot::Range, Slot::End],
        _ => slots_of_services(word),
    }
}

// Returns the slots after a word of a line for RS or driver tables.
fn slots_of_services(word: Word) -> &'static [Slot]
    ensures { IsOfServices word → result.now ≡ slots_of word }
{
    match word {
        Word::Settings => &[Slot::Text],
        Word::Service => &[Slot::Request, Slot::Label, Slot::Tick, Slot::End],
        Word::Death => &[Slot::Endpoint, Slot::Cause, Slot::Tick, Slot::End],
        Word::Beat => &[Slot::Endpoint, Slot::Tick, Slot::End],
        Word::Tick => &[Slot::Tick, Slot::End],
        Word::Assign => &[Slot::Device, Slot::Label, Slot::End],
        Word::Follow => &[Slot::Map, Slot::End],
        Word::Submit => &[Slot::Server, Slot::Id, Slot::Unit, Slot::Map, Slot::End],
        Word::Reply => &[Slot::Server, Slot::Endpoint, Slot::Id, Slot::End],
        _ => &[],
    }
}
