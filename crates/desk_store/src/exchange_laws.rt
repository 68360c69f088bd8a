//! A law of two stores that sent each other all that they hold.

ghost use Rattle.desk_store.specs.BothWays.{ExchangedAlike};

use ds_machine::answers_say;

/// A law: two stores that sent each other all that they hold, with no other call between, then hold the same items. Either may be RS's.
///
/// The law needs that the items of both stores are exact: no two changes of one key, owner and version have different bodies.
pub fn exchanged_alike()
    ensures { ExchangedAlike }
{
    answers_say();
}
