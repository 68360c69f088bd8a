//! What a reader knows about a store.

ghost use Rattle.ds_reader.specs.Laws.{ReaderLaws};

use ds_machine::{
    answers_say, refusals_say, states_are_reached, steps_have_effects, subscriptions_are_kept,
};
use ds_replica::{stores_grow, turn_laws, whole_laws};

/// Cites the laws that let a reader conclude that nothing is left out.
pub(crate) fn laws()
    ensures { ReaderLaws }
{
    whole_laws();
    turn_laws();
    states_are_reached();
    steps_have_effects();
    subscriptions_are_kept();
    answers_say();
    refusals_say();
    stores_grow();
}
