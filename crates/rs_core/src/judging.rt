//! Faults against an event or a deed.

ghost use Rattle.std.specs.Prelude.{◌≡◌};
ghost use Rattle.rs_core.specs.Judging.{has_actions, is_bad_cause, takes_generation, takes_slot};

use crate::deed::Deed;
use crate::event::Event;

pub(crate) fn is_bad_cause(event: &Event) -> bool
    ensures { result ≡ is_bad_cause event.now }
{
    match event {
        Event::Death(_, cause) => *cause < 1 || *cause > 6,
        _ => false,
    }
}

// Returns whether the deed takes a generation.
pub(crate) fn takes_generation(deed: Deed) -> bool
    ensures { result ≡ takes_generation deed }
{
    matches!(deed, Deed::Begin | Deed::Resume | Deed::Replace)
}

// Returns whether the deed takes a slot and frees none.
pub(crate) fn takes_slot(deed: Deed) -> bool
    ensures { result ≡ takes_slot deed }
{
    matches!(deed, Deed::Begin | Deed::Resume)
}

// Returns whether the deed has actions, whose list takes memory.
pub(crate) fn has_actions(deed: Deed) -> bool
    ensures { result ≡ has_actions deed }
{
    !matches!(deed, Deed::Forget | Deed::Hear)
}
