//! What a caller notes of processes, in numbers.

ghost use Rattle.std.specs.Prelude.{◌≡◌, true, IfSome};
ghost use Rattle.supervisor.specs.Following.{is_note};
ghost use Rattle.c_keeper.specs.Noting.{input_of, scan_of, later_input_of};

use process_keeper::{Input, Scan};

/// Returns the input of a kind, 0 to 9, with its value. `None` for another kind, or if no scan has the value.
#[tactic(auto, unfolding(crate::specs::Noting::input_of))]
pub(crate) fn input_of(kind: u32, value: u64) -> Option<Input>
    ensures value { result ≡ input_of kind value }
    ensures notes { IfSome result (λ input. is_note input ≡ true) }
{
    match kind {
        0 => Some(Input::Begun(value)),
        1 => Some(Input::Failed(value)),
        2 => Some(Input::Exited),
        3 => Some(Input::Changed),
        4 => Some(Input::Asked),
        _ => later_input_of(kind, value),
    }
}

// Returns the input of a kind from 5 on.
#[tactic(auto, unfolding(crate::specs::Noting::later_input_of))]
fn later_input_of(kind: u32, value: u64) -> Option<Input>
    ensures value { result ≡ later_input_of kind value }
    ensures notes { IfSome result (λ input. is_note input ≡ true) }
{
    match kind {
        5 => Some(Input::Killed),
        6 => scan_of(value),
        7 => Some(Input::Reaped),
        8 => Some(Input::Cleared),
        9 => Some(Input::Shortened(value)),
        _ => None,
    }
}

// Returns the input of what a scan found.
#[tactic(auto, unfolding(crate::specs::Noting::scan_of))]
fn scan_of(found: u64) -> Option<Input>
    ensures value { result ≡ scan_of found }
    ensures notes { IfSome result (λ input. is_note input ≡ true) }
{
    match found {
        0 => Some(Input::Scanned(Scan::Nothing)),
        1 => Some(Input::Scanned(Scan::Dying)),
        2 => Some(Input::Scanned(Scan::Living)),
        _ => None,
    }
}
