//! Answers of RS, in numbers.

ghost use Rattle.std.specs.Prelude.{◌≡◌};
ghost use Rattle.c_rs.specs.Telling.{action_count, begun_word, cause_number, rs_fault_number, told_answer, told_cause};

use c_values::{Answer, Word};
use rs_core::{Actions, NewFault, RsFault};
use rs_settings::SettingsCause;
use rs_store::RsReply;

// Returns a refusal by the number of its cause.
fn refused_by(number: u32) -> Answer
    ensures { result ≡ told_cause number }
{
    Answer {
        refusal: number,
        ..Answer::of(Word::Refused)
    }
}

/// Returns the answer of a reply to an event.
pub(crate) fn told(reply: &RsReply) -> Answer
    ensures { result ≡ told_answer reply.now }
{
    match reply {
        RsReply::Acted {
            actions,
            given_up,
            ..
        } => Answer {
            count: action_count(actions, *given_up),
            owed: reply.owed().to_le_bytes(),
            ..Answer::of(Word::Acted)
        },
        RsReply::Refused(fault) => refused_by(rs_fault_number(*fault)),
        _ => Answer::no_request(),
    }
}

// Returns how many actions there are, with that of a service given up.
fn action_count(actions: &Actions, given_up: Option<usize>) -> u64
    ensures { result ≡ action_count actions.now given_up }
{
    let count = actions.len() as u64;
    match given_up {
        Some(_) => count.saturating_add(1),
        None => count,
    }
}

/// Returns the word of a beginning: 0, or the number of the refusal.
pub(crate) fn begun_word(reply: &RsReply) -> u32
    ensures { result ≡ begun_word reply.now }
{
    match reply {
        RsReply::Begun { .. } => 0,
        RsReply::Exists => 13,
        RsReply::NotBegun(NewFault::OutOfRange) => 22,
        _ => 20,
    }
}

/// Returns the number of a fault of RS.
pub fn rs_fault_number(fault: RsFault) -> u32
    ensures { result ≡ rs_fault_number fault }
{
    match fault {
        RsFault::TickBack => 25,
        RsFault::Worn => 19,
        RsFault::UnknownLabel => 26,
        RsFault::BadCause => 27,
        RsFault::AlreadyUp => 28,
        RsFault::NotUp => 29,
        RsFault::OldEndpoint => 30,
        RsFault::GenerationsSpent => 31,
        RsFault::NoSlot => 32,
        RsFault::NoRoom => 20,
    }
}

/// Returns the number of a cause for which a settings text is refused.
pub fn cause_number(cause: SettingsCause) -> u32
    ensures { result ≡ cause_number cause }
{
    match cause {
        SettingsCause::BadToml => 33,
        SettingsCause::UnknownField => 34,
        SettingsCause::Missing => 35,
        SettingsCause::OutOfRange => 36,
        SettingsCause::TwoLabels => 37,
        SettingsCause::TwoUnits => 38,
        SettingsCause::SharedName => 39,
        SettingsCause::NoRoom => 20,
    }
}
