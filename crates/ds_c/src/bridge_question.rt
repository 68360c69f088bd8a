//! The questions of a bridge, for C.

ghost use Rattle.std.specs.Prelude.{◌≡◌};
ghost use Rattle.ds_c.specs.Bridges.{IsReportedQuestion, question_count, question_kind};

use crate::bridge_id::BridgeId;
use c_bridge::StoreBridge;
use fleet_bridge::Question;

/// A question.
#[repr(C)]
#[derive(Clone, Copy)]
pub struct BridgeQuestion {
    /// With `low`, the id of the last entry that was read.
    pub high: u64,
    pub low: u64,
    /// The number of items that it adds.
    pub count: u64,
    pub kind: u32,
}

// Returns the number of a question's kind.
fn kind_of(question: Question) -> u32
    ensures { result ≡ question_kind question }
{
    match question {
        Question::Nothing => 0,
        Question::Meet => 1,
        Question::Fetch => 2,
        Question::Refill => 3,
        Question::Add(_) => 4,
        Question::Compact => 5,
    }
}

// Returns the number of items that a question adds.
fn count_of(question: Question, bridge: &StoreBridge) -> u64
    ensures { result ≡ question_count question bridge.now }
{
    match question {
        Question::Add(count) => count,
        Question::Compact => bridge.decisions.in_flight,
        _ => 0,
    }
}

impl BridgeQuestion {
    /// Returns a question of the bridge, as C has it.
    pub(crate) fn of(question: Question, bridge: &StoreBridge) -> BridgeQuestion
        ensures { IsReportedQuestion question bridge.now result }
    {
        let last = BridgeId::of(bridge.decisions.position);
        BridgeQuestion {
            high: last.high,
            low: last.low,
            count: count_of(question, bridge),
            kind: kind_of(question),
        }
    }
}
