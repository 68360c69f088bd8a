//! Laws of the restart machine and of numbers.

ghost use Rattle.rs_core.specs.Run.{StartsRise, LabelsAreSingleNumbered};
ghost use Rattle.rs_core.specs.Says.{StepsSay, QuietStepsAreEmpty, LabelsAreFound};
ghost use Rattle.rs_core.specs.Reading.{StepsGiveUp, TicksActWhenDue};
ghost use Rattle.rs_core.specs.Late.{BeatsAreNoted, DeadAreUncounted, HeardAreNotMissed};
ghost use Rattle.rs_core.specs.Late.{OtherPlansKeepNext, SingleStays, UncountedStayLate};
ghost use Rattle.rs_core.specs.Numbering.{NumbersRise};
ghost use Rattle.rs_core.specs.Renewal.{LabelsStaySingleNumbered, StartsRiseThroughRenewals};

/// A law: whatever the events, each start has a generation above those of all earlier starts.
pub fn starts_rise()
    ensures { StartsRise }
{}

/// A law: over any events, no two of the label changes that RS offers contradict each other.
pub fn labels_are_single_numbered()
    ensures { LabelsAreSingleNumbered }
{}

/// A law: both hold across renewals too, since a renewal keeps the next generation and has no action.
pub fn renewals_keep_numbers()
    ensures starts { StartsRiseThroughRenewals }
    ensures labels { LabelsStaySingleNumbered }
{}

/// A law: what a step does. At most one instance begins; it has the next generation, and its label is put. Otherwise
/// only labels of instances that ran are ended. Whatever runs after the step ran before it or began in it. A step has
/// at most five actions, and copying them takes no memory. An event that calls for no actions has none. A service that
/// is found by a label has that label.
pub fn steps_say()
    ensures steps { StepsSay }
    ensures quiet { QuietStepsAreEmpty }
    ensures labels { LabelsAreFound }
{}

/// A law: a tick that isn't refused has actions exactly if something is due, and an event that isn't refused gives up
/// exactly the service that `Rs::gives_up` returns.
pub fn readings_hold()
    ensures ticks { TicksActWhenDue }
    ensures given_up { StepsGiveUp }
{}

/// A law: a `Numberer` never returns a number twice.
pub fn numbers_rise()
    ensures { NumbersRise }
{}

/// Laws of instances that ended: RS doesn't count an instance after its death, and an event of that instance that comes later is refused:
/// OldEndpoint, if no earlier cause applies. Steps keep generations single, and only a plan that starts an instance takes one.
pub fn deaths_are_final()
    ensures dead { DeadAreUncounted }
    ensures late { UncountedStayLate }
    ensures single { SingleStays }
    ensures plans { OtherPlansKeepNext }
{}

/// Laws: RS notes a heartbeat of an instance that it counts, and a tick doesn't judge an instance that RS heard at that tick.
pub fn beats_are_noted()
    ensures noted { BeatsAreNoted }
    ensures judged { HeardAreNotMissed }
{}
