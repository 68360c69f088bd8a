//! Laws: inputs and tasks are events of the rule.

ghost use Rattle.process_keeper.specs.Following.{FollowingIsInputs};
ghost use Rattle.process_keeper.specs.Happening.{IdleMayBeLeftOut, InputsAreEvents, TasksMayBeDone, TruthStays};

/// Laws: each accepted input that is true is an event of the rule, and each task may be done.
pub fn inputs_are_events()
    ensures inputs { InputsAreEvents }
    ensures tasks { TasksMayBeDone }
{}

/// A law: what a label saw stays true, whatever the kernel and other labels do.
pub fn truth_stays()
    ensures { TruthStays }
{}

/// A law: a label that follows RS runs what RS wants, and takes inputs that it accepts.
pub fn following_is_inputs()
    ensures { FollowingIsInputs }
{}

/// A law: a label that isn't busy may be left out: no process that a scan has found for the label is forgotten.
pub fn idle_labels_may_be_left_out()
    ensures { IdleMayBeLeftOut }
{}
