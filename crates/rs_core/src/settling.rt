//! Laws of ticks that are reported until RS has no action: recovery with a bound.

ghost use Rattle.rs_core.specs.Settling.{TicksSettle, TicksCanSettle, PausesAreShort, ServicesRecover};
ghost use Rattle.rs_core.specs.SettlingPremises.{SettlingNeeds, ExistenceNeeds, RecoveryNeeds, RecoveryHappens};

/// A law: a tick that is reported until RS has no action settles RS.
///
/// There are as many reports with actions as services for which something was due, so at most as many as services. After
/// them no heartbeat is missed, no ping is due and no wait is over. Each service whose wait was over runs, under a new
/// generation and with its failures counted. Each service whose heartbeat was missed waits, or was given up above its
/// limit. Any other service is unchanged, except for its last ping.
///
/// Such reports exist at any tick from the last one on, if RS has a slot for each service and a generation for each start
/// that is due.
pub fn ticks_settle()
    ensures settle { TicksSettle }
    ensures exist { TicksCanSettle }
{}

/// A law: a failed service is up again after a bounded number of ticks and reports.
///
/// Unless it was given up, its pause ends 1 to 32 ticks after the failure. Once a tick settles at which the pause is
/// over, the service runs at a newer generation, whatever happened before if it still waited.
pub fn services_recover()
    ensures pauses { PausesAreShort }
    ensures recover { ServicesRecover }
{}

/// A law: without any one of these premises, a law of settling or recovery is false. They hold together.
pub fn settling_premises()
    ensures settle { SettlingNeeds }
    ensures exist { ExistenceNeeds }
    ensures recover { RecoveryNeeds }
    ensures hold { RecoveryHappens }
{}
