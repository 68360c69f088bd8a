//! The laws of recovery, over definitions only.

ghost use Rattle.ds_system.specs.Recovery.{InstancesServe, DriversRecover};
ghost use Rattle.ds_system.specs.RecoveryPremises.{ServingNeeds, RecoveryHolds};

/// A law: once a server has followed its map to the end, each running instance serves it whose label reached that map. It
/// is the driver of each unit of its label, and each pending request to such a unit was last sent to it.
pub fn instances_serve()
    ensures { InstancesServe }
{}

/// A law: drivers recover. If a tick is reported until RS has no action, at most as many reports have actions as there are
/// services, and each service whose wait was over runs under a new generation. If nothing else is reported to RS, and both
/// servers then follow their maps to the end, each running instance serves both whose label reached their maps.
pub fn drivers_recover()
    ensures { DriversRecover }
{}

/// A law: without any one of these premises, the law of a follow is false. An example meets all premises of recovery.
pub fn recovery_premises()
    ensures serve { ServingNeeds }
    ensures hold { RecoveryHolds }
{}
