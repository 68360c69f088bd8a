//! The laws of handles as holders.

ghost use Rattle.c_holders.specs.Agree.{HandlesAgree};
ghost use Rattle.c_holders.specs.Handles.{HandlesAreStores};
ghost use Rattle.c_holders.specs.Maps.{HandlesAreMaps};

use holders::two_holders_agree;
use rs_store::pairs_take_turns;

/// A law: a map of C knows the items under its query that its takes did, so it is a holder of `two_holders_agree`.
pub fn maps_of_handles()
    ensures { HandlesAreMaps }
{}

/// A law: after any calls on an opened handle, its store knows what they brought, so it is a holder of `two_holders_agree`. Calls are
/// requests, lines, events of RS, its opening and its other settings, in any order.
pub fn stores_of_handles()
    ensures { HandlesAreStores }
{
    pairs_take_turns();
}

/// A law: stores and maps of C are holders, and holders that know the same hold the same. `ds_open` and `ds_map_new` name it.
pub fn handles_agree()
    ensures { HandlesAgree }
{
    stores_of_handles();
    maps_of_handles();
    two_holders_agree();
}
