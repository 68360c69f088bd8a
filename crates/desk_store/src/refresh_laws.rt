//! Laws of followers at a desk.

ghost use Rattle.desk_store.specs.RefreshLaws.{KeepsUpLater, LostKeepsUp, RefreshedAlike};

/// A law: a follower that is new or lost keeps up with every pass. One that keeps up with a pass still does after the pass has seen more,
/// and keeps up with each other pass that has seen the same.
pub fn followers_keep_up()
    ensures lost { LostKeepsUp }
    ensures later { KeepsUpLater }
{}

/// A law: two followers with one query that were refreshed up to the same place have equal maps.
pub fn refreshed_alike()
    ensures { RefreshedAlike }
{}
