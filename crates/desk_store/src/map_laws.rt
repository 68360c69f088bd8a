//! Laws of followers, and of merged items.

ghost use Rattle.desk_store.specs.Laws.{FollowersFollow};
ghost use Rattle.desk_store.specs.Merged.{MergedStaysHeld};

/// Laws of a map that follows a store by its subscriber's own Subscribe and Checks.
///
/// After a Subscribe with INITIAL, an empty map follows. After it takes the items of a Check, it still follows. If the Check returned fewer
/// items than it may, the map is what the store holds under the query. Whatever commands others send, the map still follows, or the
/// subscription has a greater stamp, which the next Check returns. The map refuses an item of a Check only if memory runs out.
pub fn followers_follow()
    ensures { FollowersFollow }
{}

/// A law: a store continues to hold the items that were merged into it, whatever commands it gets.
///
/// For each change it holds at least its version, or a floor that makes it void. For each floor it holds one at least as high.
pub fn merged_items_stay()
    ensures { MergedStaysHeld }
{}
