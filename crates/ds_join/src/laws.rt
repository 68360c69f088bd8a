//! The laws of tops and joins of items, over their definitions alone.

ghost use Rattle.ds_join.specs.ItemJoin.{JoinIsCommutative, JoinIsAssociative, JoinIsIdempotent, JoinIsLeast};
ghost use Rattle.ds_join.specs.ItemTopLaws.{TopExists, TopIsUnique, HeldIsItsTop, GreatestFloorIsHeld};
ghost use Rattle.ds_join.specs.ItemTopLaws.{NothingVoidIsHeld, TopsIsTop, TopOfTop, TopOfUnion, TopOfCovered};

/// Laws of the top of a set of items.
///
/// A single-numbered set has exactly one top. What is held is its own top. The top has each owner's greatest floor, and
/// nothing that a floor of the set voids. `tops` computes a top if, in order of arrival, the changes of each key that
/// aren't void have one owner. The top of a union can be computed from the top of one side. An item of a set is the top
/// of all items that it covers there.
pub fn item_top_laws()
    ensures exists { TopExists }
    ensures unique { TopIsUnique }
    ensures held { HeldIsItsTop }
    ensures floors { GreatestFloorIsHeld }
    ensures void { NothingVoidIsHeld }
    ensures in_turn { TopsIsTop }
    ensures of_top { TopOfTop }
    ensures of_union { TopOfUnion }
    ensures of_covered { TopOfCovered }
{}

/// Laws of the join of items: it is commutative, associative, idempotent on tops, and least.
pub fn item_join_laws()
    ensures commutative { JoinIsCommutative }
    ensures associative { JoinIsAssociative }
    ensures idempotent { JoinIsIdempotent }
    ensures least { JoinIsLeast }
{}
