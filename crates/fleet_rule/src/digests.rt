//! What a digest of a log's content is.

ghost use Rattle.ds_entry.specs.declared.item.Item.{Item};
ghost use Rattle.fleet_rule.specs.Digest.{DigestsFollow, OwnChangesAreNotEnough};

/// Laws: the digest of what a log says up to an entry is that of what a bridge holds there, less what it holds at the keys of which a
/// change of its own waits, plus what the log says at these. It isn't that of what it holds with its own changes taken back.
pub fn digests_follow()
    ensures follow { DigestsFollow Item }
    ensures own { OwnChangesAreNotEnough }
{}
