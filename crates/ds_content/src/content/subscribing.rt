//! Making a subscription.

ghost use Rattle.std.specs.Prelude.{◌≡◌, ◌<◌, IfOk, OnOk, OnErr};
ghost use Rattle.std.specs.List.{list_any};
ghost use Rattle.ds_machine.specs.State.{subscribes};
ghost use Rattle.ds_machine.specs.Watching.{shown_at_first};
ghost use Rattle.ds_content.specs.Stands.{StandsAfter};
ghost use Rattle.ds_names.specs.Limits.{last_place};
ghost use Rattle.ds_pattern.specs.Under.{is_under};
ghost use Rattle.ds_entry.specs.Item.{passes};

use crate::content::Content;
use crate::content::marking::{flags_under, make_all};
use ds_names::NoRoom;
use ds_pattern::Filter;
use ds_watch::Subscription;

// Returns whether any flag is set.
fn has_any(flags: &[bool]) -> bool
    ensures { result ≡ list_any (λ b. b) flags.now }
{
    flags.iter().any(|flag| *flag)
}

impl Content {
    /// Makes subscription `sub`, in place of any earlier one, with the next stamp. With `initial`, everything held
    /// under its query is to be shown; without it, only later changes. Returns whether something held is under the
    /// query (any floor is). NoRoom changes nothing.
    pub fn subscribe(&mut self, sub: u32, filter: Filter, initial: bool) -> Result<bool, NoRoom>
        requires place { sub < self.old.limits.subs }
        requires room { self.old.stamp < last_place }
        ensures ok { OnOk result (StandsAfter self.old (λ s. subscribes s sub filter (shown_at_first self.old.held initial)) self.new) }
        ensures some { IfOk result (λ some. some ≡ list_any (passes (is_under filter)) self.old.held) }
        ensures err { OnErr result (self.new ≡ self.old) }
    {
        let flags = flags_under(self.alloc, self.held.held(), &filter)?;
        let some = has_any(&flags);
        self.stamp += 1;
        make_all(&mut self.held, sub as usize, &flags, initial);
        self.pending = self.pending.put(sub as usize, initial);
        self.subscriptions
            .put(sub as usize, Subscription::new(filter, self.stamp));
        Ok(some)
    }
}
