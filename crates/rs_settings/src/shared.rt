//! What no two services may share.

ghost use Rattle.std.specs.Prelude.{◌≡◌, ◌≢◌, ℕ, List, ◌<◌, ◌≤◌, ◌+◌, ◌++◌, ◌||◌, [], All, length, map, IsFalse, IfSome};
ghost use Rattle.std.specs.List.{list_any};
ghost use Rattle.rs_settings.specs.Shared.{is_same_number, has_name, repeats, first_clash, first_repeat, shared_fault};
ghost use Rattle.rs_settings.specs.Settings.{IsService};
ghost use Rattle.rs_settings.specs.Draft.{service_of_draft, share_by, text_in_value};

use crate::draft::Draft;
use crate::fault::{SettingsCause, SettingsFault};
use crate::seen::Seen;
use crate::value::text_of;
use toml::Value;

/// A field that no two services share: the label, or the unit.
#[derive(Clone, Copy)]
pub(crate) enum Mark {
    Label,
    Unit,
}

fn is_same_number(a: Option<u8>, b: Option<u8>) -> bool
    ensures { result ≡ is_same_number a b }
{
    match (a, b) {
        (Some(a), Some(b)) => a == b,
        _ => false,
    }
}

impl Mark {
    // Returns whether the two services share the field.
    fn is_shared(self, a: &Draft<'_>, b: &Draft<'_>) -> bool
        ensures { result ≡ share_by self (service_of_draft a.now) (service_of_draft b.now) }
    {
        match self {
            Mark::Label => a.label == b.label,
            Mark::Unit => {
                a.class.is_network() == b.class.is_network() && is_same_number(a.unit, b.unit)
            }
        }
    }

    // Returns whether the service shares the field with one before it.
    fn clashes(self, draft: &Draft<'_>, before: &[Draft<'_>]) -> bool
        ensures { result ≡ list_any (λ d. share_by self (service_of_draft draft.now) (service_of_draft d)) before.now }
    {
        before.iter().any(|other| self.is_shared(draft, other))
    }

    // Returns the index of the first service that shares the field with one before it.
    fn first_clash(self, drafts: &[Draft<'_>]) -> Option<usize>
        ensures { result ≡ first_clash (share_by self) [] (map service_of_draft drafts.now) }
    {
        for i in 0..drafts.len() {
            if self.clashes(&drafts[i], &drafts[..i]) {
                return Some(i);
            }
        }
        None
    }
}

// Adds the names up to the first one that was seen before, and returns whether there was one.
fn repeats<'a>(seen: &mut Seen<'a>, names: &'a [Value]) -> bool
    requires { length seen.old + length names.now ≤ 4096 }
    ensures value { result ≡ repeats seen.old (map text_in_value names.now) }
    ensures after { (n : List ℕ) → IsFalse result → has_name seen.new n ≡ has_name (seen.old ++ map text_in_value names.now) n }
    ensures len { length seen.new ≤ length seen.old + length names.now }
{
    for name in names {
        if !seen.add(text_of(name)) {
            return true;
        }
    }
    false
}

// Returns the index of the first service that publishes a name published before.
fn first_repeat(drafts: &[Draft<'_>]) -> Option<usize>
    requires count { length drafts.now ≤ 64 }
    requires each { All IsService (map service_of_draft drafts.now) }
    ensures { result ≡ first_repeat [] 0 (map service_of_draft drafts.now) }
{
    let mut seen = Seen::new();
    for (i, draft) in drafts.iter().enumerate() {
        if repeats(&mut seen, draft.publishes) {
            return Some(i);
        }
    }
    None
}

// Returns the first fault of the services together.
pub(crate) fn shared_fault(drafts: &[Draft<'_>]) -> Option<SettingsFault>
    requires count { length drafts.now ≤ 64 }
    requires each { All IsService (map service_of_draft drafts.now) }
    ensures value { result ≡ shared_fault (map service_of_draft drafts.now) }
    ensures other { IfSome result (λ fault. fault.cause ≢ SettingsCause.NoRoom) }
{
    if let Some(index) = Mark::Label.first_clash(drafts) {
        return Some(SettingsFault::at_service(SettingsCause::TwoLabels, index));
    }
    if let Some(index) = Mark::Unit.first_clash(drafts) {
        return Some(SettingsFault::at_service(SettingsCause::TwoUnits, index));
    }
    match first_repeat(drafts) {
        Some(index) => Some(SettingsFault::at_service(SettingsCause::SharedName, index)),
        None => None,
    }
}
