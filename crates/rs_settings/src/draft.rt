//! Services that are judged while the names in their lists are still in the document.

ghost use Rattle.std.specs.Prelude.{◌≡◌, ◌≢◌, ◌≤◌, [], All, map, Ok, Err, length, codes, option_map, IfOk, IfErr, IfSome};
ghost use Rattle.std.specs.Option.{option_and_then};
ghost use Rattle.toml.specs.Data.{get_member, as_table};
ghost use Rattle.toml.specs.View.{view, table_view, items_view};
ghost use Rattle.ds_names.specs.Name.{IsName, rs_name};
ghost use Rattle.rs_settings.specs.Values.{class_in, label_in_data};
ghost use Rattle.rs_settings.specs.Service.{lacks_field, names_server, values_in, service_in, service_from, services_in};
ghost use Rattle.rs_settings.specs.Settings.{IsService};
ghost use Rattle.rs_settings.specs.Draft.{service_of_draft};

use crate::class::Class;
use crate::fault::{SettingsCause, SettingsFault};
use crate::format::Format;
use crate::value::{
    class, field, has_service_fields, label, names_field, names_if_field, number_field, unit_field,
};
use arrayvec::ArrayVec;
use ds_names::Name;
use toml::{Table, Value};

/// A service that was judged. The names in its lists are still values of the document; each is the text of a name.
#[derive(Clone, Copy)]
pub(crate) struct Draft<'a> {
    pub label: Name,
    pub class: Class,
    pub unit: Option<u8>,
    pub period: u32,
    pub limit: u32,
    pub publishes: &'a [Value],
    pub complains: Option<&'a [Value]>,
    pub connects: Option<&'a [Value]>,
    pub forget: u32,
    pub startup: u32,
}

impl Default for Draft<'_> {
    fn default() -> Self {
        Draft {
            label: any_name(),
            class: Class::Server,
            unit: None,
            period: 0,
            limit: 0,
            publishes: &[],
            complains: None,
            connects: None,
            forget: 0,
            startup: 0,
        }
    }
}

// Returns some name: the label of a default draft, which nobody reads.
fn any_name() -> Name {
    match Name::read(b"-") {
        Ok(name) => name,
        Err(_) => unreachable!(),
    }
}

fn names_server(table: &Table) -> bool
    ensures { result ≡ names_server (get_member (codes "class") (table_view table.now)) }
{
    match class_field(table) {
        Some(class) => class.is_server(),
        None => false,
    }
}

// Returns whether the label, the class or a unit that the class needs is missing.
fn lacks_field(table: &Table) -> bool
    ensures { result ≡ lacks_field (table_view table.now) }
{
    let no_unit = field(table, "unit").is_none() && !names_server(table);
    field(table, "label").is_none() || field(table, "class").is_none() || no_unit
}

// Returns the class that the field names; `None` if there is no such field, or it names none.
fn class_field(table: &Table) -> Option<Class>
    ensures { result ≡ option_and_then class_in (get_member (codes "class") (table_view table.now)) }
{
    match field(table, "class") {
        Some(value) => class(value),
        None => None,
    }
}

fn label_field(table: &Table) -> Option<Name>
    ensures value { result ≡ option_and_then label_in_data (get_member (codes "label") (table_view table.now)) }
    ensures name { IfSome result IsName }
    ensures other { IfSome result (λ name. name ≢ rs_name) }
{
    match field(table, "label") {
        Some(value) => label(value),
        None => None,
    }
}

// Returns the service that the table's fields describe, if each value is in its range.
fn values(format: Format, table: &Table) -> Option<Draft<'_>>
    ensures value { option_map service_of_draft result ≡ values_in format (table_view table.now) }
    ensures service { IfSome result (λ draft. IsService (service_of_draft draft)) }
{
    let label = label_field(table)?;
    let class = class_field(table)?;
    let unit = unit_field(table, "unit", class)?;
    let period = number_field(table, "period", 0, 0, 1000000)?;
    let limit = number_field(table, "limit", format.usual_limit(), 0, 1000)?;
    let publishes = names_field(table, "publishes")?;
    let complains = names_if_field(table, "complains")?;
    let connects = names_if_field(table, "connects")?;
    let forget = number_field(table, "forget", format.usual_forget(), 0, 1000000000)?;
    let startup = number_field(table, "startup", 0, 0, 1000000)?;
    Some(Draft {
        label,
        class,
        unit,
        period,
        limit,
        publishes,
        complains,
        connects,
        forget,
        startup,
    })
}

// Returns the service that a table describes, or the table's first fault.
fn draft_of(format: Format, table: &Table) -> Result<Draft<'_>, SettingsCause>
    ensures read { IfOk result (λ draft. service_in format (table_view table.now) ≡ Ok (service_of_draft draft)) }
    ensures refused { IfErr result (λ cause. service_in format (table_view table.now) ≡ Err cause) }
    ensures other { IfErr result (λ cause. cause ≢ SettingsCause.NoRoom) }
    ensures service { IfOk result (λ draft. IsService (service_of_draft draft)) }
{
    if !has_service_fields(format, table) {
        return Err(SettingsCause::UnknownField);
    }
    if lacks_field(table) {
        return Err(SettingsCause::Missing);
    }
    match values(format, table) {
        Some(draft) => Ok(draft),
        None => Err(SettingsCause::OutOfRange),
    }
}

// Returns the service that an item of the array describes, or its first fault, with the item's index.
fn draft_at(format: Format, index: usize, item: &Value) -> Result<Draft<'_>, SettingsFault>
    ensures read { IfOk result (λ draft. service_from format index (as_table (view item.now)) ≡ Ok (service_of_draft draft)) }
    ensures refused { IfErr result (λ fault. service_from format index (as_table (view item.now)) ≡ Err fault) }
    ensures other { IfErr result (λ fault. fault.cause ≢ SettingsCause.NoRoom) }
    ensures service { IfOk result (λ draft. IsService (service_of_draft draft)) }
{
    let Some(table) = item.as_table() else {
        return Err(SettingsFault::at_top(SettingsCause::OutOfRange));
    };
    match draft_of(format, table) {
        Ok(draft) => Ok(draft),
        Err(cause) => Err(SettingsFault::at_service(cause, index)),
    }
}

// Returns the services of the items, or the fault of the first bad one.
pub(crate) fn drafts(
    format: Format,
    items: &[Value],
) -> Result<ArrayVec<Draft<'_>, 64>, SettingsFault>
    requires { length items.now ≤ 64 }
    ensures read { IfOk result (λ drafts. services_in format [] (items_view items.now) ≡ Ok (map service_of_draft drafts.items)) }
    ensures refused { IfErr result (λ fault. services_in format [] (items_view items.now) ≡ Err fault) }
    ensures other { IfErr result (λ fault. fault.cause ≢ SettingsCause.NoRoom) }
    ensures each { IfOk result (λ drafts. All IsService (map service_of_draft drafts.items)) }
    ensures count { IfOk result (λ drafts. length drafts.items ≤ 64) }
{
    let mut drafts: ArrayVec<Draft<'_>, 64> = ArrayVec::new();
    for item in items {
        match draft_at(format, drafts.len(), item) {
            Ok(draft) => drafts.push(draft),
            Err(fault) => return Err(fault),
        }
    }
    Ok(drafts)
}
