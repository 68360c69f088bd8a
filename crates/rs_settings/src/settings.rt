//! Settings, and the functions that read them.

ghost use Rattle.std.specs.Prelude.{◌≡◌, ◌≢◌, ◌≤◌, ◌&&◌, All, IsTrue, IsOk, IfOk, IfErr, OnErr};
ghost use Rattle.std.specs.Prelude.{IfSome, Some, Ok, Err, [], nat_le, length, map, option_map};
ghost use Rattle.std.specs.Option.{option_and_then};
ghost use Rattle.toml.specs.Data.{get_member, as_array};
ghost use Rattle.toml.specs.View.{view, table_view, array_view, items_view};
ghost use Rattle.toml.specs.Text.{are_tables};
ghost use Rattle.ds_names.specs.Name.{IsName};
ghost use Rattle.rs_settings.specs.Values.{item_count};
ghost use Rattle.rs_settings.specs.Fault.{no_room};
ghost use Rattle.rs_settings.specs.Settings.{document, settings_by, settings_in, settings_in_any, settings_of, settings_of_any};
ghost use Rattle.rs_settings.specs.Settings.{settings_from, tables_of, IsNoDocument, IsService, IsSettings};
ghost use Rattle.rs_settings.specs.Settings.{TakesMemory, TablesTakeMemory, MayTakeMemory};
ghost use Rattle.rs_settings.specs.Draft.{service_of_draft, text_in_value};

use crate::draft::{Draft, drafts};
use crate::fault::{SettingsCause, SettingsFault};
use crate::format::Format;
use crate::names::Names;
use crate::service::Service;
use crate::services::Services;
use crate::shared::shared_fault;
use crate::value::{
    field, format_field, has_any_top_fields, has_top_fields, number_field, text_of,
};
use ds_names::{Name, NoRoom};
use std::alloc::Global;
use std::marker::Model;
use toml::value::Array;
use toml::{Table, Value};

/// Settings of RS: how many process slots it may use, 1 to 1008, and at most 64 services.
///
/// No two services have the same label, major number or port, and no name is published twice.
#[derive(Drop)]
pub struct Settings {
    slots: u32,
    services: Services,
}

impl Model for Settings {
    ghost use Rattle.std.specs.Prelude.{ℕ};
    ghost use Rattle.std.specs.Coded.{code_by, coded×, coded_ℕ};
    ghost use Rattle.rs_settings.specs.declared.services.Services.{Services as ServiceList};
    ghost use Rattle.rs_settings.specs.contracts.services.Services.{the_row as services_row};
    ghost use Rattle.rs_settings.specs.Settings.{SettingsRecord, settings, IsSettings};

    ghost Value = { SettingsRecord };

    ghost coded = { code_by (ℕ × ServiceList) (coded× coded_ℕ services_row.coded)
        (λ s. (s.slots, s.services)) (λ p. settings p.0 p.1) (λ s i. s) };

    ghost view = { λ s. settings s.slots s.services };

    ghost invariant = { λ s. IsSettings (settings s.slots s.services) };
}

impl Settings {
    /// Returns how many process slots RS may use, 1 to 1008.
    pub fn slots(&self) -> u32
        ensures value { result ≡ self.now.slots }
        ensures settings { IsSettings self.now }
    {
        self.slots
    }

    /// Returns the services, in the order of the text.
    pub fn services(&self) -> &Services
        ensures value { result.now ≡ self.now.services }
        ensures settings { IsSettings self.now }
    {
        &self.services
    }

    /// Returns a copy. Fails only if memory runs out; the copy of settings without a service takes none.
    pub fn copy(&self, alloc: Global) -> Result<Settings, NoRoom>
        ensures same { IfOk result (λ settings. settings ≡ self.now) }
        ensures room { OnErr result (self.now.services ≢ []) }
    {
        Ok(Settings {
            slots: self.slots,
            services: self.services.copy(alloc)?,
        })
    }
}

fn are_tables(items: &Array) -> bool
    ensures { result ≡ are_tables (array_view items.now) }
{
    items.iter().all(|item| item.is_table())
}

// Returns whether the array has at most 64 items, and each is a table.
fn are_few_tables(items: &Array) -> bool
    ensures value { result ≡ (nat_le (item_count (array_view items.now)) 64 && are_tables (array_view items.now)) }
    ensures count { IsTrue result → length items.now.items ≤ 64 }
{
    items.len() <= 64 && are_tables(items)
}

// Returns the array in the value, if it has at most 64 items, and each is a table.
fn tables(value: &Value) -> Option<&Array>
    ensures value { option_map (λ v. array_view v.now) result ≡ option_and_then tables_of (as_array (view value.now)) }
    ensures count { IfSome result (λ v. length v.now.items ≤ 64) }
{
    match value.as_array() {
        Some(items) => {
            if are_few_tables(items) {
                Some(items)
            } else {
                None
            }
        }
        None => None,
    }
}

// Reads a text that is known to be a name.
fn name_of(text: &str) -> Name
    requires { IsName text.now }
    ensures { result ≡ text.now }
{
    match Name::read(text.as_bytes()) {
        Ok(name) => name,
        Err(_) => unreachable!(),
    }
}

// Reads the names in the items. Fails only if memory runs out.
fn names(alloc: Global, items: &[Value]) -> Result<Names, NoRoom>
    requires { All IsName (map text_in_value items.now) }
    ensures { IfOk result (λ names. names ≡ map text_in_value items.now) }
{
    let mut names = Names::new(alloc);
    for item in items {
        names.push(name_of(text_of(item)))?;
    }
    Ok(names)
}

// Returns the names in the items, if there are items.
fn names_if(alloc: Global, items: Option<&[Value]>) -> Result<Option<Names>, NoRoom>
    requires { IfSome items (λ items. All IsName (map text_in_value items.now)) }
    ensures { IfOk result (λ names. names ≡ option_map (λ items. map text_in_value items.now) items.entry) }
{
    match items {
        Some(items) => Ok(Some(names(alloc, items)?)),
        None => Ok(None),
    }
}

// Copies a draft's service out of the document. Fails only if memory runs out.
fn service(alloc: Global, draft: &Draft<'_>) -> Result<Service, NoRoom>
    requires { IsService (service_of_draft draft.now) }
    ensures { IfOk result (λ service. service ≡ service_of_draft draft.now) }
{
    Ok(Service {
        label: draft.label,
        class: draft.class,
        unit: draft.unit,
        period: draft.period,
        limit: draft.limit,
        publishes: names(alloc, draft.publishes)?,
        complains: names_if(alloc, draft.complains)?,
        connects: names_if(alloc, draft.connects)?,
        forget: draft.forget,
        startup: draft.startup,
    })
}

fn services(alloc: Global, drafts: &[Draft<'_>]) -> Result<Services, NoRoom>
    requires { All IsService (map service_of_draft drafts.now) }
    ensures all { IfOk result (λ services. services ≡ map service_of_draft drafts.now) }
    ensures room { OnErr result (drafts.now ≢ []) }
{
    let mut services = Services::new(alloc);
    for draft in drafts {
        services.push(service(alloc, draft)?)?;
    }
    Ok(services)
}

// Reads settings with these slots and the services in the tables. Judges every fault before it takes memory.
fn of_tables(
    alloc: Global,
    format: Format,
    slots: u32,
    tables: &[Value],
) -> Result<Settings, SettingsFault>
    requires some { 1 ≤ slots }
    requires slots { slots ≤ 1008 }
    requires count { length tables.now ≤ 64 }
    ensures read { IfOk result (λ settings. settings_from format slots (items_view tables.now) ≡ Ok settings) }
    ensures refused { IfErr result (λ fault. fault.cause ≢ SettingsCause.NoRoom →
        settings_from format slots (items_view tables.now) ≡ Err fault) }
    ensures last { IfErr result (λ fault. fault.cause ≡ SettingsCause.NoRoom → IsOk (settings_from format slots (items_view tables.now))) }
    ensures memory { IfErr result (λ fault. fault.cause ≡ SettingsCause.NoRoom → TablesTakeMemory format slots (items_view tables.now)) }
    ensures room { IfErr result (λ fault. fault.cause ≡ SettingsCause.NoRoom → fault ≡ no_room) }
    ensures settings { IfOk result IsSettings }
{
    let drafts = drafts(format, tables)?;
    if let Some(fault) = shared_fault(drafts.as_slice()) {
        return Err(fault);
    }
    match services(alloc, drafts.as_slice()) {
        Ok(services) => Ok(Settings { slots, services }),
        Err(NoRoom) => Err(SettingsFault::at_top(SettingsCause::NoRoom)),
    }
}

// Reads the settings of a document of this format whose fields are known, or returns its first fault.
fn of_format(alloc: Global, format: Format, table: &Table) -> Result<Settings, SettingsFault>
    ensures read { IfOk result (λ settings. settings_by format (table_view table.now) ≡ Ok settings) }
    ensures refused { IfErr result (λ fault. fault.cause ≢ SettingsCause.NoRoom → settings_by format (table_view table.now) ≡ Err fault) }
    ensures last { IfErr result (λ fault. fault.cause ≡ SettingsCause.NoRoom → IsOk (settings_by format (table_view table.now))) }
    ensures memory { IfErr result (λ fault. fault.cause ≡ SettingsCause.NoRoom → TakesMemory (settings_by format (table_view table.now))) }
    ensures room { IfErr result (λ fault. fault.cause ≡ SettingsCause.NoRoom → fault ≡ no_room) }
    ensures settings { IfOk result IsSettings }
{
    let Some(slots) = number_field(table, "slots", 64, 1, 1008) else {
        return Err(SettingsFault::at_top(SettingsCause::OutOfRange));
    };
    let Some(value) = field(table, "service") else {
        return of_tables(alloc, format, slots, &[]);
    };
    let Some(items) = tables(value) else {
        return Err(SettingsFault::at_top(SettingsCause::OutOfRange));
    };
    of_tables(alloc, format, slots, items)
}

/// Reads the settings of a TOML document of format 1, or returns its first fault. Returns NoRoom, without an index, only
/// if the document has no other fault and at least one service.
pub fn read_table(alloc: Global, table: &Table) -> Result<Settings, SettingsFault>
    ensures read { IfOk result (λ settings. settings_in (table_view table.now) ≡ Ok settings) }
    ensures refused { IfErr result (λ fault. fault.cause ≢ SettingsCause.NoRoom → settings_in (table_view table.now) ≡ Err fault) }
    ensures last { IfErr result (λ fault. fault.cause ≡ SettingsCause.NoRoom → IsOk (settings_in (table_view table.now))) }
    ensures memory { IfErr result (λ fault. fault.cause ≡ SettingsCause.NoRoom → TakesMemory (settings_in (table_view table.now))) }
    ensures room { IfErr result (λ fault. fault.cause ≡ SettingsCause.NoRoom → fault ≡ no_room) }
    ensures settings { IfOk result IsSettings }
{
    if !has_top_fields(table) {
        return Err(SettingsFault::at_top(SettingsCause::UnknownField));
    }
    of_format(alloc, Format::First, table)
}

/// Reads the settings of a TOML document of format 1 or 2, or returns its first fault. A document of format 2 has
/// `format = 2` at its top; without that field it is of format 1. NoRoom is as in `read_table`.
pub fn read_any_table(alloc: Global, table: &Table) -> Result<Settings, SettingsFault>
    ensures read { IfOk result (λ settings. settings_in_any (table_view table.now) ≡ Ok settings) }
    ensures refused { IfErr result (λ fault. fault.cause ≢ SettingsCause.NoRoom → settings_in_any (table_view table.now) ≡ Err fault) }
    ensures last { IfErr result (λ fault. fault.cause ≡ SettingsCause.NoRoom → IsOk (settings_in_any (table_view table.now))) }
    ensures memory { IfErr result (λ fault. fault.cause ≡ SettingsCause.NoRoom → TakesMemory (settings_in_any (table_view table.now))) }
    ensures room { IfErr result (λ fault. fault.cause ≡ SettingsCause.NoRoom → fault ≡ no_room) }
    ensures settings { IfOk result IsSettings }
{
    if !has_any_top_fields(table) {
        return Err(SettingsFault::at_top(SettingsCause::UnknownField));
    }
    let Some(format) = format_field(table, "format") else {
        return Err(SettingsFault::at_top(SettingsCause::OutOfRange));
    };
    of_format(alloc, format, table)
}

// Parses a UTF-8 text, or returns why it isn't a document.
fn parsed(alloc: Global, text: &str) -> Result<Table, SettingsFault>
    ensures document { IfOk result (λ table. document text.now ≡ Some (table_view table)) }
    ensures refused { IfErr result (λ fault. fault.cause ≢ SettingsCause.NoRoom → IsNoDocument text.now fault) }
    ensures memory { IfErr result (λ fault. fault.cause ≡ SettingsCause.NoRoom → MayTakeMemory text.now) }
    ensures room { IfErr result (λ fault. fault.cause ≡ SettingsCause.NoRoom → fault ≡ no_room) }
{
    match toml::table_from_str(alloc, text) {
        Ok(table) => Ok(table),
        Err(fault) => {
            if fault.is_memory() {
                return Err(SettingsFault::at_top(SettingsCause::NoRoom));
            }
            Err(SettingsFault::at_top(SettingsCause::BadToml))
        }
    }
}

// Returns the document of a text, or why there is none.
fn document(alloc: Global, text: &[u8]) -> Result<Table, SettingsFault>
    ensures document { IfOk result (λ table. document text.now ≡ Some (table_view table)) }
    ensures refused { IfErr result (λ fault. fault.cause ≢ SettingsCause.NoRoom → IsNoDocument text.now fault) }
    ensures memory { IfErr result (λ fault. fault.cause ≡ SettingsCause.NoRoom → MayTakeMemory text.now) }
    ensures room { IfErr result (λ fault. fault.cause ≡ SettingsCause.NoRoom → fault ≡ no_room) }
{
    match std::str::from_utf8(text) {
        Ok(text) => parsed(alloc, text),
        Err(_) => Err(SettingsFault::at_top(SettingsCause::BadToml)),
    }
}

/// Reads the settings of a text of format 1, or returns its first fault. `format` isn't a field of it.
///
/// The text must be one TOML document in UTF-8. Memory may run out while the TOML is read, before any fault is judged,
/// or for the settings, after every other fault. NoRoom has no index. Bytes that aren't UTF-8 never run out of memory,
/// nor does a text of only white space and comments.
pub fn read(alloc: Global, text: &[u8]) -> Result<Settings, SettingsFault>
    ensures read { IfOk result (λ settings. settings_of text.now ≡ Ok settings) }
    ensures refused { IfErr result (λ fault. fault.cause ≢ SettingsCause.NoRoom → settings_of text.now ≡ Err fault) }
    ensures memory { IfErr result (λ fault. fault.cause ≡ SettingsCause.NoRoom → MayTakeMemory text.now) }
    ensures room { IfErr result (λ fault. fault.cause ≡ SettingsCause.NoRoom → fault ≡ no_room) }
    ensures settings { IfOk result IsSettings }
{
    match document(alloc, text) {
        Ok(table) => read_table(alloc, &table),
        Err(fault) => Err(fault),
    }
}

/// Reads the settings of a text of format 1 or 2, or returns its first fault. A text of format 2 has `format = 2` at its
/// top; without that field it is read as by `read`. NoRoom is as in `read`.
pub fn read_any(alloc: Global, text: &[u8]) -> Result<Settings, SettingsFault>
    ensures read { IfOk result (λ settings. settings_of_any text.now ≡ Ok settings) }
    ensures refused { IfErr result (λ fault. fault.cause ≢ SettingsCause.NoRoom → settings_of_any text.now ≡ Err fault) }
    ensures memory { IfErr result (λ fault. fault.cause ≡ SettingsCause.NoRoom → MayTakeMemory text.now) }
    ensures room { IfErr result (λ fault. fault.cause ≡ SettingsCause.NoRoom → fault ≡ no_room) }
    ensures settings { IfOk result IsSettings }
{
    match document(alloc, text) {
        Ok(table) => read_any_table(alloc, &table),
        Err(fault) => Err(fault),
    }
}
