//! Single values of a document, judged in place. Nothing here takes memory.

ghost use Rattle.std.specs.Prelude.{◌≡◌, ◌≢◌, ◌≤◌, All, IsTrue, Some, None, map, option_map, if◌then◌else◌, IfSome};
ghost use Rattle.toml.specs.Data.{get_member, as_array};
ghost use Rattle.toml.specs.View.{view, table_view, items_view, array_view};
ghost use Rattle.ds_names.specs.Name.{IsName, rs_name};
ghost use Rattle.rs_settings.specs.Values.{keys_pass, within, number_in, number_or, name_read, name_in, label_in_data};
ghost use Rattle.rs_settings.specs.Values.{each_of, names_of, names_or, names_if, class_named, class_in, unit_in, is_server};
ghost use Rattle.rs_settings.specs.Service.{is_first_field, is_second_field, is_service_field};
ghost use Rattle.rs_settings.specs.Settings.{is_any_top_field, is_top_field, format_in, HasUnit, ArePublished};
ghost use Rattle.rs_settings.specs.Draft.{text_in_value};

use crate::class::Class;
use crate::format::Format;
use ds_names::Name;
use toml::value::Array;
use toml::{Table, Value};

// Returns the value of a field, if the table has the field.
pub(crate) fn field<'a>(table: &'a Table, name: &str) -> Option<&'a Value>
    ensures { option_map (λ v. view v.now) result ≡ get_member name.now (table_view table.now) }
{
    table.get(name)
}

fn is_first_field(key: &str) -> bool
    ensures { result ≡ is_first_field key.now }
{
    matches!(
        key,
        "label" | "class" | "unit" | "period" | "limit" | "publishes"
    )
}

fn is_second_field(key: &str) -> bool
    ensures { result ≡ is_second_field key.now }
{
    matches!(key, "complains" | "connects" | "forget" | "startup")
}

fn is_service_field(format: Format, key: &str) -> bool
    ensures { result ≡ is_service_field format key.now }
{
    match format {
        Format::First => is_first_field(key),
        Format::Second => is_first_field(key) || is_second_field(key),
    }
}

fn is_top_field(key: &str) -> bool
    ensures { result ≡ is_top_field key.now }
{
    key == "slots" || key == "service"
}

fn is_any_top_field(key: &str) -> bool
    ensures { result ≡ is_any_top_field key.now }
{
    key == "format" || is_top_field(key)
}

// Returns whether a service of the format may have every field of the table.
pub(crate) fn has_service_fields(format: Format, table: &Table) -> bool
    ensures { result ≡ keys_pass (is_service_field format) (table_view table.now) }
{
    table
        .keys()
        .all(|key| is_service_field(format, key.as_str()))
}

// Returns whether each of the fields may be at the top of a document of format 1.
pub(crate) fn has_top_fields(table: &Table) -> bool
    ensures { result ≡ keys_pass is_top_field (table_view table.now) }
{
    table.keys().all(|key| is_top_field(key.as_str()))
}

// Returns whether each of the fields may be at the top of a document that may name its format.
pub(crate) fn has_any_top_fields(table: &Table) -> bool
    ensures { result ≡ keys_pass is_any_top_field (table_view table.now) }
{
    table.keys().all(|key| is_any_top_field(key.as_str()))
}

fn number_within(number: i64, low: u32, high: u32) -> Option<u32>
    ensures value { result ≡ within low high number }
    ensures range { IfSome result (λ n. (low ≤ n) × (n ≤ high)) }
{
    if number >= 0 && number <= 4294967295 {
        let number = number as u32;
        if low <= number && number <= high {
            return Some(number);
        }
    }
    None
}

// Returns the value, if it is an integer from `low` to `high`.
fn number(value: &Value, low: u32, high: u32) -> Option<u32>
    ensures value { result ≡ number_in low high (view value.now) }
    ensures range { IfSome result (λ n. (low ≤ n) × (n ≤ high)) }
{
    match value.as_integer() {
        Some(number) => number_within(number, low, high),
        None => None,
    }
}

// Returns a field's integer in the range, or `missing` if there is no such field.
pub(crate) fn number_field(
    table: &Table,
    name: &str,
    missing: u32,
    low: u32,
    high: u32,
) -> Option<u32>
    ensures value { result ≡ number_or missing low high (get_member name.now (table_view table.now)) }
    ensures range { low ≤ missing → missing ≤ high → IfSome result (λ n. (low ≤ n) × (n ≤ high)) }
{
    match field(table, name) {
        Some(value) => number(value, low, high),
        None => Some(missing),
    }
}

// Returns the format that a field names, if it names one. Without the field it is the first.
pub(crate) fn format_field(table: &Table, name: &str) -> Option<Format>
    ensures { result ≡ format_in (get_member name.now (table_view table.now)) }
{
    match field(table, name) {
        Some(value) => match number(value, 2, 2) {
            Some(_) => Some(Format::Second),
            None => None,
        },
        None => Some(Format::First),
    }
}

fn name_of(text: &str) -> Option<Name>
    ensures value { result ≡ name_read text.now }
    ensures name { IfSome result IsName }
{
    match Name::read(text.as_bytes()) {
        Ok(name) => Some(name),
        Err(_) => None,
    }
}

// Returns the value's name, if it is a string that is one.
pub(crate) fn name(value: &Value) -> Option<Name>
    ensures value { result ≡ name_in (view value.now) }
    ensures name { IfSome result IsName }
{
    match value.as_str() {
        Some(text) => name_of(text),
        None => None,
    }
}

// Returns the value's name, if it is a string that is a name other than `rs`.
pub(crate) fn label(value: &Value) -> Option<Name>
    ensures value { result ≡ label_in_data (view value.now) }
    ensures name { IfSome result IsName }
    ensures other { IfSome result (λ name. name ≢ rs_name) }
{
    match name(value) {
        Some(name) => {
            if name.bytes() == b"rs".as_slice() {
                None
            } else {
                Some(name)
            }
        }
        None => None,
    }
}

// Returns whether each item is a name.
fn are_names(items: &[Value]) -> bool
    ensures value { each_of name_in (items_view items.now) ≡ (if result then Some (map text_in_value items.now) else None) }
    ensures names { IsTrue result → All IsName (map text_in_value items.now) }
{
    items.iter().all(|item| name(item).is_some())
}

// Returns the items of the array, if they are at most 64 and each is a name.
fn names_of(items: &Array) -> Option<&[Value]>
    ensures value { option_map (λ names. map text_in_value names.now) result ≡ names_of (array_view items.now) }
    ensures names { IfSome result (λ names. ArePublished (map text_in_value names.now)) }
{
    if items.len() > 64 {
        return None;
    }
    if are_names(items.as_slice()) {
        Some(items.as_slice())
    } else {
        None
    }
}

// Returns the names in a field, at most 64, without a copy. A missing field has no names.
pub(crate) fn names_field<'a>(table: &'a Table, name: &str) -> Option<&'a [Value]>
    ensures value { option_map (λ names. map text_in_value names.now) result ≡ names_or (get_member name.now (table_view table.now)) }
    ensures names { IfSome result (λ names. ArePublished (map text_in_value names.now)) }
{
    match field(table, name) {
        Some(value) => match value.as_array() {
            Some(items) => names_of(items),
            None => None,
        },
        None => Some(&[]),
    }
}

// Returns a field's names, at most 64, in place, or `Some(None)` if there is no such field.
pub(crate) fn names_if_field<'a>(table: &'a Table, name: &str) -> Option<Option<&'a [Value]>>
    ensures value { option_map (option_map (λ names. map text_in_value names.now)) result ≡
        names_if (get_member name.now (table_view table.now)) }
    ensures names { IfSome result (λ list. IfSome list (λ names. ArePublished (map text_in_value names.now))) }
{
    match field(table, name) {
        Some(value) => match value.as_array() {
            Some(items) => names_in(items),
            None => None,
        },
        None => Some(None),
    }
}

// Returns the names of an array of at most 64, as a list that there is.
fn names_in(items: &Array) -> Option<Option<&[Value]>>
    ensures value { option_map (option_map (λ names. map text_in_value names.now)) result ≡
        option_map Some (names_of (array_view items.now)) }
    ensures names { IfSome result (λ list. IfSome list (λ names. ArePublished (map text_in_value names.now))) }
{
    match names_of(items) {
        Some(names) => Some(Some(names)),
        None => None,
    }
}

// Returns the text of a string, and an empty text for any other value.
pub(crate) fn text_of(value: &Value) -> &str
    ensures { result.now ≡ text_in_value value.now }
{
    match value.as_str() {
        Some(text) => text,
        None => "",
    }
}

fn class_of(word: &str) -> Option<Class>
    ensures { result ≡ class_named word.now }
{
    match word {
        "block" => Some(Class::Block),
        "character" => Some(Class::Character),
        "network" => Some(Class::Network),
        "server" => Some(Class::Server),
        _ => None,
    }
}

// Returns the class, if the value is a string that names one.
pub(crate) fn class(value: &Value) -> Option<Class>
    ensures { result ≡ class_in (view value.now) }
{
    match value.as_str() {
        Some(word) => class_of(word),
        None => None,
    }
}

// Returns the unit of a service of the class, if the field is in its range. A server must have none.
pub(crate) fn unit_field(table: &Table, name: &str, class: Class) -> Option<Option<u8>>
    ensures value { result ≡ unit_in class (get_member name.now (table_view table.now)) }
    ensures unit { IfSome result (HasUnit (is_server class)) }
{
    match field(table, name) {
        Some(value) => {
            if class.is_server() {
                return None;
            }
            match number(value, 0, 255) {
                Some(unit) => Some(Some(unit as u8)),
                None => None,
            }
        }
        None => { if class.is_server() { Some(None) } else { None } }
    }
}
