//! What a table has at its keys.
ghost use Rattle.std.specs.Prelude.{◌≡◌, option_map, pos};
ghost use Rattle.std.specs.List.{list_all, list_any};
ghost use Rattle.std.specs.Str.{bytes_eq};
ghost use Rattle.std.specs.BTreeMap.{keys};
ghost use Rattle.toml.specs.Data.{get_member};
ghost use Rattle.toml.specs.View.{view, table_view};
ghost use Rattle.irc_settings.specs.Configuration.{limit_set};
ghost use Rattle.irc_settings.specs.Loops.Finding.{FindsFlag, FindsLimit, FindsOptionalNumber};
ghost use Rattle.irc_settings.specs.Loops.Finding.{FindsOptionalText, FindsRoom, FindsText};
ghost use Rattle.irc_settings.specs.Loops.Finding.{ReadsAsFlag, ReadsAsNumber, ReadsAsRoom};
ghost use Rattle.irc_settings.specs.Loops.Finding.{ReadsAsText};
ghost use Rattle.irc_settings.specs.Loops.Finding.{is_allowed, view_now};

use crate::{LEAST_ROOM, SettingsFault};
use std::alloc::Global;
use toml::{Table, Value};

/// Whether a table has no other keys than these.
pub(crate) fn has_only(table: &Table, names: &[&str]) -> bool
    ensures { result ≡ list_all (is_allowed names.now) (keys table.now) }
{
    table.keys().all(|name| is_among(name.as_str(), names))
}

/// Whether a name is one of these.
fn is_among(name: &str, keys: &[&str]) -> bool
    ensures { result ≡ list_any (λ key. bytes_eq name.now key.now) keys.now }
{
    keys.iter().any(|key| name == *key)
}

/// The value at a key.
pub(crate) fn value_at<'a>(table: &'a Table, key: &str) -> Option<&'a Value>
    ensures { option_map view_now result ≡ get_member key.now (table_view table.now) }
{
    table.get(key)
}

/// The text at a key.
///
/// # Errors
/// Where there is none; where memory runs out.
pub(crate) fn text(alloc: Global, table: &Table, key: &str) -> Result<String, SettingsFault>
    ensures { FindsText key.now (table_view table.now) result }
{
    match value_at(table, key) {
        Some(value) => copied(alloc, value),
        None => Err(SettingsFault::BadConfiguration),
    }
}

/// The text at a key that may be left out.
///
/// # Errors
/// Where something else than a text is there; where memory runs out.
pub(crate) fn optional_text(
    alloc: Global,
    table: &Table,
    key: &str,
) -> Result<Option<String>, SettingsFault>
    ensures { FindsOptionalText key.now (table_view table.now) result }
{
    match value_at(table, key) {
        Some(value) => copied(alloc, value).map(Some),
        None => Ok(None),
    }
}

/// A copy of a value that is a text.
pub(crate) fn copied(alloc: Global, value: &Value) -> Result<String, SettingsFault>
    ensures { ReadsAsText (view value.now) result }
{
    match value.as_str() {
        Some(text) => Ok(String::from_str(alloc, text)?),
        None => Err(SettingsFault::BadConfiguration),
    }
}

/// Whether a table says so at a key: where that is left out, it does not.
///
/// # Errors
/// Where something else than a boolean is there.
pub(crate) fn flag(table: &Table, key: &str) -> Result<bool, SettingsFault>
    ensures { FindsFlag key.now (table_view table.now) result }
{
    match value_at(table, key) {
        Some(value) => flag_in(value),
        None => Ok(false),
    }
}

/// The boolean that a value is.
fn flag_in(value: &Value) -> Result<bool, SettingsFault>
    ensures { ReadsAsFlag (view value.now) result }
{
    match value.as_bool() {
        Some(flag) => Ok(flag),
        None => Err(SettingsFault::BadConfiguration),
    }
}

/// The number of bytes at a key, from [`crate::LEAST_ROOM`] to `most`.
///
/// # Errors
/// Where there is none.
pub(crate) fn room(table: &Table, key: &str, most: usize) -> Result<usize, SettingsFault>
    ensures { FindsRoom key.now most (table_view table.now) result }
{
    match value_at(table, key) {
        Some(value) => room_in(value, most),
        None => Err(SettingsFault::BadConfiguration),
    }
}

/// The number of bytes that a value is.
fn room_in(value: &Value, most: usize) -> Result<usize, SettingsFault>
    ensures { ReadsAsRoom most (view value.now) result }
{
    let Some(number) = value.as_integer() else {
        return Err(SettingsFault::BadConfiguration);
    };
    match usize::try_from(number) {
        Ok(room) if LEAST_ROOM <= room && room <= most => Ok(room),
        _ => Err(SettingsFault::BadConfiguration),
    }
}

/// The number at a key that may be left out, from 1 to `most`.
///
/// # Errors
/// Where something else than such a number is there.
pub(crate) fn optional_number(
    table: &Table,
    key: &str,
    most: u16,
) -> Result<Option<u16>, SettingsFault>
    ensures { FindsOptionalNumber key.now most (table_view table.now) result }
{
    match value_at(table, key) {
        Some(value) => number_in(value, 1, most).map(Some),
        None => Ok(None),
    }
}

/// The limit at a key, of `most` at most: none for 0, and that of `left_out` where it is left out.
///
/// # Errors
/// Where something else than such a number is there.
pub(crate) fn limit(
    table: &Table,
    key: &str,
    most: u16,
    left_out: u16,
) -> Result<Option<u16>, SettingsFault>
    ensures { FindsLimit key.now most left_out (table_view table.now) result }
{
    match value_at(table, key) {
        Some(value) => number_in(value, 0, most).map(limit_of),
        None => Ok(limit_of(left_out)),
    }
}

/// The limit that a number sets: none for 0.
fn limit_of(number: u16) -> Option<u16>
    ensures { option_map pos result ≡ limit_set (pos number) }
{
    if number == 0 { None } else { Some(number) }
}

/// The number that a value is, from `least` to `most`.
fn number_in(value: &Value, least: u16, most: u16) -> Result<u16, SettingsFault>
    ensures { ReadsAsNumber least most (view value.now) result }
{
    let Some(number) = value.as_integer() else {
        return Err(SettingsFault::BadConfiguration);
    };
    match u16::try_from(number) {
        Ok(number) if least <= number && number <= most => Ok(number),
        _ => Err(SettingsFault::BadConfiguration),
    }
}
