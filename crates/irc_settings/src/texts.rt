//! Lists of texts.
ghost use Rattle.std.specs.Prelude.{◌≡◌, ◌++◌, ◌∷◌, [], OnOk, map};
ghost use Rattle.toml.specs.View.{view, table_view};
ghost use Rattle.irc_settings.specs.Loops.Finding.{FindsTexts, ReadsAsTexts, ReadsEachText};

use crate::SettingsFault;
use crate::finding::{copied, value_at};
use std::alloc::{AllocError, Global};
use toml::{Table, Value};

/// The texts in the array at a key that may be left out; none then.
///
/// # Errors
/// Where something else than such an array is there; where memory runs out.
pub(crate) fn texts(
    alloc: Global,
    table: &Table,
    key: &str,
) -> Result<Vec<String, Global>, SettingsFault>
    ensures { FindsTexts key.now (table_view table.now) result }
{
    match value_at(table, key) {
        Some(value) => listed_texts(alloc, value),
        None => Ok(Vec::new(alloc)),
    }
}

/// The texts in an array.
fn listed_texts(alloc: Global, value: &Value) -> Result<Vec<String, Global>, SettingsFault>
    ensures { ReadsAsTexts (view value.now) result }
{
    match value.as_array() {
        Some(values) => all_texts(alloc, values),
        None => Err(SettingsFault::BadConfiguration),
    }
}

/// Each of these values, which have to be texts.
fn all_texts(alloc: Global, values: &[Value]) -> Result<Vec<String, Global>, SettingsFault>
    ensures { ReadsEachText (map view values.now) result }
{
    let mut found = Vec::new(alloc);
    for value in values {
        add(&mut found, copied(alloc, value)?)?;
    }
    Ok(found)
}

/// Appends a text.
fn add(found: &mut Vec<String, Global>, text: String) -> Result<(), AllocError>
    ensures { OnOk result (found.new.items ≡ found.old.items ++ text ∷ []) }
{
    found.push(text)?;
    Ok(())
}
