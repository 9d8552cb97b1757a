//! How many lines of a client are taken.
ghost use Rattle.std.specs.Prelude.{◌≡◌};
ghost use Rattle.toml.specs.View.{table_view};
ghost use Rattle.irc_settings.specs.Keys.{bursts_are_paced};
ghost use Rattle.irc_settings.specs.Loops.Finding.{FindsPace, paced};

use crate::finding::{optional_number, value_at};
use crate::{BURST_LINES, LinesPace, MOST_LINES, SettingsFault};
use toml::Table;

/// How many lines a table lets through, if it says so.
///
/// # Errors
/// Where something else than such numbers is there.
pub(crate) fn pace(table: &Table) -> Result<Option<LinesPace>, SettingsFault>
    ensures { FindsPace (table_view table.now) result }
{
    let per_second = optional_number(table, "lines_per_second", MOST_LINES)?;
    let burst = optional_number(table, "burst_lines", MOST_LINES)?;
    Ok(paced(per_second, burst))
}

/// The pace of so many lines in a second and at once, if there are so many in a second.
fn paced(per_second: Option<u16>, burst: Option<u16>) -> Option<LinesPace>
    ensures { result ≡ paced per_second burst }
{
    match per_second {
        Some(per_second) => Some(LinesPace {
            per_second,
            burst: burst.unwrap_or(BURST_LINES),
        }),
        None => None,
    }
}

/// Whether a number of lines at once goes with one of lines in a second.
pub(crate) fn bursts_are_paced(table: &Table) -> bool
    ensures { result ≡ bursts_are_paced (table_view table.now) }
{
    value_at(table, "burst_lines").is_none() || value_at(table, "lines_per_second").is_some()
}
