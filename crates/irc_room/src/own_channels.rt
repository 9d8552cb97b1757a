//! The channels of one user.
ghost use Rattle.std.specs.Prelude.{◌≡◌, ◌++◌, map, IfOk, OnOk};
ghost use Rattle.irc_tables.specs.RowViews.{row_entry};
ghost use Rattle.irc_room.specs.Indexes.{channel_named, entries_under};
ghost use Rattle.irc_effects.specs.Readers.{channels_of, rows_now};

use crate::indexed_channels::IndexedChannels;
use crate::tables::Tables;
use irc_channels::Stored;
use irc_tables::Row;
use std::alloc::{AllocError, Global};

impl Tables {
    /// The channels that the user of a nickname is a member of, in folded order of their names.
    ///
    /// # Errors
    /// Where memory runs out.
    pub fn channels_of(
        &self,
        alloc: Global,
        nick: &[u8],
    ) -> Result<Vec<&Row<Stored>, Global>, AllocError>
        ensures { IfOk result (λ found. rows_now found.items ≡ channels_of self.now nick.now) }
    {
        with_names(&self.channels, alloc, self.channels.names_of(nick))
    }
}

/// The channels under some names, in their order.
fn with_names<'a>(
    channels: &'a IndexedChannels,
    alloc: Global,
    names: &[Row<()>],
) -> Result<Vec<&'a Row<Stored>, Global>, AllocError>
    ensures { IfOk result
        (λ found. rows_now found.items ≡ entries_under channels.now (map row_entry names.now)) }
{
    let mut found = Vec::new(alloc);
    for row in names {
        add_named(channels, row.name.as_slice(), &mut found)?;
    }
    Ok(found)
}

/// Appends the channel of a name, if it is there.
fn add_named<'a>(
    channels: &'a IndexedChannels,
    name: &[u8],
    found: &mut Vec<&'a Row<Stored>, Global>,
) -> Result<(), AllocError>
    ensures { OnOk result (rows_now found.new.items ≡ rows_now found.old.items
        ++ channel_named channels.now name.now) }
{
    if let Some(row) = channels.find_row(name) {
        found.push(row)?;
    }
    Ok(())
}
