//! The line of a change of modes. As many changes as there may be, it takes no memory.
ghost use Rattle.std.specs.Prelude.{◌≡◌};
ghost use Rattle.irc_line.specs.Messages.{text};
ghost use Rattle.irc_link_writer.specs.Loops.Families.{written_modes};

use crate::cutting::push_head;
use irc_line::Text;
use irc_modes::ModeChange;
use irc_room::Room;

/// The line of changes of a channel's modes (RFC 2812 section 3.2.3).
pub(crate) fn mode_line(room: &Room, name: &[u8], channel: &[u8], changes: &[ModeChange]) -> Text
    ensures { result.items ≡ text (written_modes room.now.room name.now channel.now changes.now) }
{
    let mut line = Text::new();
    push_head(&mut line, name, b" MODE ", channel);
    room.push_changes(&mut line, changes);
    let _ = line.try_extend_from_slice(b"\r\n");
    line
}
