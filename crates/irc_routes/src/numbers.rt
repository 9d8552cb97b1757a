//! Which of our own numbers stand for servers.
ghost use Rattle.irc_routes.specs.Loops.Numbers.{IsNoted, TellsUsed};

use crate::MAX_SERVERS;
use crate::server_row::ServerRow;

/// For each number, whether it stands for a server.
pub(crate) type Used = [bool; MAX_SERVERS + 1];

/// Which numbers stand for one of the servers.
pub(crate) fn used_by(rows: &[ServerRow]) -> Used
    ensures { TellsUsed rows.now result }
{
    let mut used = [false; MAX_SERVERS + 1];
    for row in rows {
        note(&mut used, row.ours);
    }
    used
}

/// Notes that a number stands for a server.
fn note(used: &mut Used, number: u32)
    ensures { IsNoted number used.old used.new }
{
    let place = number as usize;
    if place < used.len() {
        used[place] = true;
    }
}
