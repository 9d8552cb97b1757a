//! How much may wait for somebody before others wait for it.
ghost use Rattle.std.specs.Prelude.{◌≡◌};
ghost use Rattle.irc_turns.specs.Marks.{marks_of};

/// The most that may wait for a link, in bytes, before nobody else is read.
const MOST_OF_LINK_BYTES: usize = 262_144;

/// How much may wait for somebody, in bytes, before others wait for it.
#[derive(Clone, Copy, Drop)]
pub struct Marks {
    /// For a client, before a link by which its lines come is not read for a while.
    pub client: usize,
    /// For a link, before whoever has added to it is not read.
    pub soft: usize,
    /// For a link, before nobody else is read.
    pub hard: usize,
}

impl Marks {
    /// The marks where so many bytes may wait for a client, and so many for a link, in all: what is
    /// left above a mark is for what nobody can be kept from, as what is told of a lost link.
    pub fn of(client_room: usize, link_room: usize) -> Self
        ensures { result ≡ marks_of client_room link_room }
    {
        let hard = (link_room / 4).min(MOST_OF_LINK_BYTES);
        Marks {
            client: client_room / 2,
            soft: hard / 2,
            hard,
        }
    }
}
