//! What a server says of itself.
ghost use Rattle.std.specs.Prelude.{◌≡◌, ◌≤◌, length};
ghost use Rattle.irc_names.specs.Limits.{max_created};
ghost use Rattle.irc_routes.specs.About.{about_of, serves, IsAbout};

use crate::info::Info;
use crate::own::Own;
use crate::programs::Programs;
use arrayvec::ArrayVec;
use irc_names::{MAX_CREATED, copied};
use std::marker::Model;

/// What a server says of itself beside its name, and what it has beside the profile.
#[derive(Drop)]
pub(crate) struct About {
    info: Info,
    created: ArrayVec<u8, MAX_CREATED>,
    programs: Programs,
    tells_away: bool,
}

/// In a clause its texts are their bytes.
impl Model for About {
    ghost use Rattle.irc_routes.specs.About.{About, about_code};

    ghost Value = { About };

    ghost coded = { about_code };

    ghost view = { λ a. record {
      info = a.info;
      created = a.created.items;
      programs = a.programs;
      tells_away = a.tells_away;
    } };
}

impl About {
    /// What a server says that is configured so.
    pub(crate) fn new(own: &Own) -> Self
        requires { IsAbout (about_of own.now) }
        ensures { result ≡ about_of own.now }
    {
        let Some(info) = Info::read(&own.info) else {
            unreachable!();
        };
        About {
            info,
            created: copied(&own.created),
            programs: Programs::Off,
            tells_away: false,
        }
    }

    /// The same of a server whose links tell who is away.
    pub(crate) fn serving(mut self, programs: Programs) -> Self
        ensures { result ≡ serves programs self }
    {
        self.programs = programs;
        self.tells_away = true;
        self
    }

    /// Whether its clients have what programs expect.
    pub(crate) fn programs(&self) -> Programs
        ensures { result ≡ self.now.programs }
    {
        self.programs
    }

    /// Whether its links tell who is away.
    pub(crate) fn tells_away(&self) -> bool
        ensures { result ≡ self.now.tells_away }
    {
        self.tells_away
    }

    /// How it describes itself.
    pub(crate) fn info(&self) -> &Info
        ensures { result.now ≡ self.now.info }
    {
        &self.info
    }

    /// When it was created.
    pub(crate) fn created(&self) -> &[u8]
        ensures text { result.now ≡ self.now.created }
        ensures fits { length result.now ≤ max_created }
    {
        &self.created
    }
}
