//! Who is shown as being away.
ghost use Rattle.std.specs.Prelude.{◌≡◌, option_to_list};
ghost use Rattle.irc_line.specs.MessageViews.{optional_now};
ghost use Rattle.irc_acts.specs.Away.{away_shown, away_told, is_shown_away};

use crate::act::Act;
use irc_names::AwayText;
use irc_numerics::Reply;
use irc_routes::Programs;
use irc_users::User;

/// The text of a user who is away (RFC 2812 section 4.1), which is shown where a server has what
/// programs expect.
pub fn away_shown(programs: Programs, user: &User) -> Option<&AwayText>
    ensures { optional_now result ≡ away_shown programs user.now }
{
    match programs {
        Programs::Off => None,
        Programs::On => user.set.away.as_ref(),
    }
}

/// Whether a user is shown as being away.
pub fn is_shown_away(programs: Programs, user: &User) -> bool
    ensures { result ≡ is_shown_away programs user.now }
{
    away_shown(programs, user).is_some()
}

/// That a user is away, where it is shown: a step that tells it.
pub fn away_told(programs: Programs, user: &User) -> Option<Act>
    ensures { away_told programs user.now ≡ option_to_list result }
{
    let text = away_shown(programs, user)?;
    Some(Act::Answer(Reply::Away {
        nick: user.nick.copy(),
        text: text.copy(),
    }))
}
