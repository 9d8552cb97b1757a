//! The table of replies: each with its number, its words and its text.
ghost use Rattle.std.specs.Prelude.{◌≡◌};
ghost use Rattle.irc_numerics.specs.Loops.Heads.{line_behind};
ghost use Rattle.irc_numerics.specs.Replies.{table};
ghost use Rattle.irc_numerics.specs.declared.replies.Reply.TheVariants.{ChannelModeIs};

use crate::pieces::Piece::{Bytes, Members, Number, Places};
use crate::replies::{ModeLetters, Reply};
use crate::texts::{channel_or_star, presence, user_mode};
use crate::writing::ReplyHead;
use irc_line::Text;
use irc_names::{ChannelName, Key};

/// The line of a reply.
#[tactic(auto, unfolding(crate::specs::Replies::table))]
pub(crate) fn table_line(head: ReplyHead<'_>, reply: &Reply) -> Text
    ensures { result.items ≡ line_behind head.entry (table reply.now) }
{
    match reply {
        Reply::Welcome { nick, user, host } => head.row(
            1,
            &[],
            Some(&[
                Bytes(b"Welcome to the Internet Relay Network "),
                Bytes(nick.as_bytes()),
                Bytes(b"!"),
                Bytes(user.as_bytes()),
                Bytes(b"@"),
                Bytes(host.as_bytes()),
            ]),
        ),
        Reply::YourHost { server } => head.row(
            2,
            &[],
            Some(&[
                Bytes(b"Your host is "),
                Bytes(server.as_bytes()),
                Bytes(b", running version treeircd-1"),
            ]),
        ),
        Reply::Created { created } => head.row(
            3,
            &[],
            Some(&[Bytes(b"This server was created "), Bytes(created)]),
        ),
        Reply::MyInfo { server } => head.row(
            4,
            &[
                Bytes(server.as_bytes()),
                Bytes(b"treeircd-1"),
                Bytes(b"i"),
                Bytes(b"biklmnopstv"),
            ],
            None,
        ),
        Reply::UserModeIs { invisible } => head.row(221, &[Bytes(user_mode(*invisible))], None),
        Reply::LuserClient { users, servers } => head.row(
            251,
            &[],
            Some(&[
                Bytes(b"There are "),
                Number(*users),
                Bytes(b" users and 0 services on "),
                Number(*servers),
                Bytes(b" servers"),
            ]),
        ),
        Reply::LuserChannels { channels } => head.says(
            254,
            &[Number(*channels)],
            "channels formed",
        ),
        Reply::LuserMe { clients, links } => head.row(
            255,
            &[],
            Some(&[
                Bytes(b"I have "),
                Number(*clients),
                Bytes(b" clients and "),
                Number(*links),
                Bytes(b" servers"),
            ]),
        ),
        Reply::Away { nick, text } => head.row(
            301,
            &[Bytes(nick.as_bytes())],
            Some(&[Bytes(text.as_bytes())]),
        ),
        Reply::UserHost { users } => head.row(302, &[], Some(&[Bytes(users)])),
        Reply::IsOn { nicks } => head.row(303, &[], Some(&[Bytes(nicks)])),
        Reply::UnAway => head.said(305, "You are no longer marked as being away"),
        Reply::NowAway => head.said(306, "You have been marked as being away"),
        Reply::WhoisUser {
            nick,
            user,
            host,
            real,
        } => head.row(
            311,
            &[
                Bytes(nick.as_bytes()),
                Bytes(user.as_bytes()),
                Bytes(host.as_bytes()),
                Bytes(b"*"),
            ],
            Some(&[Bytes(real.as_bytes())]),
        ),
        Reply::WhoisServer { nick, server, info } => head.row(
            312,
            &[Bytes(nick.as_bytes()), Bytes(server.as_bytes())],
            Some(&[Bytes(info)]),
        ),
        Reply::EndOfWho { name } => head.about(315, name, "End of WHO list"),
        Reply::EndOfWhois { nick } => head.about(318, nick, "End of WHOIS list"),
        Reply::WhoisChannels { nick, channels } => head.row(
            319,
            &[Bytes(nick.as_bytes())],
            Some(&[Places(channels)]),
        ),
        Reply::List {
            channel,
            count,
            topic,
        } => head.row(
            322,
            &[Bytes(channel.as_bytes()), Number(*count)],
            Some(&[Bytes(topic)]),
        ),
        Reply::ListEnd => head.said(323, "End of LIST"),
        Reply::ChannelModeIs {
            channel,
            modes,
            key,
            limit,
        } => modes_line(head, channel, modes, key, *limit),
        Reply::NoTopic { channel } => head.on(331, channel, "No topic is set"),
        Reply::Topic { channel, topic } => head.row(
            332,
            &[Bytes(channel.as_bytes())],
            Some(&[Bytes(topic)]),
        ),
        Reply::Inviting { channel, nick } => head.row(
            341,
            &[Bytes(channel.as_bytes()), Bytes(nick.as_bytes())],
            None,
        ),
        Reply::WhoReply {
            channel,
            user,
            host,
            server,
            nick,
            away,
            mark,
            hops,
            real,
        } => head.row(
            352,
            &[
                Bytes(channel_or_star(channel)),
                Bytes(user.as_bytes()),
                Bytes(host.as_bytes()),
                Bytes(server.as_bytes()),
                Bytes(nick.as_bytes()),
                Bytes(presence(*away, mark)),
            ],
            Some(&[Number(*hops as usize), Bytes(b" "), Bytes(real.as_bytes())]),
        ),
        Reply::NamReply {
            visibility,
            channel,
            names,
        } => head.row(
            353,
            &[Bytes(visibility.as_bytes()), Bytes(channel.as_bytes())],
            Some(&[Members(names.as_slice())]),
        ),
        Reply::EndOfNames { name } => head.about(366, name, "End of NAMES list"),
        Reply::BanList { channel, mask } => head.row(
            367,
            &[Bytes(channel.as_bytes()), Bytes(mask.as_bytes())],
            None,
        ),
        Reply::EndOfBanList { channel } => head.on(368, channel, "End of channel ban list"),
        Reply::EndOfWhoWas { name } => head.about(369, name, "End of WHOWAS"),
        Reply::NoSuchNick { name } => head.about(401, name, "No such nick/channel"),
        Reply::NoSuchChannel { name } => head.about(403, name, "No such channel"),
        Reply::CannotSendToChan { channel } => head.on(404, channel, "Cannot send to channel"),
        Reply::TooManyChannels { channel } => head.on(
            405,
            channel,
            "You have joined too many channels",
        ),
        Reply::WasNoSuchNick { name } => head.about(406, name, "There was no such nickname"),
        Reply::TooManyTargets { target } => head.about(407, target, "Too many targets"),
        Reply::NoOrigin => head.said(409, "No origin specified"),
        Reply::NoRecipient { command } => head.row(
            411,
            &[],
            Some(&[Bytes(b"No recipient given ("), Bytes(command), Bytes(b")")]),
        ),
        Reply::NoTextToSend => head.said(412, "No text to send"),
        Reply::UnknownCommand { command } => head.about(421, command, "Unknown command"),
        Reply::NoMotd => head.said(422, "MOTD File is missing"),
        Reply::NoNicknameGiven => head.said(431, "No nickname given"),
        Reply::ErroneousNickname { nick } => head.about(432, nick, "Erroneous nickname"),
        Reply::NicknameInUse { nick } => head.says(
            433,
            &[Bytes(nick.as_bytes())],
            "Nickname is already in use",
        ),
        Reply::UserNotInChannel { nick, channel } => head.says(
            441,
            &[Bytes(nick), Bytes(channel.as_bytes())],
            "They aren't on that channel",
        ),
        Reply::NotOnChannel { channel } => head.on(442, channel, "You're not on that channel"),
        Reply::UserOnChannel { nick, channel } => head.says(
            443,
            &[Bytes(nick.as_bytes()), Bytes(channel.as_bytes())],
            "is already on channel",
        ),
        Reply::NotRegistered => head.said(451, "You have not registered"),
        Reply::NeedMoreParams { command } => head.about(461, command, "Not enough parameters"),
        Reply::AlreadyRegistered => head.said(462, "Unauthorized command (already registered)"),
        Reply::KeySet { channel } => head.on(467, channel, "Channel key already set"),
        Reply::ChannelIsFull { channel } => head.on(471, channel, "Cannot join channel (+l)"),
        Reply::UnknownMode { mode, channel } => head.row(
            472,
            &[Bytes(&[*mode])],
            Some(&[
                Bytes(b"is unknown mode char to me for "),
                Bytes(channel.as_bytes()),
            ]),
        ),
        Reply::InviteOnlyChan { channel } => head.on(473, channel, "Cannot join channel (+i)"),
        Reply::BannedFromChan { channel } => head.on(474, channel, "Cannot join channel (+b)"),
        Reply::BadChannelKey { channel } => head.on(475, channel, "Cannot join channel (+k)"),
        Reply::BanListFull { channel } => head.says(
            478,
            &[Bytes(channel.as_bytes()), Bytes(b"b")],
            "Channel list is full",
        ),
        Reply::ChanOPrivsNeeded { channel } => head.on(482, channel, "You're not channel operator"),
        Reply::UModeUnknownFlag => head.said(501, "Unknown MODE flag"),
        Reply::UsersDontMatch => head.said(502, "Cannot change mode for other users"),
    }
}

/// The line of a channel's modes: behind them its key if there is one, and then its limit.
#[tactic(auto, unfolding(crate::specs::Replies::table))]
fn modes_line<'a>(
    head: ReplyHead<'_>,
    channel: &'a ChannelName,
    modes: &'a ModeLetters,
    key: &'a Option<Key>,
    limit: Option<u16>,
) -> Text
    ensures { result.items ≡ line_behind head.entry
        (table (ChannelModeIs channel.now modes.now key.now limit)) }
{
    let channel = Bytes(channel.as_bytes());
    let modes = Bytes(modes);
    match (key, limit) {
        (None, None) => head.row(324, &[channel, modes], None),
        (Some(key), None) => head.row(324, &[channel, modes, Bytes(key.as_bytes())], None),
        (None, Some(limit)) => head.row(324, &[channel, modes, Number(limit as usize)], None),
        (Some(key), Some(limit)) => {
            let key = Bytes(key.as_bytes());
            head.row(324, &[channel, modes, key, Number(limit as usize)], None)
        }
    }
}
