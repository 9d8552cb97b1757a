//! The words of each reply.
use crate::script::{channel, nick, row_of, server};
use arrayvec::ArrayVec;
use irc_line::body;
use irc_names::{
    AwayText, BanMask, ChannelName, Host, Key, Nick, RealName, ServerName, UserName, cut_copy,
};
use irc_numerics::{
    ClientWords, Listed, MemberMark, NameList, OnChannel, Reply, Visibility, reply_line,
};
use std::alloc::{AllocError, Global};
use std::process::Abort;

/// The lines of the server a.net to al, or to a client that has no nickname yet. Other users and
/// what they gave are `bo`, a channel is `#c`, a count is 2.
const LINES: &str = "\
:a.net 001 al :Welcome to the Internet Relay Network bo!u@h
:a.net 002 al :Your host is a.net, running version treeircd-1
:a.net 003 al :This server was created 2024-01-01
:a.net 004 al a.net treeircd-1 i biklmnopstv
:a.net 221 al +i
:a.net 251 al :There are 2 users and 0 services on 1 servers
:a.net 254 al 2 :channels formed
:a.net 255 al :I have 2 clients and 0 servers
:a.net 301 al bo :at lunch
:a.net 302 al :bo=+u@h
:a.net 303 al :bo
:a.net 305 al :You are no longer marked as being away
:a.net 306 al :You have been marked as being away
:a.net 311 al bo u h * :Bo Li
:a.net 312 al bo a.net :Test server
:a.net 315 al bo :End of WHO list
:a.net 318 al bo :End of WHOIS list
:a.net 322 al #c 2 :a topic
:a.net 323 al :End of LIST
:a.net 331 al #c :No topic is set
:a.net 332 al #c :a topic
:a.net 341 al #c bo
:a.net 366 al bo :End of NAMES list
:a.net 367 al #c a!*@*
:a.net 368 al #c :End of channel ban list
:a.net 369 al bo :End of WHOWAS
:a.net 401 al bo :No such nick/channel
:a.net 403 al bo :No such channel
:a.net 404 al #c :Cannot send to channel
:a.net 405 al #c :You have joined too many channels
:a.net 406 al bo :There was no such nickname
:a.net 407 al bo :Too many targets
:a.net 409 al :No origin specified
:a.net 411 al :No recipient given (bo)
:a.net 412 al :No text to send
:a.net 421 al bo :Unknown command
:a.net 422 al :MOTD File is missing
:a.net 431 * :No nickname given
:a.net 432 * bo :Erroneous nickname
:a.net 433 * bo :Nickname is already in use
:a.net 441 al bo #c :They aren't on that channel
:a.net 442 al #c :You're not on that channel
:a.net 443 al bo #c :is already on channel
:a.net 451 * :You have not registered
:a.net 461 al bo :Not enough parameters
:a.net 462 al :Unauthorized command (already registered)
:a.net 467 al #c :Channel key already set
:a.net 471 al #c :Cannot join channel (+l)
:a.net 472 al x :is unknown mode char to me for #c
:a.net 473 al #c :Cannot join channel (+i)
:a.net 474 al #c :Cannot join channel (+b)
:a.net 475 al #c :Cannot join channel (+k)
:a.net 478 al #c b :Channel list is full
:a.net 482 al #c :You're not channel operator
:a.net 501 al :Unknown MODE flag
:a.net 502 al :Cannot change mode for other users";

/// What the replies here speak of.
#[derive(Drop)]
struct ReplyNames {
    nick: Nick,
    channel: ChannelName,
    host: Host,
    server: ServerName,
    mask: BanMask,
}

fn host(rt: &impl Abort) -> Host {
    Host::read(b"h").expect(rt, "a host")
}

fn mask(rt: &impl Abort) -> BanMask {
    BanMask::read(b"a!*@*").expect(rt, "a ban's mask")
}

/// What they speak of, with these names.
fn given(rt: &impl Abort, name: &str, place: &str, by: &str) -> ReplyNames {
    ReplyNames {
        nick: nick(rt, name),
        channel: channel(rt, place),
        host: host(rt),
        server: server(rt, by),
        mask: mask(rt),
    }
}

/// The reply of a number.
fn reply_of(given: &ReplyNames, number: u16) -> Option<Reply> {
    match number {
        0..300 => on_the_network(given, number),
        300..320 => on_a_user(given, number),
        320..400 => on_a_channel(given, number),
        _ => refusal(given, number),
    }
}

fn on_the_network(given: &ReplyNames, number: u16) -> Option<Reply> {
    match number {
        1 => Some(Reply::Welcome {
            nick: given.nick.copy(),
            user: UserName::clean(b"u"),
            host: given.host.copy(),
        }),
        2 => Some(Reply::YourHost {
            server: given.server.copy(),
        }),
        3 => Some(Reply::Created {
            created: cut_copy(b"2024-01-01"),
        }),
        4 => Some(Reply::MyInfo {
            server: given.server.copy(),
        }),
        221 => Some(Reply::UserModeIs { invisible: true }),
        251 => Some(Reply::LuserClient {
            users: 2,
            servers: 1,
        }),
        254 => Some(Reply::LuserChannels { channels: 2 }),
        255 => Some(Reply::LuserMe {
            clients: 2,
            links: 0,
        }),
        _ => None,
    }
}

fn on_a_user(given: &ReplyNames, number: u16) -> Option<Reply> {
    match number {
        301 => Some(Reply::Away {
            nick: given.nick.copy(),
            text: AwayText::read(b"at lunch")?,
        }),
        302 => Some(Reply::UserHost {
            users: cut_copy(b"bo=+u@h"),
        }),
        303 => Some(Reply::IsOn {
            nicks: cut_copy(b"bo"),
        }),
        305 => Some(Reply::UnAway),
        306 => Some(Reply::NowAway),
        311 => Some(Reply::WhoisUser {
            nick: given.nick.copy(),
            user: UserName::clean(b"u"),
            host: given.host.copy(),
            real: RealName::cut(b"Bo Li"),
        }),
        312 => Some(Reply::WhoisServer {
            nick: given.nick.copy(),
            server: given.server.copy(),
            info: cut_copy(b"Test server"),
        }),
        315 => Some(Reply::EndOfWho {
            name: cut_copy(b"bo"),
        }),
        318 => Some(Reply::EndOfWhois {
            nick: cut_copy(b"bo"),
        }),
        _ => None,
    }
}

fn on_a_channel(given: &ReplyNames, number: u16) -> Option<Reply> {
    match number {
        322 => Some(Reply::List {
            channel: given.channel.copy(),
            count: 2,
            topic: cut_copy(b"a topic"),
        }),
        323 => Some(Reply::ListEnd),
        331 => Some(Reply::NoTopic {
            channel: given.channel.copy(),
        }),
        332 => Some(Reply::Topic {
            channel: given.channel.copy(),
            topic: cut_copy(b"a topic"),
        }),
        341 => Some(Reply::Inviting {
            channel: given.channel.copy(),
            nick: given.nick.copy(),
        }),
        366 => Some(Reply::EndOfNames {
            name: cut_copy(b"bo"),
        }),
        367 => Some(Reply::BanList {
            channel: given.channel.copy(),
            mask: given.mask.copy(),
        }),
        368 => Some(Reply::EndOfBanList {
            channel: given.channel.copy(),
        }),
        369 => Some(Reply::EndOfWhoWas {
            name: cut_copy(b"bo"),
        }),
        _ => None,
    }
}

fn refusal(given: &ReplyNames, number: u16) -> Option<Reply> {
    match number {
        433 => Some(Reply::NicknameInUse {
            nick: given.nick.copy(),
        }),
        441 => Some(Reply::UserNotInChannel {
            nick: cut_copy(b"bo"),
            channel: given.channel.copy(),
        }),
        443 => Some(Reply::UserOnChannel {
            nick: given.nick.copy(),
            channel: given.channel.copy(),
        }),
        472 => Some(Reply::UnknownMode {
            mode: b'x',
            channel: given.channel.copy(),
        }),
        _ => refusal_on(number, given.channel.copy()),
    }
}

/// A refusal of which only the channel varies.
fn refusal_on(number: u16, channel: ChannelName) -> Option<Reply> {
    match number {
        404 => Some(Reply::CannotSendToChan { channel }),
        405 => Some(Reply::TooManyChannels { channel }),
        442 => Some(Reply::NotOnChannel { channel }),
        467 => Some(Reply::KeySet { channel }),
        471 => Some(Reply::ChannelIsFull { channel }),
        473 => Some(Reply::InviteOnlyChan { channel }),
        474 => Some(Reply::BannedFromChan { channel }),
        475 => Some(Reply::BadChannelKey { channel }),
        478 => Some(Reply::BanListFull { channel }),
        482 => Some(Reply::ChanOPrivsNeeded { channel }),
        _ => refusal_of(number, cut_copy(b"bo")),
    }
}

/// A refusal of which only a client's own word varies.
fn refusal_of(number: u16, word: ClientWords) -> Option<Reply> {
    match number {
        401 => Some(Reply::NoSuchNick { name: word }),
        403 => Some(Reply::NoSuchChannel { name: word }),
        406 => Some(Reply::WasNoSuchNick { name: word }),
        407 => Some(Reply::TooManyTargets { target: word }),
        411 => Some(Reply::NoRecipient { command: word }),
        421 => Some(Reply::UnknownCommand { command: word }),
        432 => Some(Reply::ErroneousNickname { nick: word }),
        461 => Some(Reply::NeedMoreParams { command: word }),
        _ => plain_refusal(number),
    }
}

/// A refusal that is always the same.
fn plain_refusal(number: u16) -> Option<Reply> {
    match number {
        409 => Some(Reply::NoOrigin),
        412 => Some(Reply::NoTextToSend),
        422 => Some(Reply::NoMotd),
        431 => Some(Reply::NoNicknameGiven),
        451 => Some(Reply::NotRegistered),
        462 => Some(Reply::AlreadyRegistered),
        501 => Some(Reply::UModeUnknownFlag),
        502 => Some(Reply::UsersDontMatch),
        _ => None,
    }
}

/// Whether a reply to al, or to a client without a nickname, is written as this line.
fn says(given: &ReplyNames, client: &str, reply: &Reply, line: &str) -> bool {
    let nick = Nick::read(client.as_bytes());
    body(&reply_line(&given.server, nick.as_ref(), reply)) == line.as_bytes()
}

/// Whether the reply that a line numbers is written as that line.
fn is_said(given: &ReplyNames, line: &str) -> bool {
    let row = row_of(line);
    match reply_of(given, row.first.parse().unwrap_or(0)) {
        Some(reply) => says(given, row.second, &reply, line),
        None => false,
    }
}

fn are_said(given: &ReplyNames, lines: &str) -> bool {
    let mut all = true;
    for line in lines.lines() {
        all &= is_said(given, line);
    }
    all
}

/// Whether a channel's modes are written as this line.
fn shows_modes(
    given: &ReplyNames,
    modes: &[u8],
    key: Option<&[u8]>,
    limit: Option<u16>,
    line: &str,
) -> bool {
    let key = match key {
        Some(bytes) => Key::read(bytes),
        None => None,
    };
    let reply = Reply::ChannelModeIs {
        channel: given.channel.copy(),
        modes: cut_copy(modes),
        key,
        limit,
    };
    says(given, "al", &reply, line)
}

static MODES: [(&[u8], Option<&[u8]>, Option<u16>, &str); 4] = [
    (b"+", None, None, ":a.net 324 al #c +"),
    (b"+ntl", None, Some(5), ":a.net 324 al #c +ntl 5"),
    (b"+nsk", Some(b"bb"), None, ":a.net 324 al #c +nsk bb"),
    (
        b"+kl",
        Some(b"*"),
        Some(65535),
        ":a.net 324 al #c +kl * 65535",
    ),
];

fn modes_of_channels_are_written(given: &ReplyNames) -> bool {
    let mut all = true;
    for (modes, key, limit, line) in &MODES {
        all &= shows_modes(given, modes, *key, *limit, line);
    }
    all
}

/// What bo is on a channel, who may know of that, and how it stands in the answers to WHOIS, WHO,
/// WHO while it is away, and NAMES.
type MarksRow = (
    MemberMark,
    Visibility,
    &'static str,
    &'static str,
    &'static str,
    &'static str,
);

static MARKS: [MarksRow; 3] = [
    (
        MemberMark::Operator,
        Visibility::Public,
        ":a.net 319 al bo :@#c @#c",
        ":a.net 352 al #c u h a.net bo H@ :0 Bo Li",
        ":a.net 352 al #c u h a.net bo G@ :0 Bo Li",
        ":a.net 353 al = #c :@bo @bo",
    ),
    (
        MemberMark::Voiced,
        Visibility::Private,
        ":a.net 319 al bo :+#c +#c",
        ":a.net 352 al #c u h a.net bo H+ :0 Bo Li",
        ":a.net 352 al #c u h a.net bo G+ :0 Bo Li",
        ":a.net 353 al * #c :+bo +bo",
    ),
    (
        MemberMark::Plain,
        Visibility::Secret,
        ":a.net 319 al bo :#c #c",
        ":a.net 352 al #c u h a.net bo H :0 Bo Li",
        ":a.net 352 al #c u h a.net bo G :0 Bo Li",
        ":a.net 353 al @ #c :bo bo",
    ),
];

/// Whether bo and two channels of it are written as this line.
fn shows_channels(given: &ReplyNames, mark: MemberMark, line: &str) -> bool {
    let mut channels = ArrayVec::new();
    for _ in 0..2 {
        let _ = channels.try_push(OnChannel {
            mark,
            channel: given.channel.copy(),
        });
    }
    let nick = given.nick.copy();
    says(given, "al", &Reply::WhoisChannels { nick, channels }, line)
}

/// So many members of a channel, who all have this nickname and mark.
fn members(
    alloc: Global,
    mark: MemberMark,
    nick: &Nick,
    count: usize,
) -> Result<NameList, AllocError> {
    let mut names = ArrayVec::new();
    for _ in 0..count {
        let _ = names.try_push(Listed {
            mark,
            nick: nick.copy(),
        });
    }
    NameList::new(alloc, names)
}

/// Whether a channel and these members are written to a client as this line.
fn shows_names(
    given: &ReplyNames,
    client: &str,
    visibility: Visibility,
    members: Result<NameList, AllocError>,
    line: &str,
) -> bool {
    match members {
        Ok(names) => {
            let channel = given.channel.copy();
            let reply = Reply::NamReply {
                visibility,
                channel,
                names,
            };
            says(given, client, &reply, line)
        }
        Err(_) => false,
    }
}

/// Whether bo, perhaps on a channel, and away or not, is written as this line.
fn shows_user(
    given: &ReplyNames,
    channel: Option<ChannelName>,
    away: bool,
    mark: MemberMark,
    line: &str,
) -> bool {
    let reply = Reply::WhoReply {
        channel,
        user: UserName::clean(b"u"),
        host: given.host.copy(),
        server: given.server.copy(),
        nick: given.nick.copy(),
        away,
        mark,
        hops: 0,
        real: RealName::cut(b"Bo Li"),
    };
    says(given, "al", &reply, line)
}

/// Whether the marks of a row stand in each of the three answers.
fn is_marked(alloc: Global, given: &ReplyNames, row: &MarksRow) -> bool {
    let (mark, visibility, channels, user, away_user, names) = row;
    shows_channels(given, *mark, channels)
        & shows_user(given, Some(given.channel.copy()), false, *mark, user)
        & shows_user(given, Some(given.channel.copy()), true, *mark, away_user)
        & shows_names(
            given,
            "al",
            *visibility,
            members(alloc, *mark, &given.nick, 2),
            names,
        )
}

fn marks_are_written(alloc: Global, given: &ReplyNames) -> bool {
    let mut all = true;
    for row in &MARKS {
        all &= is_marked(alloc, given, row);
    }
    all
}

/// Modes of a user and of channels, and who is where.
fn are_written(alloc: Global, given: &ReplyNames) -> bool {
    modes_of_channels_are_written(given)
        & marks_are_written(alloc, given)
        & says(
            given,
            "al",
            &Reply::UserModeIs { invisible: false },
            ":a.net 221 al +",
        )
        & shows_user(
            given,
            None,
            false,
            MemberMark::Plain,
            ":a.net 352 al * u h a.net bo H :0 Bo Li",
        )
}

fn all_are_written(rt: &impl Abort, alloc: Global) -> bool {
    let given = given(rt, "bo", "#c", "a.net");
    are_said(&given, LINES) & are_written(alloc, &given)
}

#[test]
fn each_reply_has_its_words(rt: HostRuntime) {
    assert!(rt; all_are_written(&rt, rt.alloc()));
}

/// A nickname, a channel's name and a server's, each as long as one may be.
static LONG_NICK: &str = "nnnnnnnnnnnnnnnnnnnnnnnnnnnnnn";

static LONG_CHANNEL: &str = "#ccccccccccccccccccccccccccccccccccccccccccccccccc";

static LONG_SERVER: &str = "sssssssssssssssssssssssssssssssssssssssssssssssssssssssssss.net";

/// The longest 353: ten members with the longest nicknames, written whole.
static LONGEST: &str = "\
:sssssssssssssssssssssssssssssssssssssssssssssssssssssssssss.net 353 \
    nnnnnnnnnnnnnnnnnnnnnnnnnnnnnn = #ccccccccccccccccccccccccccccccccccccccccccccccccc :\
    @nnnnnnnnnnnnnnnnnnnnnnnnnnnnnn @nnnnnnnnnnnnnnnnnnnnnnnnnnnnnn \
    @nnnnnnnnnnnnnnnnnnnnnnnnnnnnnn @nnnnnnnnnnnnnnnnnnnnnnnnnnnnnn \
    @nnnnnnnnnnnnnnnnnnnnnnnnnnnnnn @nnnnnnnnnnnnnnnnnnnnnnnnnnnnnn \
    @nnnnnnnnnnnnnnnnnnnnnnnnnnnnnn @nnnnnnnnnnnnnnnnnnnnnnnnnnnnnn \
    @nnnnnnnnnnnnnnnnnnnnnnnnnnnnnn @nnnnnnnnnnnnnnnnnnnnnnnnnnnnnn";

fn longest_is_whole(rt: &impl Abort, alloc: Global) -> bool {
    let given = given(rt, LONG_NICK, LONG_CHANNEL, LONG_SERVER);
    let members = members(alloc, MemberMark::Operator, &given.nick, 10);
    shows_names(&given, LONG_NICK, Visibility::Public, members, LONGEST)
}

#[test]
fn the_longest_names_are_whole(rt: HostRuntime) {
    assert!(rt; longest_is_whole(&rt, rt.alloc()));
}
