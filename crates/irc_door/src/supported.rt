//! 005: what a program is to know of this server (a numeric that RFC 2812 does not have; programs
//! read it as the draft "IRC RPL_ISUPPORT Numeric Definition" says).
ghost use Rattle.std.specs.Prelude.{◌≡◌, ◌++◌, ◌≤◌, codes, decimal};
ghost use Rattle.arrayvec.specs.ArrayVec.{array_vec_len};
ghost use Rattle.irc_line.specs.Bytes.{cut};
ghost use Rattle.irc_line.specs.Messages.{text};
ghost use Rattle.irc_door.specs.Supported.{supported_parts};

use crate::turning::reply;
use irc_commands::{MAX_JOINED, MAX_TARGETS};
use irc_line::limits::MAX_LINE;
use irc_line::{Text, push_cut};
use irc_modes::{MAX_BANS, MAX_MODE_PARAMETERS};
use irc_names::{MAX_CHANNEL, MAX_NICK, MAX_WORDS};
use itoa::Buffer;

/// What is supported, in a line of a server to a client of this nickname, with its CR LF.
pub(crate) fn supported_text<'x>(server: &'x [u8], nick: &'x [u8]) -> Text
    ensures { result.items ≡ text (supported_parts server.now nick.now) }
{
    supported_by(server, nick, &limits())
}

/// The words that tell of limits.
#[derive(Drop)]
struct LimitWords {
    modes: Text,
    nick: Text,
    channel: Text,
    topic: Text,
    kick: Text,
    away: Text,
    bans: Text,
    joined: Text,
    targets: Text,
}

/// The limits where they stand, as words.
fn limits() -> LimitWords
    ensures modes { result.modes.items ≡ codes "MODES=3" }
    ensures nick { result.nick.items ≡ codes "NICKLEN=30" }
    ensures channel { result.channel.items ≡ codes "CHANNELLEN=50" }
    ensures topic { result.topic.items ≡ codes "TOPICLEN=160" }
    ensures kick { result.kick.items ≡ codes "KICKLEN=160" }
    ensures away { result.away.items ≡ codes "AWAYLEN=160" }
    ensures bans { result.bans.items ≡ codes "MAXLIST=b:30" }
    ensures joined { result.joined.items ≡ codes "CHANLIMIT=#:10" }
    ensures targets { result.targets.items
        ≡ codes "TARGMAX=JOIN:,PART:,KICK:,LIST:,WHOIS:,PRIVMSG:4,NOTICE:4" }
{
    LimitWords {
        modes: limit(b"MODES=", MAX_MODE_PARAMETERS),
        nick: limit(b"NICKLEN=", MAX_NICK),
        channel: limit(b"CHANNELLEN=", MAX_CHANNEL),
        topic: limit(b"TOPICLEN=", MAX_WORDS),
        kick: limit(b"KICKLEN=", MAX_WORDS),
        away: limit(b"AWAYLEN=", MAX_WORDS),
        bans: limit(b"MAXLIST=b:", MAX_BANS),
        joined: limit(b"CHANLIMIT=#:", MAX_JOINED),
        targets: targets(MAX_TARGETS),
    }
}

/// A limit by its name.
fn limit(name: &[u8], value: usize) -> Text
    ensures word { result.items ≡ cut (cut name.now ++ decimal value) }
    ensures fits { array_vec_len result ≤ MAX_LINE }
{
    let mut word = Text::new();
    push_cut(&mut word, name);
    push_cut(&mut word, Buffer::new().format(value).as_bytes());
    word
}

/// How many targets one line may have: as many as it has room for, but of a text so many.
fn targets(value: usize) -> Text
    ensures { result.items ≡ cut (cut (cut (cut (codes
        "TARGMAX=JOIN:,PART:,KICK:,LIST:,WHOIS:,PRIVMSG:") ++ decimal value) ++ codes ",NOTICE:")
        ++ decimal value) }
{
    let mut word = limit(b"TARGMAX=JOIN:,PART:,KICK:,LIST:,WHOIS:,PRIVMSG:", value);
    push_cut(&mut word, b",NOTICE:");
    push_cut(&mut word, Buffer::new().format(value).as_bytes());
    word
}

/// All words, in order.
fn supported_by<'x>(server: &'x [u8], nick: &'x [u8], limits: &'x LimitWords) -> Text
    requires modes { limits.now.modes.items ≡ codes "MODES=3" }
    requires nick { limits.now.nick.items ≡ codes "NICKLEN=30" }
    requires channel { limits.now.channel.items ≡ codes "CHANNELLEN=50" }
    requires topic { limits.now.topic.items ≡ codes "TOPICLEN=160" }
    requires kick { limits.now.kick.items ≡ codes "KICKLEN=160" }
    requires away { limits.now.away.items ≡ codes "AWAYLEN=160" }
    requires bans { limits.now.bans.items ≡ codes "MAXLIST=b:30" }
    requires joined { limits.now.joined.items ≡ codes "CHANLIMIT=#:10" }
    requires targets { limits.now.targets.items
        ≡ codes "TARGMAX=JOIN:,PART:,KICK:,LIST:,WHOIS:,PRIVMSG:4,NOTICE:4" }
    ensures { result.items ≡ text (supported_parts server.now nick.now) }
{
    reply(
        server,
        b"005",
        &[
            nick,
            b"CASEMAPPING=rfc1459",
            b"CHANTYPES=#",
            b"PREFIX=(ov)@+",
            b"CHANMODES=b,k,l,imnpst",
            limits.modes.as_slice(),
            limits.nick.as_slice(),
            limits.channel.as_slice(),
            limits.topic.as_slice(),
            limits.kick.as_slice(),
            limits.away.as_slice(),
            limits.bans.as_slice(),
            limits.joined.as_slice(),
            limits.targets.as_slice(),
        ],
        Some(b"are supported by this server"),
    )
}
