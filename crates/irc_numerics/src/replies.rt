//! What a reply says.
ghost use Rattle.std.specs.Prelude.{◌≡◌};
ghost use Rattle.irc_numerics.specs.Replies.{mark_text, visibility_text};
ghost use Rattle.irc_numerics.specs.Blanks.{blank_member, blank_place};

use crate::limits::{MAX_MODE_LETTERS, MAX_WHOIS_CHANNELS};
use crate::name_list::NameList;
use arrayvec::ArrayVec;
use irc_line::Line;
use irc_names::{
    AwayText, BanMask, ChannelName, Host, Key, MAX_CREATED, MAX_INFO, MAX_WORDS, Nick, RealName,
    ServerName, UserName,
};

/// A client's own words, as it gave them.
pub type ClientWords = Line;

/// The topic of a channel.
pub type TopicText = ArrayVec<u8, MAX_WORDS>;

/// What a server says of itself.
pub type InfoText = ArrayVec<u8, MAX_INFO>;

/// When a server was made.
pub type Created = ArrayVec<u8, MAX_CREATED>;

/// The modes of a channel: `+`, and the letters of those that are set.
pub type ModeLetters = ArrayVec<u8, MAX_MODE_LETTERS>;

/// What a member of a channel is there.
#[derive(Clone, Copy, PartialEq, Eq)]
pub enum MemberMark {
    /// A member, and no more.
    Plain,
    /// A member that has a voice in a moderated channel (RFC 2811 section 2.4.2).
    Voiced,
    /// An operator of the channel (RFC 2811 section 2.4.3).
    Operator,
}

impl MemberMark {
    /// What is written before the name of such a member.
    pub(crate) fn as_bytes(&self) -> &[u8]
        ensures { result.now ≡ mark_text self.now }
    {
        match self {
            MemberMark::Plain => b"",
            MemberMark::Voiced => b"+",
            MemberMark::Operator => b"@",
        }
    }
}

/// Who may know of a channel (RFC 2811 section 4.2.6).
#[derive(Clone, Copy, PartialEq, Eq)]
pub enum Visibility {
    /// Everybody.
    Public,
    /// Its members, and others by its name.
    Private,
    /// Its members alone.
    Secret,
}

impl Visibility {
    /// What stands for it in a 353 (RFC 2812 section 5.1).
    pub(crate) fn as_bytes(&self) -> &[u8]
        ensures { result.now ≡ visibility_text self.now }
    {
        match self {
            Visibility::Public => b"=",
            Visibility::Private => b"*",
            Visibility::Secret => b"@",
        }
    }
}

/// A member in the list of a channel's members.
#[derive(Drop)]
pub struct Listed {
    /// What it is on that channel.
    pub mark: MemberMark,
    /// Its nickname.
    pub nick: Nick,
}

/// A blank, such as stands behind the last member in the storage of a list.
impl Default for Listed {
    #[tactic(auto, unfolding(irc_names::specs::Names::is_nick))]
    fn default() -> Self
        ensures { result ≡ blank_member }
    {
        let Some(nick) = Nick::read(b"x") else {
            unreachable!();
        };
        Listed {
            mark: MemberMark::Plain,
            nick,
        }
    }
}

/// A channel in the list of a user's channels.
#[derive(Drop)]
pub struct OnChannel {
    /// What the user is there.
    pub mark: MemberMark,
    /// The name of the channel.
    pub channel: ChannelName,
}

/// A blank, such as stands behind the last channel in the storage of a list.
impl Default for OnChannel {
    #[tactic(auto, unfolding(irc_names::specs::Names::is_channel))]
    fn default() -> Self
        ensures { result ≡ blank_place }
    {
        let Some(channel) = ChannelName::read(b"#") else {
            unreachable!();
        };
        OnChannel {
            mark: MemberMark::Plain,
            channel,
        }
    }
}

/// A numeric reply (RFC 2812 section 5), in the order of the numbers. It owns what it says, so that
/// it outlives changes of what it was decided on.
#[derive(Drop)]
pub enum Reply {
    /// 001, with the user's full name.
    Welcome {
        nick: Nick,
        user: UserName,
        host: Host,
    },
    /// 002.
    YourHost {
        server: ServerName,
    },
    /// 003.
    Created {
        created: Created,
    },
    /// 004, with the modes that there are.
    MyInfo {
        server: ServerName,
    },
    /// 221, a user's own mode.
    UserModeIs {
        invisible: bool,
    },
    /// 251.
    LuserClient {
        users: usize,
        servers: usize,
    },
    /// 254.
    LuserChannels {
        channels: usize,
    },
    /// 255.
    LuserMe {
        clients: usize,
        links: usize,
    },
    /// 301, with what is told of who is away.
    Away {
        nick: Nick,
        text: AwayText,
    },
    /// 302, with the users parted by one space.
    UserHost {
        users: ClientWords,
    },
    /// 303, with the nicknames parted by one space.
    IsOn {
        nicks: ClientWords,
    },
    /// 305.
    UnAway,
    /// 306.
    NowAway,
    /// 311.
    WhoisUser {
        nick: Nick,
        user: UserName,
        host: Host,
        real: RealName,
    },
    /// 312.
    WhoisServer {
        nick: Nick,
        server: ServerName,
        info: InfoText,
    },
    /// 315, with what was asked for.
    EndOfWho {
        name: ClientWords,
    },
    /// 318, with what was asked for.
    EndOfWhois {
        nick: ClientWords,
    },
    /// 319.
    WhoisChannels {
        nick: Nick,
        channels: ArrayVec<OnChannel, MAX_WHOIS_CHANNELS>,
    },
    /// 322, with the count of those members that the client may know of.
    List {
        channel: ChannelName,
        count: usize,
        topic: TopicText,
    },
    /// 323.
    ListEnd,
    /// 324; the key may be a `*` in place of the channel's own.
    ChannelModeIs {
        channel: ChannelName,
        modes: ModeLetters,
        key: Option<Key>,
        limit: Option<u16>,
    },
    /// 331.
    NoTopic {
        channel: ChannelName,
    },
    /// 332.
    Topic {
        channel: ChannelName,
        topic: TopicText,
    },
    /// 341.
    Inviting {
        channel: ChannelName,
        nick: Nick,
    },
    /// 352, with the channel if one was asked for.
    WhoReply {
        channel: Option<ChannelName>,
        user: UserName,
        host: Host,
        server: ServerName,
        nick: Nick,
        away: bool,
        mark: MemberMark,
        hops: u32,
        real: RealName,
    },
    /// 353.
    NamReply {
        visibility: Visibility,
        channel: ChannelName,
        names: NameList,
    },
    /// 366, with what was asked for, or `*`.
    EndOfNames {
        name: ClientWords,
    },
    /// 367.
    BanList {
        channel: ChannelName,
        mask: BanMask,
    },
    /// 368.
    EndOfBanList {
        channel: ChannelName,
    },
    /// 369, with what was asked for.
    EndOfWhoWas {
        name: ClientWords,
    },
    /// 401, with what was given.
    NoSuchNick {
        name: ClientWords,
    },
    /// 403, with what was given.
    NoSuchChannel {
        name: ClientWords,
    },
    /// 404.
    CannotSendToChan {
        channel: ChannelName,
    },
    /// 405.
    TooManyChannels {
        channel: ChannelName,
    },
    /// 406, with what was asked for.
    WasNoSuchNick {
        name: ClientWords,
    },
    /// 407, with the first target that is too many.
    TooManyTargets {
        target: ClientWords,
    },
    /// 409.
    NoOrigin,
    /// 411, with the command in capitals.
    NoRecipient {
        command: ClientWords,
    },
    /// 412.
    NoTextToSend,
    /// 421, with the command as it was given.
    UnknownCommand {
        command: ClientWords,
    },
    /// 422.
    NoMotd,
    /// 431.
    NoNicknameGiven,
    /// 432, with what was given.
    ErroneousNickname {
        nick: ClientWords,
    },
    /// 433, as it was given.
    NicknameInUse {
        nick: Nick,
    },
    /// 441, with what was given.
    UserNotInChannel {
        nick: ClientWords,
        channel: ChannelName,
    },
    /// 442.
    NotOnChannel {
        channel: ChannelName,
    },
    /// 443.
    UserOnChannel {
        nick: Nick,
        channel: ChannelName,
    },
    /// 451.
    NotRegistered,
    /// 461, with the command in capitals.
    NeedMoreParams {
        command: ClientWords,
    },
    /// 462.
    AlreadyRegistered,
    /// 467.
    KeySet {
        channel: ChannelName,
    },
    /// 471.
    ChannelIsFull {
        channel: ChannelName,
    },
    /// 472, with the byte that is no mode.
    UnknownMode {
        mode: u8,
        channel: ChannelName,
    },
    /// 473.
    InviteOnlyChan {
        channel: ChannelName,
    },
    /// 474.
    BannedFromChan {
        channel: ChannelName,
    },
    /// 475.
    BadChannelKey {
        channel: ChannelName,
    },
    /// 478, for the list of bans.
    BanListFull {
        channel: ChannelName,
    },
    /// 482.
    ChanOPrivsNeeded {
        channel: ChannelName,
    },
    /// 501.
    UModeUnknownFlag,
    /// 502.
    UsersDontMatch,
}
