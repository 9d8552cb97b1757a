//! What holds of rooms that become one, and of one that comes apart. Each law is a function that
//! does nothing, and its contract is the law: the check proves it, and a crate above may cite it.
ghost use Rattle.irc_merge.specs.Agreeing.{AgreeTells};
ghost use Rattle.irc_merge.specs.AsideInvitations.{AgreeLooksAtNoInvitation, AlikeDoAlike};
ghost use Rattle.irc_merge.specs.AsideInvitations.{AlikeReadAlike, BurstTellsNoInvitation};
ghost use Rattle.irc_merge.specs.AsideInvitations.{HomeFollowsDeed};
ghost use Rattle.irc_merge.specs.CanBeDone.{LinesCanBeDone};
ghost use Rattle.irc_merge.specs.Laws.{
  BurstReadIsMerge,
  HomesOneByOne,
  MembersAtOnce,
  MergeAssociates,
  MergeHasNothingNew,
  MergeIsEven,
  MergeIsWellFormed,
  OthersStay,
  ShownIsMergeShown,
  SideIsWellFormed,
  SideReadIsMerge,
  SplitHasNothingNew,
  SplitIsWellFormed,
  SquitsSplit,
  WholeSide,
};
ghost use Rattle.irc_merge.specs.LimitLaws.{MergeIsWithinLimits, SplitIsWithinLimits};
ghost use Rattle.irc_merge.specs.LimitLaws.{WithinLimitsIsTold};
ghost use Rattle.irc_merge.specs.OwnInvitations.{ServerReadsMerge, ServerShowsMerge};
ghost use Rattle.irc_merge.specs.Rejoined.{AgreedShowComers, RejoinGivesAllBack, RejoinGivesBack};
ghost use Rattle.irc_merge.specs.Rejoined.{RejoinShowsComers, RejoinShowsOnlyComers, SidesAgree};
ghost use Rattle.irc_merge.specs.Rejoined.{SidesShareNoNickname};
ghost use Rattle.irc_merge.specs.StayingMembers.{MembersStay};

/// The room that two halves of a network become is the same whichever is named first.
pub fn merge_is_even()
    ensures { MergeIsEven }
{}

/// Of three sides it makes no difference which two are linked first, where no nickname is on two of
/// them.
pub fn merge_associates()
    ensures { MergeAssociates }
{}

/// Where both halves have the same of each channel but for who is in it, a link shows who quits and
/// who comes, and neither modes nor topics.
pub fn agreed_show_comers()
    ensures { AgreedShowComers }
{}

/// A lost link leaves two sides that have the same of each channel. So where it is made again, and
/// nothing was changed meanwhile, each user sees who comes and nothing more: nobody quits, since
/// nobody is on both sides.
pub fn rejoin_shows_comers()
    ensures agree { SidesAgree }
    ensures comers { RejoinShowsComers }
    ensures only { RejoinShowsOnlyComers }
{}

/// The two sides that a lost link leaves of a room have no nickname in common.
pub fn sides_share_no_nickname()
    ensures { SidesShareNoNickname }
{}

/// A link that is lost and made again gives the room back, where nothing was changed meanwhile: its
/// users, channels, members with their flags, modes, bans and topics are what they were. Of
/// invitations those ended whose side had no member of the channel; where none ended, the room is
/// what it was.
pub fn rejoin_gives_back()
    ensures but_ended { RejoinGivesBack }
    ensures whole { RejoinGivesAllBack }
{}

/// Two well-formed rooms become a well-formed one.
pub fn merge_is_well_formed()
    ensures { MergeIsWellFormed }
{}

/// What a split leaves of a well-formed room is well formed.
pub fn split_is_well_formed()
    ensures { SplitIsWellFormed }
{}

/// The users of one server are the same after another server was lost.
pub fn others_stay()
    ensures { OthersStay }
{}

/// And they are members of the same channels, with the same flags.
pub fn members_stay()
    ensures { MembersStay }
{}

/// Servers that are lost one by one leave just what the split leaves that loses all of them.
pub fn homes_one_by_one()
    ensures { HomesOneByOne }
{}

/// The SQUITs of the lost servers leave what the split leaves, and show to each user what it shows
/// (RFC 2813 section 4.1.6).
pub fn squits_split()
    ensures { SquitsSplit }
{}

/// A burst that is read makes a room just what both halves become: who clashes is gone, everybody
/// else is there, and so are all channels and members, and each channel's spelling, modes, bans and
/// topic are joined (RFC 2813 section 5.3.2). Invitations alone are not told.
pub fn burst_read_is_merge()
    ensures { BurstReadIsMerge }
{}

/// A burst that is read shows to each user of this side just what the merge shows: those who clash
/// quit, in order, and then, channel by channel, each of the other side's members comes, with its
/// flags, and then what its modes and its topic raise (RFC 2813 section 5.3.2). The lines are the
/// same, and so is their order.
pub fn shown_is_merge_shown()
    ensures { ShownIsMergeShown }
{}

/// Each user of a merge is a user of one of the halves, each member has its flags of one of them,
/// who is invited was, and each channel has its name, modes and topic of one of them, or of two
/// that are joined; so the limits of a room that both halves keep hold of the merge.
pub fn merge_has_nothing_new()
    ensures { MergeHasNothingNew }
{}

/// Each user and each member that a split leaves was there, with its flags, who is invited was, and
/// each channel has its name, modes and topic as before.
pub fn split_has_nothing_new()
    ensures { SplitHasNothingNew }
{}

/// Where the homes of all users pass, all that a room has is told.
pub fn whole_side()
    ensures { WholeSide }
{}

/// Where no nickname stands twice in a line of members, each may be judged by the room as it was
/// before the line.
pub fn members_at_once()
    ensures { MembersAtOnce }
{}

/// The test of agreement tells whether two halves agree.
pub fn agree_tells()
    ensures { AgreeTells }
{}

/// The side of a well-formed room whose homes pass a test is well formed.
pub fn side_is_well_formed()
    ensures { SideIsWellFormed }
{}

/// A burst that tells of some homes alone makes a room, when it is read, what this room and that
/// side become.
pub fn side_read_is_merge()
    ensures { SideReadIsMerge }
{}

/// Whatever the lines of a burst say: each effect of what is read of them is possible when its turn
/// comes, and is not idle.
pub fn lines_can_be_done()
    ensures { LinesCanBeDone }
{}

/// A server keeps the invitations of its own users alone. One that reads what a server of the other
/// half tells, has then of the merge what it has to have.
pub fn server_reads_merge()
    ensures { ServerReadsMerge }
{}

/// And it shows to each user of its half just what the merge shows.
pub fn server_shows_merge()
    ensures { ServerShowsMerge }
{}

/// Two rooms within limits become one that is within them.
pub fn merge_is_within_limits()
    ensures { MergeIsWithinLimits }
{}

/// What a split leaves of a room within limits is within them.
pub fn split_is_within_limits()
    ensures { SplitIsWithinLimits }
{}

/// The modes of each channel of a room within limits can be told.
pub fn within_limits_is_told()
    ensures { WithinLimitsIsTold }
{}

/// Two servers find out by what each has of its half whether the halves agree: no invitation is
/// asked.
pub fn agree_looks_at_no_invitation()
    ensures { AgreeLooksAtNoInvitation }
{
    irc_room::invitation_laws::home_is_well_formed();
}

/// What a server has of a room it tells as all of the room.
pub fn burst_tells_no_invitation()
    ensures { BurstTellsNoInvitation }
{}

/// In two rooms that are alike but for who is invited, the lines of a burst are read alike.
pub fn alike_read_alike()
    ensures { AlikeReadAlike }
{
    irc_room::invitation_laws::alike_stay_alike();
    irc_room::invitation_laws::alike_take_alike();
    irc_room::invitation_laws::alike_have_alike();
}

/// What a line of a link says does and shows the same in two rooms that are alike but for who is
/// invited.
pub fn alike_do_alike()
    ensures { AlikeDoAlike }
{
    irc_room::invitation_laws::alike_stay_alike();
    irc_room::invitation_laws::alike_take_alike();
    irc_room::invitation_laws::alike_have_alike();
}

/// What a server has of a room after a line of a link is what the line makes of what the server
/// had.
pub fn home_follows_deed()
    ensures { HomeFollowsDeed }
{
    irc_room::invitation_laws::home_follows();
}
