//! What holds of the invitations that one server keeps: those of its own users alone. Each law is a
//! function that does nothing, and its contract is the law, as in `laws.rt`.
ghost use Rattle.irc_effects.specs.Invitations.{HomeFollows, HomeIsWellFormed, HomeOfHome};
ghost use Rattle.irc_effects.specs.OtherInvitations.{AlikeHaveAlike, AlikeStayAlike};
ghost use Rattle.irc_effects.specs.OtherInvitations.{AlikeTakeAlike, HomeIsAlike};
ghost use Rattle.irc_effects.specs.Respelled.{AlikeAreRespelledAlike, HomeIsRespelled};
ghost use Rattle.irc_effects.specs.SentAlike.{AlikeKeepLimits, AlikeSendAlike, HomeKnowsItsInvited};

/// A server that keeps the invitations of its own users alone, and so does nothing upon an Invite
/// of another server's user, has after each effect just its part of the room after it.
pub fn home_follows()
    ensures { HomeFollows }
{}

/// A well-formed room is so too with the invitations of one server's users alone.
pub fn home_is_well_formed()
    ensures { HomeIsWellFormed }
{}

/// A room with the invitations of one server's users alone is its own part at that server.
pub fn home_of_home()
    ensures { HomeOfHome }
{}

/// A room with the invitations of one server's users alone is alike to it but for who is invited.
pub fn home_is_alike()
    ensures { HomeIsAlike }
{}

/// Two rooms that are alike but for who is invited have the same users, channels and members.
pub fn alike_have_alike()
    ensures { AlikeHaveAlike }
{}

/// In two rooms that are alike but for who is invited, each effect is possible, idle and refused
/// alike, and shows the same.
pub fn alike_take_alike()
    ensures { AlikeTakeAlike }
{}

/// Two rooms that are alike but for who is invited are so after each effect.
pub fn alike_stay_alike()
    ensures { AlikeStayAlike }
{}

/// In two rooms that are alike but for who is invited, the same effects can be sent.
pub fn alike_send_alike()
    ensures { AlikeSendAlike }
{}

/// Of two rooms that are alike but for who is invited, both keep to their limits or neither does.
pub fn alike_keep_limits()
    ensures { AlikeKeepLimits }
{}

/// A server knows of each of its own users to which channels the user is invited.
pub fn home_knows_its_invited()
    ensures { HomeKnowsItsInvited }
{}

/// Once a channel's name was spelled in the greater of two ways, a server that keeps the
/// invitations of its own users alone has what it had, with that name spelled so; and rooms that
/// are alike but for who is invited are so then.
pub fn home_is_respelled()
    ensures home { HomeIsRespelled }
    ensures alike { AlikeAreRespelledAlike }
{}
