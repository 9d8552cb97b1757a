//! What holds of networks of servers, whatever the order in which lines are delivered. Each law is
//! a function that does nothing, and its contract is the law: the check proves it, and a crate
//! above may cite it. The plan of the proof stands at the head of `proofs/Common.antt`.
ghost use Rattle.irc_items.specs.InAnyOrder.{ClashingNicknamesGo, CrossingBurstsMeet};
ghost use Rattle.irc_items.specs.InAnyOrder.{ItemIsReceived, RejoinJoinsTheRooms};
ghost use Rattle.irc_items.specs.InAnyOrder.{SplitPartsTheRoom};
ghost use Rattle.irc_items.specs.Kept.{DeliveryKeepsSound, SettlingKeepsSound, TakenAreFew};
ghost use Rattle.irc_items.specs.Kept.{TurnLeavesFewer, TurnsAreFew};
ghost use Rattle.irc_items.specs.Laws.{DeliveryKeepsSettings, DeliveryStaysSound};
ghost use Rattle.irc_items.specs.Laws.{GivenKeepsSettings, GivenStaysSound, NewLinkIsOpen};
ghost use Rattle.irc_items.specs.Laws.{NewNetworkIsSound, NoLinkIsClosed, OnlyLinesClose};
ghost use Rattle.irc_items.specs.Laws.{ReceivedIsFront, RefusalsAreTheWorlds, RestIsOneRoom};
ghost use Rattle.irc_items.specs.Laws.{WaitingAreLines};

/// A network to which nothing was given is sound.
pub fn new_network_is_sound()
    ensures { NewNetworkIsSound }
{
    irc_world::laws::taken_make_world();
    irc_follow::laws::side_at_rest_is_sound();
}

/// It stays so by each item that is taken.
pub fn given_stays_sound()
    ensures { GivenStaysSound }
{
    irc_line::laws::written_is_line();
    irc_line::laws::written_is_read();
    irc_line::laws::every_line_is_read();
    irc_line::laws::words_are_of_the_line();
    irc_room::laws::names_are_line_words();
    irc_link_words::laws::lines_fit();
    irc_merge::laws::merge_is_even();
    irc_merge::laws::whole_side();
    irc_merge::laws::burst_tells_no_invitation();
    irc_merge::laws::burst_read_is_merge();
    irc_merge::laws::shown_is_merge_shown();
    irc_merge::laws::lines_can_be_done();
    irc_merge::laws::squits_split();
    irc_merge::laws::within_limits_is_told();
    irc_readback::laws::each_is_read_back();
    irc_commands::laws::decided_is_possible();
    irc_commands::laws::registering_is_possible();
    irc_commands::laws::decided_does();
    irc_commands::laws::decided_is_sendable();
    irc_commands::laws::registering_is_sendable();
    irc_commands::laws::who_stays_is_user();
    irc_commands::laws::who_is_closed_quits();
    irc_commands::laws::registered_is_added();
    irc_commands::laws::unregistered_changes_nothing();
    irc_commands::laws::decided_by_itself();
    irc_commands::laws::decided_at_home();
    irc_commands::laws::registering_at_home();
    irc_server::laws::keeps_its_setting();
    irc_world::laws::step_keeps_world();
    irc_world::laws::taken_make_world();
    irc_world::laws::other_parts_stay();
    irc_world::laws::only_connected_receive();
    irc_follow::laws::done_stays_sound();
    irc_follow::laws::said_deed_fits();
    irc_follow::laws::said_deed_shows();
    irc_follow::laws::said_deed_goes_on();
    irc_follow::laws::aside_stays();
    irc_follow::laws::passed_by_stays();
    irc_follow::laws::side_after_link();
    irc_follow::laws::tree_after_cut();
    irc_follow::laws::side_at_rest_is_sound();
    irc_follow::laws::behind_is_that_side();
    irc_follow::laws::place_is_worlds();
    irc_follow::laws::source_tells();
    irc_follow::laws::behind_source_is_far();
    irc_network::laws::rest_stays();
    rest_is_one_room();
    refusals_are_the_worlds();
}

/// And by each line that is delivered.
pub fn delivery_stays_sound()
    ensures { DeliveryStaysSound }
{
    irc_line::laws::written_is_line();
    irc_line::laws::written_is_read();
    irc_line::laws::every_line_is_read();
    irc_room::laws::names_are_line_words();
    irc_link_words::laws::lines_fit();
    irc_server::laws::keeps_its_setting();
    irc_world::laws::taken_make_world();
}

/// No server closes a link upon the line that it takes next from another.
pub fn no_link_is_closed()
    ensures { NoLinkIsClosed }
{
    irc_world::laws::taken_make_world();
}

/// What waits on a way are lines, each of which a stream of bytes carries as it is.
pub fn waiting_are_lines()
    ensures { WaitingAreLines }
{
    irc_world::laws::taken_make_world();
}

/// Nor does one of two that are to be linked.
pub fn new_link_is_open()
    ensures { NewLinkIsOpen }
{}

/// Nor does any by what its clients do, or as another link is lost.
pub fn only_lines_close()
    ensures { OnlyLinesClose }
{
    irc_server::laws::served_closes_its_own();
}

/// At rest it is one room.
pub fn rest_is_one_room()
    ensures { RestIsOneRoom }
{
    irc_network::laws::rest_stays();
    irc_world::laws::taken_make_world();
    irc_follow::laws::side_at_rest_is_sound();
}

/// At every moment what a client has received is a front of what it is owed.
pub fn received_is_front()
    ensures { ReceivedIsFront }
{}

/// At rest it refuses just what its world refuses.
pub fn refusals_are_the_worlds()
    ensures { RefusalsAreTheWorlds }
{
    rest_is_one_room();
    irc_world::laws::world_is_sound();
}

/// By an item each client receives just what one room sends it, in whatever order lines are
/// delivered then.
pub fn item_is_received()
    ensures { ItemIsReceived }
{
    irc_network::laws::given_is_kept();
    given_stays_sound();
    delivery_stays_sound();
    rest_is_one_room();
    given_keeps_settings();
    delivery_keeps_settings();
}

/// So two bursts that cross, in whatever order they do, show the members of a channel that is on
/// both sides to each other.
pub fn crossing_bursts_meet()
    ensures { CrossingBurstsMeet }
{
    irc_world::examples::people_meet();
    irc_network::laws::given_is_kept();
    given_stays_sound();
    delivery_stays_sound();
    rest_is_one_room();
    refusals_are_the_worlds();
    given_keeps_settings();
    delivery_keeps_settings();
}

/// And a link that is lost parts a room: each side sees those of the other quit, in whatever order
/// the lines are delivered.
pub fn split_parts_the_room()
    ensures { SplitPartsTheRoom }
{
    irc_world::examples::link_is_lost();
    irc_network::laws::given_is_kept();
    given_stays_sound();
    delivery_stays_sound();
    rest_is_one_room();
    refusals_are_the_worlds();
    given_keeps_settings();
    delivery_keeps_settings();
}

/// Once it is back the room is one again.
pub fn rejoin_joins_the_rooms()
    ensures { RejoinJoinsTheRooms }
{
    irc_world::examples::link_is_back();
    irc_network::laws::given_is_kept();
    given_stays_sound();
    delivery_stays_sound();
    rest_is_one_room();
    refusals_are_the_worlds();
    given_keeps_settings();
    delivery_keeps_settings();
}

/// And two users of one nickname, on both sides of a new link, are gone from both, whatever
/// crosses: who shared a channel with one of them sees it quit, and both are told why.
pub fn clashing_nicknames_go()
    ensures { ClashingNicknamesGo }
{
    irc_world::examples::nicknames_clash();
    irc_network::laws::given_is_kept();
    given_stays_sound();
    delivery_stays_sound();
    rest_is_one_room();
    refusals_are_the_worlds();
    given_keeps_settings();
    delivery_keeps_settings();
}

/// What servers are configured to be stays, whatever is given.
pub fn given_keeps_settings()
    ensures { GivenKeepsSettings }
{
    irc_server::laws::keeps_its_setting();
}

/// And whatever is delivered.
pub fn delivery_keeps_settings()
    ensures { DeliveryKeepsSettings }
{
    irc_server::laws::keeps_its_setting();
}

/// A line that is delivered keeps a network sound, and it counts for one.
pub fn delivery_keeps_sound()
    ensures { DeliveryKeepsSound }
{
    delivery_keeps_settings();
    delivery_stays_sound();
}

/// So do lines that are delivered one after another, and they count for as many.
pub fn settling_keeps_sound()
    ensures { SettlingKeepsSound }
{
    delivery_keeps_settings();
    delivery_stays_sound();
}

/// No more lines were taken than servers need at most for the last item.
pub fn taken_are_few()
    ensures { TakenAreFew }
{}

/// Nor can more be taken in turn, each time the oldest of the first way on which one waits.
pub fn turns_are_few()
    ensures { TurnsAreFew }
{
    irc_line::laws::written_is_line();
    irc_line::laws::written_is_read();
    irc_line::laws::every_line_is_read();
    irc_room::laws::names_are_line_words();
    irc_link_words::laws::lines_fit();
    irc_server::laws::keeps_its_setting();
    irc_world::laws::taken_make_world();
}

/// So each line that is taken in turn leaves fewer, and they come to an end.
pub fn turn_leaves_fewer()
    ensures { TurnLeavesFewer }
{
    turns_are_few();
}
