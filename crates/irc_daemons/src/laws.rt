//! What holds of engines whose wires are joined by links.
ghost use Rattle.irc_daemons.specs.EachStep.{EachStep};
ghost use Rattle.irc_daemons.specs.OneRoom.{DaemonsAreOneRoom};

use irc_outbox::Wire;

/// A network whose links carry bytes follows each step of daemons that are joined by links: it is
/// given the items of a step, as many bytes come as are read of a link, or nothing is done.
pub fn each_step_is_followed<W: Wire>()
    ensures { EachStep W.is_after }
{
    irc_line::laws::pieces_complete_the_same();
    irc_server::laws::served_lines_end();
    irc_server::laws::served_goes_to_its_own();
    irc_server::laws::who_is_connected();
    irc_server::laws::served_keeps_ends();
    irc_numbers::laws::served_alike();
    irc_numbers::laws::nothing_is_behind_an_end();
}

/// Daemons that are joined by links are one room, whatever links are made and lost: what was
/// written to each client is a front of what one room sends it, with what its outbox holds too,
/// and this is all of it where nothing is in transit between servers and each end of a link was
/// told of it.
pub fn daemons_are_one_room<W: Wire>()
    ensures { DaemonsAreOneRoom W.is_after }
{
    irc_line::laws::pieces_complete_the_same();
    irc_relay::laws_of_forests::link_taken_out();
    irc_world::laws::world_is_sound();
    irc_server::laws::served_lines_end();
    irc_server::laws::served_goes_to_its_own();
    irc_server::laws::who_is_connected();
    irc_server::laws::served_keeps_ends();
    irc_numbers::laws::served_alike();
    irc_numbers::laws::nothing_is_behind_an_end();
    irc_network::laws::new_is_whole();
    irc_network::laws::rest_as_lines();
    irc_items::laws::refusals_are_the_worlds();
    irc_net::laws::networks_stay_sound();
    irc_net::laws::settings_stay();
    irc_net::laws::kept_is_owed();
    irc_net::laws::every_run_is_kept();
}
