//! What holds of networks, and of what their calls answer. A law is a function that does nothing,
//! and its contract is the law.
ghost use Rattle.irc_net.specs.Laws.{AnswersAreReceived, EachSettles, EveryNetworkIsOneRoom};
ghost use Rattle.irc_net.specs.Laws.{EveryRunIsKept, KeptIsOwed, SettingsStay, StaysKept};
ghost use Rattle.irc_net.specs.Played.{PlayIsRun};

/// The lines that an item, bytes that come, a delivery or a settling answer are just those that
/// clients have received by it.
pub fn answers_are_received()
    ensures { AnswersAreReceived }
{
    irc_network::laws::receipts_are_received();
}

/// Servers are set up by the configurations that a network is made of, and stay so; and just what
/// is given is kept.
pub fn settings_stay()
    ensures { SettingsStay }
{
    irc_server::laws::keeps_its_setting();
    irc_network::laws::given_is_kept();
    irc_items::laws::given_keeps_settings();
}

/// A new network is sound, and stays so whatever is given to it and whatever comes, in whatever
/// pieces.
pub fn networks_stay_sound()
    ensures { StaysKept }
{
    irc_items::laws::new_network_is_sound();
    irc_items::laws::given_stays_sound();
    irc_items::laws::delivery_keeps_sound();
    irc_items::laws::waiting_are_lines();
    irc_network::laws::new_is_whole();
    irc_network::laws::given_as_lines();
    irc_network::laws::bytes_come_as_lines();
    irc_network::laws::turn_as_lines();
    irc_network::laws::rest_as_lines();
}

/// Each sound network settles.
pub fn each_settles()
    ensures { EachSettles }
{
    irc_items::laws::delivery_keeps_sound();
    irc_items::laws::turn_leaves_fewer();
    irc_items::laws::waiting_are_lines();
    irc_network::laws::turn_as_lines();
    irc_network::laws::each_comes_to_line();
    irc_network::laws::rest_as_lines();
}

/// What a client of a sound network has received is a front of what it is owed, and at rest all of
/// it.
pub fn kept_is_owed()
    ensures { KeptIsOwed }
{
    irc_items::laws::received_is_front();
    irc_items::laws::rest_is_one_room();
    irc_network::laws::rest_as_lines();
}

/// Whatever a network has run to is kept sound.
pub fn every_run_is_kept()
    ensures { EveryRunIsKept }
{
    networks_stay_sound();
    settings_stay();
}

/// A play is a run, so what is said of all that a network has run to is said of what a play leaves.
/// One that stops leaves a network that has failed.
pub fn play_is_run()
    ensures { PlayIsRun }
{}

/// A network is one room: whatever was given to one that was made of some configurations, and in
/// whatever order and pieces lines were delivered.
pub fn every_network_is_one_room()
    ensures { EveryNetworkIsOneRoom }
{
    networks_stay_sound();
    each_settles();
    settings_stay();
    irc_items::laws::received_is_front();
    irc_items::laws::rest_is_one_room();
    irc_items::laws::taken_are_few();
    irc_items::laws::refusals_are_the_worlds();
    irc_items::laws::no_link_is_closed();
    irc_items::laws::new_link_is_open();
    irc_network::laws::rest_as_lines();
}
