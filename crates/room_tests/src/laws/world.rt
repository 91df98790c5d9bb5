//! Each law of the network, of the worlds and of their runs is called once.

use gev_make::laws as scripts;
use lossy_queue::laws as network;

/// Those of the network, and of scripts that are made over it.
fn laws_of_networks() {
    network::draws_three();
    network::puts_one_datagram();
    network::keeps_order();
    network::loses_all();
    scripts::made_lines_are_read();
}

/// Those of a run of a world.
fn laws_of_runs() {
    world_machine::run_has_one_text_and_one_end::<u8>();
    world_machine::run_ends_in_a_round::<u8>();
    world_machine::rounds_are_acts_of_a_session::<u8>();
    world_machine::round_submits_at_most_one::<u8>();
    world_machine::commands_of_a_run_act_once::<u8>();
    world_machine::host_hears_what_the_camera_gave::<u8>();
    world_machine::shortness_is_set_first::<u8>();
    world_machine::setup_alone_is_a_run();
    world_machine::nothing_comes_through();
}

/// Those of what camera, client and receiver do in a world together.
fn laws_of_worlds() {
    world_laws::commands_of_a_world_act_once();
    world_laws::schedule_has_a_trace();
    world_laws::trace_of_a_world_keeps_promises();
    world_laws::heard_images_are_true();
    world_laws::given_packets_are_heard();
    world_laws::images_of_a_world_are_true();
    world_laws::packets_are_of_made_frames();
    world_laws::images_are_of_made_frames();
    world_laws::run_is_a_world::<u8>();
    world_laws::soak_is_an_application();
    world_laws::images_of_a_run_are_true::<u8>();
    world_laws::text_of_a_run_has_take_lines();
}

/// Those of soak runs, of their ends and of their hosts.
fn laws_of_soaks() {
    world_laws::setup_ends::<u8>();
    world_laws::commands_are_few::<u8>();
    world_laws::soak_run_ends();
    world_laws::soak_run_has_a_text();
    world_laws::soak_commands_act_once();
    world_laws::soak_packets_are_of_its_frames();
    soak_receiver::hosts_keep_promises();
    soak_receiver::inputs_are_heard();
}

#[test]
fn laws_can_be_called() {
    laws_of_networks();
    laws_of_runs();
    laws_of_worlds();
    laws_of_soaks();
}
