//! Each law of the camera, of its parts and of its client is called once.

use bootstrap_regs::laws as registers;
use camera_machine::{laws as camera, rows};
use control_privilege::laws as privilege;

/// Those of registers, and of who may write them.
fn laws_of_registers() {
    registers::addresses_are_the_standards();
    registers::table_is_the_defined_one();
    registers::table_is_in_order();
    registers::texts_are_filled();
    registers::each_word_is_readable();
    registers::writes_have_causes();
    privilege::one_primary();
    privilege::control_passes();
    privilege::privilege_is_written();
    privilege::commands_keep_alive();
    privilege::others_keep_nothing_alive();
}

/// Those of frames, and of the store that they are sent from again.
fn laws_of_frames() {
    gev_frames::drawn_bytes_are_draws();
    gev_frames::made_frames_are_valid();
    gev_frames::short_frames_are_valid();
    gev_frames::camera_frames_are_valid();
    resend_store::a_new_store_stands_for_nothing();
    resend_store::a_push_adds_its_frame();
    resend_store::a_store_answers_as_its_list();
}

/// Those of a camera's answers to commands.
fn laws_of_commands() {
    camera::one_primary();
    camera::control_passes();
    camera::stranger_changes_nothing();
    camera::one_controls();
    camera::commands_renew_the_heartbeat();
    camera::refused_write_ends_its_command();
    camera::repeat_is_answered();
    camera::behind_command_is_dropped();
    camera::new_words_are_initial();
    camera::state_says_the_past();
}

/// Those of the packets that a camera gives.
fn laws_of_packets() {
    camera::made_frames_are_generated();
    camera::frames_are_short_as_was_set();
    camera::given_packets_are_sent();
    camera::replies_say_the_past();
    camera::packets_come_in_order();
}

/// Worked rows of commands and of packets.
fn laws_of_rows() {
    rows::second_peer_waits_for_the_heartbeat();
    rows::stranger_reads_and_cannot_write();
    rows::exclusive_access_keeps_out();
    rows::hostile_commands_are_answered();
    rows::stream_rows_hold();
    rows::short_rows_hold();
}

/// Those of a camera's scripts.
fn laws_of_scripts() {
    camera_replay::lines_are_judged();
    camera_replay::lines_are_in_place();
    camera_replay::report_is_one();
    camera_replay::turns_give_all();
    camera_replay::lines_are_events();
    camera_replay::reports_are_told();
    camera_replay::scripts_are_worked();
    camera_replay::scripts_tell();
}

/// Those of the client, and of a client and a camera together.
fn laws_of_clients() {
    client_machine::numbers_are_the_defined_ones();
    client_machine::the_setup_may_be_submitted();
    client_machine::a_client_is_new_until_a_submission();
    client_machine::a_client_keeps_its_limit();
    client_machine::no_answer_comes_after_three_sends();
    client_machine::outcomes_that_end_a_command_are_exact();
    client_machine::a_client_is_worked();
    world_machine::commands_act_once();
    world_machine::acked_commands_were_executed();
    world_machine::a_line_is_its_client_and_its_camera();
    world_machine::worked_schedule_holds();
}

#[test]
fn laws_can_be_called() {
    laws_of_registers();
    laws_of_frames();
    laws_of_commands();
    laws_of_packets();
    laws_of_rows();
    laws_of_scripts();
    laws_of_clients();
}
