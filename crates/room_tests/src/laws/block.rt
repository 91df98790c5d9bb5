//! Each law of one block and of an acquisition is called once, so each can be.

use gev_types::Reasons;

/// Those of ids that are missing, and of why.
fn laws_of_missing_ids() {
    missing_ranges::holes_are_maximal();
    missing_ranges::holes_begin_with_first();
    missing_ranges::holes_ask_within();
    missing_ranges::holes_are_worked();
    missing_ranges::missing_is_maximal();
    missing_ranges::missing_is_worked();
    missing_ranges::reasons_are_reasons();
    missing_ranges::short_ones_spoil();
    missing_ranges::lost_ids_have_no_packet();
    missing_ranges::reasons_are_worked();
}

/// Those of which packets are kept.
fn laws_of_kept_packets() {
    block_image::keeps_no_id_twice();
    block_image::keeps_one_trailer();
    block_image::keeps_in_order();
    block_image::keeps_the_first();
    block_image::keeps_what_fits();
    block_image::misses_nothing();
    block_image::ignores_leader_info();
    block_image::packets_agree();
    block_image::all_packets_agree();
}

/// Those of what the kept packets make of a buffer.
fn laws_of_images() {
    block_image::complete_is_frame();
    block_image::bytes_are_in_place();
    block_image::all_packets_complete();
    block_image::leaders_tell_images();
    block_image::records_tell_their_length();
    block_image::records_tell_their_frame();
    block_image::infos_are_worked();
    block_assembly::verdicts_tell();
    block_assembly::packet_ids_are_those();
    block_assembly::accounts_agree();
}

/// Those of pictures of frames.
fn laws_of_pictures() {
    frame_pictures::laws::pixels_are_as_wide_as_their_format();
    frame_pictures::laws::plain_frames_are_their_pixels();
    frame_pictures::laws::pictures_are_their_pixels();
    frame_pictures::laws::heads_tell_their_record();
    frame_pictures::laws::retired_heads_tell_their_block();
    frame_pictures::laws::held_frames_are_shown();
    frame_pictures::laws::bytes_in_place_are_shown();
    frame_pictures::laws::pictures_are_worked();
    frame_pictures::laws::formats_are_worked();
}

/// Those of the order in which blocks open and retire.
fn laws_of_turns() {
    acquisition_machine::runs_are_joined();
    acquisition_machine::steps_keep_order();
    acquisition_machine::blocks_are_in_order();
    acquisition_machine::bound_never_falls();
    acquisition_machine::blocks_retire_in_order();
    acquisition_machine::causes_are_true();
    acquisition_machine::machine_settles();
    acquisition_machine::turns_are_counted();
    acquisition_machine::blocks_are_worked();
    acquisition_machine::times_are_worked();
}

/// Those of an acquisition's buffers and of what it asks for.
fn laws_of_fills() {
    acquisition_machine::claims_follow_buffer();
    acquisition_machine::asks_once();
    acquisition_machine::fills_have_sizes();
    acquisition_machine::no_buffer_is_lost();
    acquisition_machine::requests_are_missing();
    acquisition_machine::requests_are_few();
    acquisition_machine::rounds_are_few();
    acquisition_machine::heard_is_what_came();
    acquisition_machine::retired_heard_what_came();
    acquisition_machine::fills_are_images();
    acquisition_machine::fills_keep_frames();
}

/// Those of what an acquisition reads and notes.
fn laws_of_notes() {
    acquisition_machine::places_are_not_read();
    acquisition_machine::counts_are_not_read();
    acquisition_machine::runs_agree();
    script_trace::counts_are_accounted();
    script_trace::blocks_are_accounted();
    script_trace::opened_are_accounted();
    script_trace::notes_are_reasoned();
    script_trace::notes_are_worked();
    acq_core::receivers_show_their_inputs();
}

#[test]
fn laws_can_be_called(_rt: HostRuntime) {
    laws_of_missing_ids();
    laws_of_kept_packets();
    laws_of_images();
    laws_of_pictures();
    laws_of_turns();
    laws_of_fills();
    laws_of_notes();
}

/// Where no reason holds, none is told.
#[test]
fn no_reason_is_none(rt: HostRuntime) {
    assert!(rt; !Reasons::none().any());
}
