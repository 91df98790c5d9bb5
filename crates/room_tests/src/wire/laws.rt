//! The laws of the room's crates can be called.

/// Those of sizes and of numbers at places.
fn laws_of_numbers() {
    gev_types::laws::constants_are_the_limits();
    gev_types::laws::fewer_lines_make_a_smaller_image();
    wire_fields::laws::fields_are_numbers();
    wire_fields::laws::spelled_is_read();
    wire_fields::laws::fields_are_one();
}

/// Those of packets of an image stream.
fn laws_of_packets() {
    gvsp_wire::laws::one_answer();
    gvsp_wire::laws::reading_is_exact();
    gvsp_wire::laws::plain_is_read();
    gvsp_wire::laws::zero_notice_is_refused();
    gvsp_wire::laws::plain_is_one();
    gvsp_wire::laws::packets_have_spellings();
    gvsp_wire::laws::packets_are_worked();
}

/// Those of commands and acknowledges.
fn laws_of_messages() {
    gvcp_wire::codes_are_the_standards();
    gvcp_wire::command_reading_is_the_relation();
    gvcp_wire::bytes_are_one_command_or_refused();
    gvcp_wire::written_command_is_read();
    gvcp_wire::ack_reading_is_the_relation();
    gvcp_wire::bytes_are_one_ack_or_refused();
    gvcp_wire::written_ack_is_read();
}

/// Those of the messages beside them, and of requests among commands.
fn laws_of_requests() {
    gvcp_wire::resend_reading_is_the_relation();
    gvcp_wire::written_resend_is_read();
    gvcp_wire::written_discovery_is_read();
    gvcp_wire::pending_reading_is_the_relation();
    gvcp_wire::written_pending_is_read();
    packet_requests::laws::numbers_have_the_bit();
    packet_requests::laws::requests_ask_the_same();
    packet_requests::laws::early_commands_are_apart();
}

/// Those of standard identifiers.
fn laws_of_identifiers() {
    gvsp_std::laws::chooses_the_near();
    gvsp_std::laws::chooses_itself();
    gvsp_std::laws::widened_is_the_packet();
    gvsp_std::laws::widened_is_longer();
    gvsp_std::laws::standard_is_widened();
    gvsp_std::laws::narrowed_is_standard();
    gvsp_std::laws::narrowed_is_widened();
    gvsp_std::laws::standard_is_worked();
}

#[test]
fn laws_can_be_called() {
    laws_of_numbers();
    laws_of_packets();
    laws_of_messages();
    laws_of_requests();
    laws_of_identifiers();
}
