//! Each law of the definitions is called.

use board_calls::laws;

/// Those of modes.
fn laws_of_modes() {
    laws::each_removed_is_one();
    laws::claims_take_oldest();
    laws::oldest_is_dropped();
    laws::nothing_is_claimed();
    laws::newest_is_alone();
}

/// Those of handles.
fn laws_of_handles() {
    gentl_handles::serials_rise();
    gentl_handles::calls_keep_order();
    gentl_handles::closing_takes_all_below();
}

/// Those of the words of a board and of their works.
fn laws_of_words() {
    buffer_words::between_steps();
    buffer_words::entries_are_owned();
    buffer_words::loans_stay();
    buffer_words::nothing_adds_none();
    buffer_words::one_adds_one();
    buffer_words::both_add_both();
    buffer_words::works_compose();
}

/// Those of the hosts of a board.
fn laws_of_hosts() {
    buffer_words::new_workers_do_their_kind();
    buffer_words::hosts_begin();
    buffer_words::hosts_split();
    buffer_words::hosts_join();
    buffer_words::hosts_act();
    buffer_words::hosts_see_more();
    buffer_words::hosted_histories_are_theirs();
}

#[test]
fn laws_can_be_called() {
    laws_of_modes();
    laws_of_handles();
    laws_of_words();
    laws_of_hosts();
}

/// Those of answers, owners and runs.
fn laws_of_runs() {
    board_machine::each_act_has_one_answer();
    board_machine::no_other_act_has_an_answer();
    board_machine::owners_are_counted();
    board_machine::empty_board_has_owners();
    board_machine::each_act_keeps_owners();
    board_machine::runs_are_owned();
    board_machine::runs_are_legal();
    board_machine::runs_hand_out();
}

/// Those of actors that split and join.
fn laws_of_actors() {
    board_machine::takes_hand_first();
    board_machine::acts_leave_others();
    board_machine::splits_add_actors();
    board_machine::splits_are_counted();
    board_machine::joins_end_actors();
    board_machine::ended_actors_do_nothing();
    board_machine::lone_actors_act_next();
}

/// Those of places and of the hands that hold them.
fn laws_of_places() {
    board_machine::generations_never_fall();
    board_machine::places_rise();
    board_machine::claims_are_lowest();
    board_machine::hands_hold_places();
    board_machine::actors_stay();
    board_machine::only_joins_end_actors();
    board_machine::actors_are_born();
    board_machine::unborn_actors_do_nothing();
}

/// Those of what others do, and of what stays.
fn laws_of_others() {
    board_machine::lone_actors_stay_alone();
    board_machine::others_leave_hands();
    board_machine::entries_are_theirs();
    board_machine::run_word_is_small();
    board_machine::held_buffers_stay();
    board_machine::one_size_stays();
    board_machine::only_own_takes_count();
    board_machine::open_streams_take_fills();
}

/// Those of the run word, the output and histories.
fn laws_of_histories() {
    board_machine::run_word_stays();
    board_machine::empty_output_stays();
    board_machine::handed_are_own();
    board_machine::empty_history();
    board_machine::histories_grow();
    board_machine::histories_grow_by_lists();
    board_machine::worked_history_runs();
}

#[test]
fn laws_of_the_machine_can_be_called() {
    laws_of_runs();
    laws_of_actors();
    laws_of_places();
    laws_of_others();
    laws_of_histories();
}
