//! Each device call of a whole session stopped in turn, and failing in turn: what a world tells behind it, and what a
//! recovery finds. By public calls alone, over devices of memory.
//!
//! No clause says that a call which takes memory succeeds where there is enough of it. So each is made by a test with
//! ample memory, which compares what it answers:
//!
//! | Call | The test, and its crate |
//! |---|---|
//! | `Addr::write_text` | `an_address_is_written_in_lower_case_and_read_in_either`, `apd_tests` |
//! | `Sequence::{push, append}`, `rows::put` | `lists_and_rows_take_items_where_memory_is_ample`, `apd_tests` |
//! | `encode` | `encodes_each_reply`, `apd_tests` |
//! | `read_conf`, and `from_bytes` in it | `a_value_is_that_of_the_last_line_and_keeps_its_blanks`, `apd_tests` |
//! | `Conf::built_in` | `the_example_is_the_built_in_configuration`, `apd_tests` |
//! | `Conf::copy`, `FileName::{new, copy}` | `a_copy_has_the_names_of_both_list_files`, `apd_tests` |
//! | `AddressList::copy` | `a_copy_has_both_lists`, `apd_tests` |
//! | `Confs::copy`, `InterfaceName::{new, copy}` | `eight_configurations_are_taken`, `apd_tests` |
//! | `Ssid::{new, copy}` | `the_status_is_told`, `eight_configurations_are_copied`, `apd_tests` |
//! | `read_list` | `addresses_are_added_and_taken_away`, `apd_tests` |
//! | `configurations` | that of `read_configurations` |
//! | `read_configurations` | `files_are_read_in_turn_and_the_first_fault_is_told`, `apd_script_tests` |
//! | `write`, `read_all` | `the_table_of_records`, `apd_tests` |
//! | `Changes::push`, `plan_half` | `a_half_is_planned_of_changes_that_are_collected`, here |
//! | `Lists::{add, copy}` | `addresses_are_added_where_memory_is_ample`, `apd_tests` |
//! | `Table::apply` | `stations_and_policies_are_changed`, `lists_are_changed`, `apd_tests` |
//! | `Table::apply_all` | `drops_come_behind_no_change_and_behind_one`, `an_association_moves`, `apd_tests` |
//! | `Table::{addresses, denials_after}` | `addresses_are_told`, `apd_tests` |
//! | `Table::denials_by` | `stations_and_policies_are_changed`, `apd_tests` |
//! | `Table::copy` | `a_copy_has_the_cursors`, `apd_tests` |
//! | `Table::snapshot` | `a_snapshot_has_the_cursors_behind_the_policies`, `apd_tests` |
//! | `Staged::{new, stage}` | `changes_are_staged_and_committed`, `apd_tests` |
//! | `decide` | `a_first_start_with_two_full_lists`, `a_start_that_drops_2007_stations`, `apd_tests` |
//! | `escape`, `reply` | `stations_are_told`, `lists_are_told_in_order`, `the_status_is_told`, `apd_tests` |
//! | `MemDisk::new`, and its calls | `a_crash_of_each_kind`, `apd_device_tests` |
//! | `FileDisk::create` | `a_file_is_made_closed_opened_and_read`, `apd_device_tests` |
//! | `read_groups`, `plan` | `three_groups`, `a_plan_has_the_bytes_behind_its_gate`, `apd_device_tests` |
//! | `Store::begin` | `the_calls_of_a_commit`, `apd_device_tests` |
//! | `recover` | `of_two_open_halves_the_later_is_read_and_equal_ones_are_damaged`, `apd_device_tests` |
//! | `upgrade` | `the_bytes_of_a_copy`, `apd_device_tests` |
//! | `Flusher::{new, load, commit}` | `the_bytes_of_two_commits`, `apd_device_tests` |
//! | `Committer::load` | `a_batch_waits_until_the_one_in_flight_is_published`, `apd_device_tests` |
//! | `Replaying::new`, `Call::read` in it, `install` of each radio | `each_kind_in_a_box`, `apd_radio_tests` |
//! | `Identifiers::insert` | `identifiers_are_kept_by_address`, here |
//! | `Recording`, its calls | `a_recording_has_a_line_for_each_call`, `apd_radio_tests` |
//! | `UdpSim::{new, poll}`, `Datagrams::{bind, receive}` in them | `datagrams_of_every_length`, `apd_radio_tests` |
//! | `Slot::{make_room, apply_next}` | `outs_are_applied_in_the_order_in_which_they_were_queued`, the same |
//! | `Slot::apply` | `what_a_slot_applies_is_recorded`, the same |
//! | `Slot::poll` | `a_slot_gives_what_its_radio_received`, the same |
//! | `Slot::resume` | `a_slot_resumes_its_own_rows_in_order`, the same |
//! | `Slot::replace` | `each_kind_is_replaced_by_another`, the same |
//! | `Slot::resync` | `a_slot_gives_its_radio_anew_what_is_wanted`, the same |
//! | `Core::{new, accept, take}` | `five_thousand_requests_against_a_plain_list`, `apd_core_tests` |
//! | `Core::{publish, hand, read}` | `a_station_is_told_as_it_was_settled`, `apd_core_tests` |
//! | `drive` | `the_bytes_after_an_authentication`, `apd_world_tests` |
//! | `restart` | `once_each_call_of_a_restart`, here |
//! | `World::step`, `DurableCore::step` | that of `drive` |
//! | `World::commit` | `a_commit_settles_all_that_waits`, here |
//! | `begin_anew`, `slots_for` | `a_world_is_begun_anew`, here |
//! | `World::start` | `a_start_tells_what_a_radio_was_not_given`, `apd_world_tests` |
//! | `World::flush` | `a_flush_tells_what_a_radio_was_not_given`, `apd_world_tests` |
//! | `World::hand_out` | `a_hand_out_tells_what_a_radio_was_not_given`, `apd_world_tests` |
//! | `World::replace` | `other_radios_have_the_stations_of_the_table`, `apd_world_tests` |
//! | `Shared::submit` | `each_seat_its_station`, `apd_desk_tests` |
//! | `Shared::ask` | `a_commit_that_is_refused_memory_is_tried_again`, `apd_desk_tests` |
//! | `Shared::collect` | `what_is_collected_is_what_a_core_hands_out`, `apd_desk_tests` |
//! | `radio_worker`, `Shared::hand` in it | `no_out_is_lost_at_want_of_memory_or_at_a_stop`, `apd_desk_tests` |
//! | `control_worker` | `a_command_is_of_the_interface_that_it_names`, `apd_desk_tests` |
//! | `tick_worker` | `a_turn_ends_once_nobody_is_silent`, `apd_desk_tests` |
//! | `commit_all` | `a_batch_that_a_committer_held_is_settled`, `apd_desk_tests` |
//! | `flush_worker` | `a_commit_that_is_refused_memory_is_tried_again`, `apd_desk_tests` |
//! | `ControlPort`, `Senders::add` in it, `serve` | `each_sender_gets_its_own_replies`, `apd_serve_tests` |
//! | `run` | `a_second_run_goes_on_where_the_first_ended`, `apd_serve_tests` |
//! | `open_disk`, `file_or_fault` in it | `a_file_that_is_no_store_is_left_as_it_was`, `apd_serve_tests` |
//! | `run_check` | `a_check_prints_a_line_for_each_bssid_rising`, `apd_script_tests` |
//! | `run_upgrade` | `a_store_of_version_1_is_copied`, `apd_subcommands_tests` |
//! | `new_store`, `run_on_store` | `lines_end_at_a_newline_alone_and_the_last_needs_none`, `apd_script_tests` |
//! | `run_script` | `a_stop_takes_a_fresh_radio_from_the_front_for_each_slot`, `apd_script_tests` |
//! | `write_out` | `driver_calls_are_printed_in_these_words`, `apd_script_tests` |
//! | `write_applied` | `lost_frames_and_failed_drivers_are_printed_in_these_words`, `apd_script_tests` |
//! | `write_reception` | `answers_are_printed_in_these_words`, `apd_script_tests` |
//!
//! `format`, `run_format` and all other calls of a store and of a flusher take none.

mod ample_tests;
mod calls;
mod cases;
mod devices;
mod expected;
mod fuse_each_call;
mod no_changes_tests;
mod once_each_call;
mod recovery_tests;
mod sessions;
mod worn_tests;
