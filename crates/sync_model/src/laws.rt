//! The laws of the model. Each is the contract of a function without parameters that does nothing.

mod clocks;
mod drafts;
mod draining;
mod forgetting;
mod history;
mod hosts;
mod ordering;
mod room;
mod settling;
mod staggered;

pub use clocks::{clock_counts, other_events_move_no_copy, step_moves_its_copy};
pub use drafts::{
    arrival_renews, draft_fits, epoch_bounded, epoch_counts, epoch_opens, epoch_rises,
    ready_fits_kept, renews_exactly, restagger_renews, step_renews, tick_renews,
};
pub use draining::{
    drained_in_order, drained_is_tested, drained_worlds, draining_delivers_nothing, draining_ends,
    draining_is_turns, played_in_order,
};
pub use forgetting::{
    a_mirror_put_at_its_base_is_a_window, forgetting_changes_no_answer,
    forgetting_changes_no_answer_to_the_end, forgetting_is_exact, nothing_is_forgotten_yet,
    what_is_left_has_the_worlds_of_the_whole, what_is_left_tells_of_the_whole,
    what_is_remembered_decides, what_lies_behind_the_last_copy_is_forgotten,
};
pub use history::{
    answers_in_kind, changing_events_are_a_log, changing_events_suffice, history_grows,
    history_of_changes, late_exactly, reached_kept, repairs_add_up, unchanged_exactly,
};
pub use hosts::{
    runs_begin_with_those_behind, the_last_copy_is_never_repaired, unrepaired_runs_grow,
    world_goes_on, worlds_follow, worlds_follow_a_match,
};
pub use ordering::{
    keys_go_on_differing, last_copies_at_one_tick_show_one_world,
    while_nothing_comes_late_copies_are_in_time_order, worlds_decide_nothing,
};
pub use room::{
    from_history_kept, from_history_reached, opening_from_history, room_decides_nothing, room_spent,
};
pub use settling::{
    arrival_count, arrival_early, arrival_late, arrival_repairs, arrival_repairs_first,
    begins_with_prefix, last_late, rebuilt_level, rebuilt_twice, settled_chained, step_apart,
    step_count, step_first, step_front, step_repairs, step_repairs_first,
};
pub use staggered::{
    fits_kept, fixed_parts_kept, opening_staggered, staggered_along, staggered_kept,
    well_formed_kept,
};
