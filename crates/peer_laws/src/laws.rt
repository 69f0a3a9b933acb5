//! What a packet has of what is due, what a hearing tells, and which marks packets carry, as contracts of
//! functions without parameters that do nothing: a definition of these that said less, or told another
//! thing, is refused.

mod hearing;
mod marks;
mod packets;

pub use hearing::{
    another_sum_is_told, the_most_repaired_is_told, what_is_told_was_counted, what_stopped_is_told,
};
pub use marks::{
    a_mark_is_carried, a_newer_mark_is_kept, a_packet_carries_the_newest_mark,
    the_first_difference_stays,
};
pub use packets::{
    a_packet_has_what_fits, more_is_told_where_not_all_is_put, what_was_put_is_left_out,
};
