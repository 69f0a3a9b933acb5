//! What a session of peers promises. Each law is the contract of a function without parameters that
//! does nothing.

mod marks;
mod net;
mod progress;
mod slot;

pub use marks::equal_worlds_never_differ;
pub use net::{
    a_net_stays_a_session, a_new_net_is_a_session, a_peers_run_is_in_order,
    each_command_is_counted_once, no_packet_is_refused, peers_with_the_same_have_one_run,
};
pub use progress::{a_whole_part_is_had, what_is_due_is_brought};
pub use slot::{a_part_leaves_a_front, a_piece_never_conflicts};
