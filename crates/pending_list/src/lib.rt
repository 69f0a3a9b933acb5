//! The accepted commands of a mirror, walked tick by tick in key order; stands on `game_trait`.
#![tactic(auto)]

mod buckets;
mod counting;
mod in_order;
mod keyed;
mod order;
mod sized;
mod sorted;

pub use buckets::Buckets;
pub use in_order::InOrder;
