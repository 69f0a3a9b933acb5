//! One mirror of a match: it takes ticks, arrivals, steps and changes of its plan, and is at every
//! moment a state of `sync_model`.
#![tactic(auto)]

mod deferred;
mod drafts;
mod epochs;
mod inner;
mod laws;
mod lists;
mod mirror;
mod mirror_with;
mod mirrored;
mod plans;
mod policy;
mod turns;

pub use deferred::DeferredMirror;
pub use drafts::{Committed, Draft, Drafted, MOST_DRAFTED, Ready};
pub use laws::{a_deferred_mirror_defers, a_drained_mirror_is_in_order};
pub use mirror::Mirror;
pub use mirror_with::MirrorWith;
pub use mirrored::Mirrored;
pub use policy::{Deferred, Eager, RefreshPolicy};
pub use sync_model::Turned;
pub use turns::turn_events;
