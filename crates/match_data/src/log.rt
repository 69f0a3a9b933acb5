//! The events that changed one mirror, in order.

ghost use Rattle.std.specs.Prelude.{◌≡◌};

use game_trait::{Event, MirrorId};
use tss_base::Seq;

/// The events that changed one mirror, in order. Contracts see it as a mirror and a plain list.
#[derive(Debug, Drop)]
pub struct MirrorLog {
    /// The mirror.
    pub mirror: MirrorId,
    /// Its history.
    pub events: Seq<Event>,
}

impl MirrorLog {
    /// The log of a mirror that these events changed. It takes no memory.
    pub fn new(mirror: MirrorId, events: Vec<Event>) -> MirrorLog
        ensures mirror { result.mirror ≡ mirror }
        ensures events { result.events ≡ events.items }
    {
        MirrorLog {
            mirror,
            events: Seq::of(events),
        }
    }
}
