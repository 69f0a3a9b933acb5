//! What C holds of an engine.

ghost use Rattle.std.specs.Prelude.{◌≡◌, nat_lt, is_some, Some, None, IfSome, IfNone};

use crate::engine::Engine;
use crate::held::Held;
use std::alloc::Global;
use std::mem::replace;

/// A handle: where an engine is kept, and whether one is. All zeroes is a handle with no engine. C
/// neither copies nor changes one.
#[repr(C)]
#[derive(Drop)]
pub struct Handle {
    pub held: Held,
    pub live: u32,
    pub ghost tied: { is_some held.engine ≡ nat_lt 0 live },
}

impl Handle {
    /// A handle with no engine.
    pub fn none(alloc: Global) -> Handle
        ensures { result.held.engine ≡ None }
    {
        Handle {
            held: Held::none(alloc),
            live: 0,
        }
    }

    /// A handle with this engine.
    pub fn of(engine: Box<Engine>) -> Handle
        ensures { result.held.engine ≡ Some engine.value }
    {
        Handle {
            held: Held::of(engine),
            live: 1,
        }
    }

    /// The engine, if there is one, and leaves none.
    pub fn take(&mut self, alloc: Global) -> Option<Box<Engine>>
        ensures some { IfSome result (λ engine. self.old.held.engine ≡ Some engine.value) }
        ensures none { IfNone result (self.old.held.engine ≡ None) }
        ensures left { self.new.held.engine ≡ None }
    {
        let Handle { held, live } = replace(self, Handle::none(alloc));
        if live == 0 {
            return None;
        }
        Some(held.into_box())
    }
}
