//! A boxed engine behind a pointer that C may keep.

ghost use Rattle.std.specs.Prelude.{◌≡◌, Option, Some, None, is_some, true};
ghost use Rattle.peer_c.specs.declared.engine.Engine.{Engine};
ghost use Rattle.peer_c.specs.Held.{engine_coded, held_owns};

use crate::engine::Engine;
use host_parts::Parts;
use std::alloc::Global;
use std::marker::Model;

/// What C keeps of an engine: one pointer, or none.
#[repr(C)]
#[derive(Drop)]
pub struct Held {
    ptr: *mut u8,
    alloc: Global,
    pub ghost engine: { Option Engine } by { engine_coded },
}

impl Model for Held {
    ghost also_owns = { λ h. held_owns h.alloc h.ptr h.engine };
}

impl Held {
    /// No engine.
    pub fn none(alloc: Global) -> Held
        ensures { result.engine ≡ None }
    {
        Held {
            ptr: std::ptr::null_mut(),
            alloc,
        }
    }

    /// What holds the engine in the box.
    pub fn of(b: Box<Engine>) -> Held
        ensures { result.engine ≡ Some b.value }
    {
        Held::of_parts(Parts::of(b))
    }

    /// The engine in its box. There is one.
    pub fn into_box(self) -> Box<Engine>
        requires { is_some self.engine ≡ true }
        ensures { self.engine ≡ Some result.value }
    {
        self.into_parts().into_box()
    }

    fn of_parts(parts: Parts<Engine, Global>) -> Held
        ensures { result.engine ≡ Some parts.value }
    {
        let Parts { ptr, alloc } = parts;
        Held {
            ptr: ptr as *mut u8,
            alloc,
        }
    }

    fn into_parts(self) -> Parts<Engine, Global>
        requires { is_some self.engine ≡ true }
        ensures { self.engine ≡ Some result.value }
    {
        let Held { ptr, alloc } = self;
        Parts {
            ptr: ptr as *mut Engine,
            alloc,
        }
    }
}
