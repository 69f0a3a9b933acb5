//! The lists of a mirror, as they are made.

ghost use Rattle.std.specs.Prelude.{◌≡◌, IfOk, [], vec_capacity};

use game_trait::{Event, NameTree};
use stagger_clock::Stagger;
use std::alloc::Global;
use sync_model::Turned;
use tss_base::NoMemory;

/// The lists of a mirror beside its copies, each with room for all that it will ever hold.
#[derive(Drop)]
pub struct Lists {
    pub plans: Vec<Stagger>,
    pub names: NameTree,
    pub turned: Vec<Turned>,
    pub history: Vec<Event>,
}

impl Lists {
    /// These plans, and empty lists with room for so many arrivals and events. On `NoMemory`
    /// nothing is created.
    pub fn new(
        alloc: Global,
        plans: &[Stagger],
        arrivals: usize,
        events: usize,
    ) -> Result<Lists, NoMemory>
        ensures plans { IfOk result (λ l. l.plans.items ≡ plans.now) }
        ensures empty { IfOk result (λ l.
            (l.names.items ≡ []) × (l.turned.items ≡ []) × (l.history.items ≡ [])) }
        ensures room { IfOk result (λ l. (l.names.room ≡ arrivals)
            × (vec_capacity l.turned ≡ arrivals) × (vec_capacity l.history ≡ events)) }
    {
        Ok(Lists {
            plans: Vec::from_slice(alloc, plans)?,
            names: NameTree::with_room(alloc, arrivals)?,
            turned: Vec::with_capacity(alloc, arrivals)?,
            history: Vec::with_capacity(alloc, events)?,
        })
    }
}
