//! The gate that a worker passes once for each of its turns.

/// What a worker passes once for each turn, mostly at its start. A copy's worker that hurries asks
/// for up to 64 turns at once, and where no tick was due in any of them it passes for the second and
/// the further ones after they were asked. So a gate that holds it at one of these holds turns that
/// are over, and a tick that becomes due meanwhile is looked for up to 63 turns later.
pub trait Gate {
    /// Passes the gate: worker c of a mirror is the worker of its copy c, and the one behind all
    /// copies' is the feeder. Turns count from 0, and are passed in order. It may wait: the others
    /// wait for one that is held as long as its work lets them, and each naps 4,096 times at most until
    /// it finds something to do again.
    fn pass(&self, mirror: u8, worker: u8, turn: u64);
}

/// A gate that never holds anyone.
pub struct OpenGate;

impl Gate for OpenGate {
    fn pass(&self, mirror: u8, worker: u8, turn: u64) {}
}
