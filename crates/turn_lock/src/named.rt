//! What tells to which lock a seat belongs.

/// A lock or a seat, which name their table. A seat is of the lock with the same name.
pub trait Named {
    ghost use Rattle.atomic_table.specs.Seated.{TableId};

    /// The name of the table.
    ghost name: { Self → TableId };
}
