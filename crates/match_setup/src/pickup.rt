//! Where pickups lie, and what they give.

ghost use Rattle.std.specs.Prelude.{◌≡◌};
ghost use Rattle.match_setup.specs.Words.{kind_word};

/// What a pickup gives to the player who takes it.
#[derive(Clone, Copy, Debug, Default, PartialEq, Eq)]
pub enum Kind {
    /// Four shots more, up to 9 in all.
    #[default]
    Ammo,
    /// One health more, up to 3 in all.
    Heal,
    /// A score of 1 more.
    Gold,
}

/// A cell in which a pickup lies, and its kind.
#[derive(Clone, Copy, Debug, Default, PartialEq, Eq)]
pub struct PickupSpot {
    /// The column of the cell.
    pub x: u8,
    /// The row of the cell.
    pub y: u8,
    /// What it gives.
    pub kind: Kind,
}

impl Kind {
    /// The word of the kind, as texts have it.
    pub fn word(self) -> &'static [u8]
        ensures { result.now ≡ kind_word self }
    {
        match self {
            Kind::Ammo => b"ammo",
            Kind::Heal => b"heal",
            Kind::Gold => b"gold",
        }
    }
}
