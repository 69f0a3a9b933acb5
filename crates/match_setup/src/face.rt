//! The four facings.

ghost use Rattle.std.specs.Prelude.{◌≡◌};
ghost use Rattle.match_setup.specs.Words.{face_word};
ghost use Rattle.match_setup.specs.Facing.{turned_left, turned_right};

/// Where a player or a shot looks: north, east, south or west.
#[derive(Clone, Copy, Debug, Default, PartialEq, Eq)]
pub enum Face {
    /// To the row of the smaller y.
    #[default]
    N,
    /// To the column of the greater x.
    E,
    /// To the row of the greater y.
    S,
    /// To the column of the smaller x.
    W,
}

impl Face {
    /// The facing after a quarter turn to the left.
    pub fn turned_left(self) -> Face
        ensures { result ≡ turned_left self }
    {
        match self {
            Face::N => Face::W,
            Face::W => Face::S,
            Face::S => Face::E,
            Face::E => Face::N,
        }
    }

    /// The facing after a quarter turn to the right.
    pub fn turned_right(self) -> Face
        ensures { result ≡ turned_right self }
    {
        match self {
            Face::N => Face::E,
            Face::E => Face::S,
            Face::S => Face::W,
            Face::W => Face::N,
        }
    }

    /// The word of the facing, as texts have it.
    pub fn word(self) -> &'static [u8]
        ensures { result.now ≡ face_word self }
    {
        match self {
            Face::N => b"n",
            Face::E => b"e",
            Face::S => b"s",
            Face::W => b"w",
        }
    }
}
