//! The names and homes of players.

ghost use Rattle.std.specs.Prelude.{◌≡◌, [], ◌∷◌};
ghost use Rattle.match_setup.specs.Words.{face_word};
ghost use Rattle.match_setup.specs.declared.face.Face.TheVariants as faces;
ghost use Rattle.tss_io.specs.Reading.{Answers};
ghost use Rattle.tss_io.specs.Forms.{picked};
ghost use Rattle.tss_io.specs.Lines.{words_of};
ghost use Rattle.match_file.specs.Kinds.{has_name, has_home, player_form};

use match_setup::{Face, Spot};
use tss_base::Seq;
use tss_io::Cause;
use tss_io::words::{front, last, number};

/// A player's name and home.
#[derive(Drop)]
pub struct Player {
    /// 1 to 12 letters from a to z and digits, a letter first.
    pub name: Seq<u8>,
    /// The cell in which the player begins, and where it looks.
    pub home: Spot,
}

/// The words of a player's line behind its first, of the right shape.
#[derive(Clone, Copy)]
pub struct PlayerWords<'a> {
    /// The name.
    pub name: &'a [u8],
    x: &'a [u8],
    y: &'a [u8],
    /// Where the player looks.
    pub face: Face,
}

impl<'a> PlayerWords<'a> {
    /// The words, where they have the shape of a player's; else `Shape`.
    pub fn of(words: &'a [u8]) -> Result<PlayerWords<'a>, Cause>
        ensures { Answers (λ w. (w.name.now, (w.x.now, (w.y.now, w.face)))) result
            (player_form.see (words_of words.now)) }
    {
        let (name, words) = front(words)?;
        let (x, words) = front(words)?;
        let (y, words) = front(words)?;
        let face = face_of(last(words)?)?;
        Ok(PlayerWords { name, x, y, face })
    }

    /// The column and the row that the words say; `Number` where one of them isn't a number.
    pub fn cell(&self) -> Result<(u32, u32), Cause>
        ensures { let w = self.now in
            Answers (λ at. (w.name.now, (at.0, (at.1, w.face)))) result
            (player_form.value (w.name.now, (w.x.now, (w.y.now, w.face)))) }
    {
        let x = number(0, u32::MAX, self.x)?;
        let y = number(0, u32::MAX, self.y)?;
        Ok((x, y))
    }
}

/// The facing that the word names.
pub fn face_of(word: &[u8]) -> Result<Face, Cause>
    ensures { Answers (λ x. x) result
        (picked face_word (faces.N ∷ faces.E ∷ faces.S ∷ faces.W ∷ []) word.now) }
{
    if word == b"n".as_slice() {
        Ok(Face::N)
    } else if word == b"e".as_slice() {
        Ok(Face::E)
    } else if word == b"s".as_slice() {
        Ok(Face::S)
    } else if word == b"w".as_slice() {
        Ok(Face::W)
    } else {
        Err(Cause::Shape)
    }
}

/// Whether one of the players has this name.
#[tactic(auto, unfolding(crate::specs::Kinds::has_name))]
pub fn has_name(name: &[u8], players: &[Player]) -> bool
    ensures { result ≡ has_name name.now players.now }
{
    players.iter().any(|p| p.name.as_slice() == name)
}

/// Whether one of the players' homes is in this cell.
#[tactic(auto, unfolding(crate::specs::Kinds::has_home))]
pub fn has_home(x: u8, y: u8, players: &[Player]) -> bool
    ensures { result ≡ has_home x y players.now }
{
    players.iter().any(|p| p.home.x == x && p.home.y == y)
}
