//! The shots, and how they fly: the first part of a beat.

ghost use Rattle.std.specs.Prelude.{◌++◌, OnOk, OnErr, ◌≡◌, ◌<◌, All, length};
ghost use Rattle.game_trait.specs.declared.limits.TheConstants.{MOST_SHOTS};
ghost use Rattle.arena_rules.specs.declared.limits.TheConstants.{REACH};
ghost use Rattle.arena_rules.specs.Block.{shot_line};
ghost use Rattle.arena_rules.specs.Beat.{hit, scored, flying, flown, flights};

use crate::limits::REACH;
use crate::players::Players;
use arrayvec::ArrayVec;
use game_trait::limits::MOST_SHOTS;
use match_setup::{Ground, Roster, Spot};
use tss_base::NoMemory;
use tss_io::{Word, push_line};

/// A shot that flies.
#[derive(Clone, Copy, Debug, Default, PartialEq, Eq)]
pub struct Shot {
    /// The number of the player who fired it.
    pub owner: u8,
    pub spot: Spot,
    /// The cells left, from 1 to 8.
    pub left: u8,
}

impl Shot {
    /// A shot as it is fired.
    pub fn fired(owner: u8, spot: Spot) -> Shot
        ensures { result ≡ record { owner = owner; spot = spot; left = REACH } }
    {
        Shot {
            owner,
            spot,
            left: REACH,
        }
    }

    /// Appends the shot's line: its owner's name, its cell, its facing and the cells left. On
    /// `NoMemory` `out` is unchanged.
    #[tactic(auto, unfolding(crate::specs::Block::shot_line))]
    pub fn push_line(&self, roster: &Roster, out: &mut Vec<u8>) -> Result<(), NoMemory>
        ensures ok { OnOk result (out.new.items ≡ out.old.items ++ shot_line roster.now self.now) }
        ensures err { OnErr result (out.new.items ≡ out.old.items) }
    {
        let words = [
            Word::Text(b"shot"),
            Word::Text(roster.printed_name(self.owner)),
            Word::Number(i64::from(self.spot.x)),
            Word::Number(i64::from(self.spot.y)),
            Word::Text(self.spot.face.word()),
            Word::Number(i64::from(self.left)),
        ];
        push_line(out, &words)
    }

    // The shot in its next cell, where it flies on.
    fn flying(self, spot: Spot) -> Option<Shot>
        ensures { result ≡ flying self spot }
    {
        let left = self.left.saturating_sub(1);
        if left == 0 {
            None
        } else {
            Some(Shot { spot, left, ..self })
        }
    }
}

// Changes the score of a shot's owner, after it killed the player of this number.
fn score(players: &mut Players, owner: usize, killed: usize)
    requires { owner < length players.old }
    ensures scored { players.new ≡ scored players.old owner killed }
    ensures count { length players.new ≡ length players.old }
{
    let player = players.at(owner);
    if owner == killed {
        players.put(owner, player.with_loss());
    } else {
        players.put(owner, player.with_gain());
    }
}

// A shot of this owner hits the live player of this number.
fn hit(players: &mut Players, owner: usize, number: usize)
    requires owner { owner < length players.old }
    requires there { number < length players.old }
    ensures hit { players.new ≡ hit players.old owner number }
    ensures count { length players.new ≡ length players.old }
{
    let struck = players.at(number).struck();
    players.put(number, struck);
    if !struck.is_live() {
        score(players, owner, number);
    }
}

// One shot flies: the answer is the shot where it flies on.
fn fly(ground: &Ground, players: &mut Players, shot: Shot) -> Option<Shot>
    requires { shot.owner < length players.old }
    ensures flown { flown ground.now players.old shot
        ≡ record { players = players.new; shot = result } }
    ensures count { length players.new ≡ length players.old }
{
    let Some(spot) = ground.open_ahead(shot.spot) else {
        return None;
    };
    match players.holder(spot) {
        Some(number) => {
            hit(players, shot.owner as usize, number);
            None
        }
        None => shot.flying(spot),
    }
}

// The shots of a world fly in list order, and each sees what those before it did. They become those
// that fly on, which move up in the list. It is kept apart from a beat's code, since most beats
// have no shots.
#[inline(never)]
fn fly_each(ground: &Ground, players: &mut Players, shots: &mut ArrayVec<Shot, MOST_SHOTS>)
    requires { All (λ s. s.owner < length players.old) shots.old.items }
    ensures { flights ground.now players.old shots.old.items
        ≡ record { players = players.new; shots = shots.new.items } }
{
    let mut kept = 0;
    for at in 0..shots.len() {
        if let Some(shot) = fly(ground, players, shots[at]) {
            shots[kept] = shot;
            kept += 1;
        }
    }
    shots.truncate(kept);
}

/// The first part of a beat: the shots of a world fly, and become those that fly on. Where there is
/// none nothing changes.
#[tactic(auto, unfolding(crate::specs::Beat::flights))]
pub fn fly_shots(ground: &Ground, players: &mut Players, shots: &mut ArrayVec<Shot, MOST_SHOTS>)
    requires { All (λ s. s.owner < length players.old) shots.old.items }
    ensures { flights ground.now players.old shots.old.items
        ≡ record { players = players.new; shots = shots.new.items } }
{
    if shots.is_empty() {
        return;
    }
    fly_each(ground, players, shots);
}
