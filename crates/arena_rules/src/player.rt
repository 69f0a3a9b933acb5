//! The players, live or dead.

ghost use Rattle.std.specs.Prelude.{◌≡◌, ◌++◌, OnOk, OnErr};
ghost use Rattle.arena_rules.specs.Block.{state_line};
ghost use Rattle.match_setup.specs.Setup.{spot_cell};
ghost use Rattle.arena_rules.specs.Player.{opening_player, body_at_home, turned_to, alive, stands_in, is_held, holder, is_live, struck, with_gain, with_loss};
ghost use Rattle.arena_rules.specs.Pickup.{given};
ghost use Rattle.arena_rules.specs.Command.{live_of};
ghost use Rattle.arena_rules.specs.Kept.{place_number};

use crate::limits::{
    AMMO_AT_HOME, AMMO_OF_A_PICKUP, BEATS_DEAD, GREATEST_SCORE, LEAST_SCORE, MOST_AMMO, MOST_HEALTH,
};
use crate::number::{NOWHERE, spot_number};
use match_setup::{Face, Kind, Spot};
use tss_base::NoMemory;
use tss_io::{Word, push_line};

/// A live player's body.
#[derive(Clone, Copy, Debug, Default, PartialEq, Eq)]
pub struct Body {
    /// Where the player stands, and the facing.
    pub spot: Spot,
    /// From 1 to 3.
    pub health: u8,
    /// From 0 to 9.
    pub ammo: u8,
}

impl Body {
    /// A body in its home cell, with the home's facing, 3 points of health and 5 of ammunition.
    pub fn at_home(home: Spot) -> Body
        ensures { result ≡ body_at_home home }
    {
        Body {
            spot: home,
            health: MOST_HEALTH,
            ammo: AMMO_AT_HOME,
        }
    }

    /// The body turned to this facing, in the same cell.
    pub fn turned_to(self, face: Face) -> Body
        ensures { result ≡ turned_to self face }
    {
        Body {
            spot: Spot { face, ..self.spot },
            ..self
        }
    }
}

/// Whether a player is live or dead.
#[derive(Clone, Copy, Debug, PartialEq, Eq)]
pub enum State {
    Live(Body),
    /// Dead for at least this number of further beats, from 0 to 10.
    Dead { wait: u8 },
}

impl Default for State {
    fn default() -> State {
        State::Dead { wait: 0 }
    }
}

/// A player of the arena.
#[derive(Clone, Copy, Debug, Default, PartialEq, Eq)]
pub struct Player {
    /// Where the player starts and returns to, and the facing there.
    pub home: Spot,
    /// From -1,000,000 to 1,000,000.
    pub score: i32,
    pub state: State,
}

impl Player {
    /// A player as the match begins.
    pub fn at_home(home: Spot) -> Player
        ensures { result ≡ opening_player home }
    {
        Player {
            home,
            score: 0,
            state: State::Live(Body::at_home(home)),
        }
    }

    /// The player in this body, with home and score as before.
    pub fn with_body(self, body: Body) -> Player
        ensures { result ≡ alive self body }
    {
        Player {
            state: State::Live(body),
            ..self
        }
    }

    /// The player and the body, where the player is live.
    pub fn live(&self) -> Option<(Player, Body)>
        ensures { result ≡ live_of (Some self.now) }
    {
        match self.state {
            State::Live(body) => Some((*self, body)),
            State::Dead { .. } => None,
        }
    }

    /// Whether the player is live, and not waiting to return.
    pub fn is_live(&self) -> bool
        ensures { result ≡ is_live self.now }
    {
        matches!(self.state, State::Live(_))
    }

    /// The number of the cell in which a live player stands, and of none for a dead one.
    pub fn place_number(&self) -> u16
        ensures { result ≡ place_number self.now.state }
    {
        match self.state {
            State::Live(body) => spot_number(body.spot),
            State::Dead { .. } => NOWHERE,
        }
    }

    /// Whether the player is live and stands in the cell of this spot.
    pub fn stands_in(&self, spot: Spot) -> bool
        ensures { result ≡ stands_in (spot_cell spot) self.now }
    {
        match self.state {
            State::Live(body) => spot.x == body.spot.x && spot.y == body.spot.y,
            State::Dead { .. } => false,
        }
    }

    /// Appends the player's line: a live one's name, cell, facing, health, ammunition and score, a
    /// dead one's name, wait and score. On `NoMemory` `out` is unchanged.
    #[tactic(auto, unfolding(crate::specs::Block::state_line))]
    pub fn push_line(&self, name: &[u8], out: &mut Vec<u8>) -> Result<(), NoMemory>
        ensures ok { OnOk result (out.new.items ≡ out.old.items ++ state_line name.now self.now) }
        ensures err { OnErr result (out.new.items ≡ out.old.items) }
    {
        let score = Word::Number(i64::from(self.score));
        match self.state {
            State::Live(body) => {
                let words = [
                    Word::Text(b"live"),
                    Word::Text(name),
                    Word::Number(i64::from(body.spot.x)),
                    Word::Number(i64::from(body.spot.y)),
                    Word::Text(body.spot.face.word()),
                    Word::Number(i64::from(body.health)),
                    Word::Number(i64::from(body.ammo)),
                    score,
                ];
                push_line(out, &words)
            }
            State::Dead { wait } => {
                let words = [
                    Word::Text(b"dead"),
                    Word::Text(name),
                    Word::Number(i64::from(wait)),
                    score,
                ];
                push_line(out, &words)
            }
        }
    }

    /// The player of this body, after taking a pickup of this kind, if there is one.
    pub fn given(self, body: Body, kind: Option<Kind>) -> Player
        ensures { result ≡ given self body kind }
    {
        match kind {
            None => self.with_body(body),
            Some(Kind::Ammo) => self.with_body(Body {
                ammo: body.ammo.saturating_add(AMMO_OF_A_PICKUP).min(MOST_AMMO),
                ..body
            }),
            Some(Kind::Heal) => self.with_body(Body {
                health: body.health.saturating_add(1).min(MOST_HEALTH),
                ..body
            }),
            Some(Kind::Gold) => self.with_gain().with_body(body),
        }
    }

    /// The player after a shot hit: at health 0 dead.
    pub fn struck(self) -> Player
        ensures { result ≡ struck self }
    {
        let State::Live(body) = self.state else {
            return self;
        };
        let health = body.health.saturating_sub(1);
        let state = if health == 0 {
            State::Dead { wait: BEATS_DEAD }
        } else {
            State::Live(Body { health, ..body })
        };
        Player { state, ..self }
    }

    /// The player with one point more, at most 1,000,000.
    pub fn with_gain(self) -> Player
        ensures { result ≡ with_gain self }
    {
        let score = if self.score < GREATEST_SCORE {
            self.score + 1
        } else {
            self.score
        };
        Player { score, ..self }
    }

    /// The player with one point less, at least -1,000,000.
    pub fn with_loss(self) -> Player
        ensures { result ≡ with_loss self }
    {
        let score = if LEAST_SCORE < self.score {
            self.score - 1
        } else {
            self.score
        };
        Player { score, ..self }
    }
}

/// Whether a live player stands in the cell of this spot.
#[tactic(auto, unfolding(crate::specs::Player::is_held))]
pub fn is_held(players: &[Player], spot: Spot) -> bool
    ensures { result ≡ is_held players.now (spot_cell spot) }
{
    players.iter().any(|p| p.stands_in(spot))
}

/// The number of the live player who stands in the cell of this spot.
pub fn holder(players: &[Player], spot: Spot) -> Option<usize>
    ensures { result ≡ holder players.now (spot_cell spot) }
{
    players.iter().position(|p| p.stands_in(spot))
}
