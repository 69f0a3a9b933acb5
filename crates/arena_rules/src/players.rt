//! The players of a world, and the cells that they hold.

ghost use Rattle.std.specs.Prelude.{◌≡◌, ◌<◌, ◌≤◌, ◌++◌, [], ◌∷◌, true, false, map, length, slice_set, slice_index_or};
ghost use Rattle.std.specs.List.{list_all};
ghost use Rattle.game_trait.specs.declared.limits.TheConstants.{MOST_PLAYERS};
ghost use Rattle.match_setup.specs.Setup.{spot_cell};
ghost use Rattle.arena_rules.specs.Player.{opening_player, is_held, holder, is_live};
ghost use Rattle.arena_rules.specs.declared.player.Player.{Player as APlayer};

use crate::number::{NOWHERE, UNUSED, has_number, spot_number};
use crate::player::{Player, holder, is_held};
use arrayvec::ArrayVec;
use game_trait::limits::MOST_PLAYERS;
use match_setup::{Spot, copy_into};
use std::marker::Model;

/// The players of a world in order. The number of each one's cell is kept beside them, so that one
/// pass over numbers tells of most cells that nobody stands there. Contracts see the list of the
/// players.
#[derive(Debug, Drop)]
pub struct Players {
    list: ArrayVec<Player, MOST_PLAYERS>,
    numbers: [u16; MOST_PLAYERS],
    // whether somebody may be dead
    may_be_dead: bool,
}

impl Model for Players {
    ghost use Rattle.std.specs.Prelude.{List};
    ghost use Rattle.arena_rules.specs.declared.player.Player.{Player};
    ghost use Rattle.arena_rules.specs.Kept.{AreNumbered};

    ghost Value = { List Player };

    ghost view = { λ p. p.list.items };

    ghost invariant = { λ p. AreNumbered p.list.items p.numbers p.may_be_dead };
}

impl Players {
    /// The players as the match begins: one for each home, live there.
    pub fn all_at_home(homes: &[Spot]) -> Players
        requires { length homes.now ≤ MOST_PLAYERS }
        ensures { result ≡ map opening_player homes.now }
    {
        let mut players = Players {
            list: ArrayVec::new(),
            numbers: [UNUSED; MOST_PLAYERS],
            may_be_dead: false,
        };
        for home in homes {
            players.push(Player::at_home(*home));
        }
        players
    }

    // Appends a player, where there is room.
    fn push(&mut self, player: Player)
        requires { length self.old < MOST_PLAYERS }
        ensures { self.new ≡ self.old ++ player ∷ [] }
    {
        self.numbers[self.list.len()] = player.place_number();
        self.may_be_dead |= !player.is_live();
        self.list.push(player);
    }

    /// The players in order.
    pub fn as_slice(&self) -> &[Player]
        ensures { result.now ≡ self.now }
    {
        &self.list
    }

    /// How many there are.
    pub fn len(&self) -> usize
        ensures { result ≡ length self.now }
    {
        self.list.len()
    }

    /// The player of this number, counted from 0, who is there.
    pub fn at(&self, number: usize) -> Player
        requires { number < length self.now }
        ensures { (d : APlayer) → result ≡ slice_index_or self.now number d }
    {
        self.list[number]
    }

    /// Puts a player in the place of the one of this number, who is there.
    pub fn put(&mut self, number: usize, player: Player)
        requires { number < length self.old }
        ensures { self.new ≡ slice_set self.old number player }
    {
        self.list[number] = player;
        self.numbers[number] = player.place_number();
        self.may_be_dead |= !player.is_live();
    }

    // Whether the number of this cell is among the players' numbers.
    fn is_numbered(&self, spot: Spot) -> bool
        ensures { result ≡ false → is_held self.now (spot_cell spot) ≡ false }
    {
        has_number(&self.numbers, spot_number(spot))
    }

    /// Whether a live player stands in the cell of this spot.
    pub fn is_held(&self, spot: Spot) -> bool
        ensures { result ≡ is_held self.now (spot_cell spot) }
    {
        self.is_numbered(spot) && is_held(&self.list, spot)
    }

    /// The number of the live player who stands in the cell of this spot.
    pub fn holder(&self, spot: Spot) -> Option<usize>
        ensures { result ≡ holder self.now (spot_cell spot) }
    {
        if !self.is_numbered(spot) {
            return None;
        }
        holder(&self.list, spot)
    }

    /// Whether it is seen at once that the player of this number, who is there, is live.
    pub fn is_live_at(&self, number: usize) -> bool
        requires { number < length self.now }
        ensures { (d : APlayer) → result ≡ true
            → is_live (slice_index_or self.now number d) ≡ true }
    {
        let _ = self.list.len();
        self.numbers[number] != NOWHERE
    }

    /// Whether it is seen at once that all are live.
    pub fn are_live(&self) -> bool
        ensures { result ≡ true → list_all is_live self.now ≡ true }
    {
        !self.may_be_dead
    }

    /// Sees again whether all are live, after some came back.
    pub fn look_for_dead(&mut self)
        ensures { self.new ≡ self.old }
    {
        self.may_be_dead = has_number(&self.numbers, NOWHERE);
    }

    /// Makes them the same as others.
    pub fn set_from(&mut self, other: &Players)
        ensures { self.new ≡ other.now }
    {
        copy_into(&mut self.list, &other.list);
        self.numbers = other.numbers;
        self.may_be_dead = other.may_be_dead;
    }

    /// Others that are the same.
    pub fn twin(&self) -> Players
        ensures { result ≡ self.now }
    {
        Players {
            list: self.list.clone().unwrap(),
            numbers: self.numbers,
            may_be_dead: self.may_be_dead,
        }
    }
}
