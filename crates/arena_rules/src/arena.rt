//! The arena: a world that commands and beats change, and that a block shows.

ghost use Rattle.std.specs.Prelude.{◌≡◌, ◌↔◌, ◌<◌, ◌++◌, IsTrue, length, take, OnOk, OnSome, slice_get, option_map};
ghost use Rattle.arena_rules.specs.Block.{block_of};
ghost use Rattle.match_setup.specs.Setup.{layout_of, IsLayout};
ghost use Rattle.arena_rules.specs.Command.{live_of, with_player, arrived, turned, gone, shot_by, applied};
ghost use Rattle.match_setup.specs.Facing.{turned_left, turned_right};
ghost use Rattle.arena_rules.specs.Beat.{beaten};
ghost use Rattle.arena_rules.specs.World.{opening_world, IsWorld};

use crate::block::{push_pickups, push_players, push_shots};
use crate::pickup::Pickup;
use crate::pickups::Pickups;
use crate::player::{Body, Player};
use crate::players::Players;
use crate::returning::return_all;
use crate::shot::{Shot, fly_shots};
use arrayvec::ArrayVec;
use game_trait::limits::MOST_SHOTS;
use game_trait::{Act, Command, Game, Tick};
use match_setup::{Ground, Roster, Setup, Shown, copy_into};
use std::marker::Model;
use tss_base::NoMemory;

/// A world of the arena: its ground, players, shots, pickups and time. No two live players ever
/// share a cell, and no live player, shot or pickup stands on a wall or outside the grid. It has a
/// fixed size.
#[derive(Debug, Drop)]
pub struct Arena {
    ground: Ground,
    players: Players,
    shots: ArrayVec<Shot, MOST_SHOTS>,
    pickups: Pickups,
    time: Tick,
}

impl Model for Arena {
    ghost use Rattle.arena_rules.specs.World.{World, IsWorld};

    ghost Value = { World };

    ghost view = { λ a.
        record {
          grid = a.ground;
          players = a.players;
          shots = a.shots.items;
          pickups = a.pickups;
          time = a.time;
        } };

    ghost invariant = { λ a. IsWorld
        (record {
          grid = a.ground;
          players = a.players;
          shots = a.shots.items;
          pickups = a.pickups;
          time = a.time;
        }) };
}

impl Arena {
    /// The world as a match of this setup begins: every player is live at home with health 3,
    /// ammunition 5 and score 0, no shot flies, every pickup lies ready, and the time is 0. The
    /// setup must be one that a match text can give. It takes no memory.
    pub fn start(setup: &Setup) -> Arena
        requires { IsLayout (layout_of setup.now) }
        ensures opening { result ≡ opening_world (layout_of setup.now) }
        ensures sound { IsWorld result }
    {
        Arena {
            ground: setup.ground,
            players: Players::all_at_home(&setup.players),
            shots: ArrayVec::new(),
            pickups: Pickups::all_ready(&setup.pickups),
            time: 0,
        }
    }

    /// The number of ticks that have ended, which stays at 4,294,967,295 once there.
    pub fn time(&self) -> Tick
        ensures value { result ≡ self.now.time }
        ensures sound { IsWorld self.now }
    {
        self.time
    }

    /// The score of the player of this number, counted from 0, who must be there: from -1,000,000
    /// to 1,000,000.
    pub fn score(&self, player: u8) -> i32
        requires { player < length self.now.players }
        ensures { option_map (λ p. p.score) (slice_get self.now.players player) ≡ Some result }
    {
        self.players.at(player as usize).score
    }

    /// Whether the other world is the same: ground, players, shots, pickups and time.
    pub fn same(&self, other: &Arena) -> bool
        ensures { IsTrue result ↔ (self.now ≡ other.now) }
    {
        self.time == other.time
            && self.ground == other.ground
            && are_same_players(self.players.as_slice(), other.players.as_slice())
            && are_same_shots(&self.shots, &other.shots)
            && are_same_pickups(&self.pickups.list(), &other.pickups.list())
    }

    // Appends the lines after the block's head. On `NoMemory` some may have been appended.
    #[tactic(auto, unfolding(crate::specs::Block::block_of))]
    fn push_lines(&self, roster: &Roster, out: &mut Vec<u8>) -> Result<(), NoMemory>
        ensures ok { OnOk result (out.new.items ≡ out.old.items ++ block_of self.now roster.now) }
        ensures front { take (length out.old.items) out.new.items ≡ out.old.items }
    {
        push_players(self.players.as_slice(), roster, out)?;
        push_shots(&self.shots, roster, out)?;
        push_pickups(&self.pickups.list(), out)
    }

    // The player of this number and the body, where the player is there and live.
    fn live(&self, number: u8) -> Option<(Player, Body)>
        ensures live { result ≡ live_of (slice_get self.now.players number) }
        ensures there { OnSome result (number < length self.now.players) }
        ensures sound { IsWorld self.now }
    {
        match self.players.as_slice().get(number as usize) {
            Some(player) => player.live(),
            None => None,
        }
    }

    // Puts a player in the place of the one of this number.
    fn put(&mut self, number: u8, player: Player)
        requires there { number < length self.old.players }
        requires sound { IsWorld (with_player self.old number player) }
        ensures put { self.new ≡ with_player self.old number player }
    {
        self.players.put(number as usize, player);
    }

    // The player of this number, who has this body, comes to this spot, and takes what lies ready
    // there.
    fn arrive(&mut self, number: u8, player: Player, body: Body)
        requires there { number < length self.old.players }
        requires sound { IsWorld (arrived self.old number player body) }
        ensures arrived { self.new ≡ arrived self.old number player body }
    {
        let kind = self.pickups.ready_kind(body.spot);
        self.players.put(number as usize, player.given(body, kind));
        self.pickups.take(body.spot, kind);
    }

    // A player goes one cell ahead.
    #[tactic(auto, unfolding(crate::specs::Command::gone))]
    fn go(&mut self, number: u8)
        ensures gone { self.new ≡ gone self.old number }
    {
        let Some((player, body)) = self.live(number) else {
            return;
        };
        let Some(spot) = self.ground.open_ahead(body.spot) else {
            return;
        };
        if !self.players.is_held(spot) {
            self.arrive(number, player, Body { spot, ..body });
        }
    }

    // A player turns to the left.
    fn turn_left(&mut self, number: u8)
        ensures turned { self.new ≡ turned self.old number turned_left }
    {
        if let Some((player, body)) = self.live(number) {
            let face = body.spot.face.turned_left();
            self.put(number, player.with_body(body.turned_to(face)));
        }
    }

    // A player turns to the right.
    fn turn_right(&mut self, number: u8)
        ensures turned { self.new ≡ turned self.old number turned_right }
    {
        if let Some((player, body)) = self.live(number) {
            let face = body.spot.face.turned_right();
            self.put(number, player.with_body(body.turned_to(face)));
        }
    }

    // A player shoots.
    fn shoot(&mut self, number: u8)
        ensures shot { self.new ≡ shot_by self.old number }
    {
        let Some((player, body)) = self.live(number) else {
            return;
        };
        if body.ammo == 0 || self.shots.is_full() {
            return;
        }
        let ammo = body.ammo - 1;
        let after = player.with_body(Body { ammo, ..body });
        self.players.put(number as usize, after);
        self.shots.push(Shot::fired(number, body.spot));
    }
}

impl Game for Arena {
    ghost use Rattle.arena_rules.specs.World.{arena_rules};

    ghost rules = { arena_rules };

    /// A command of a player who isn't there or is dead changes nothing, nor does a step into a
    /// cell that is walled, held by another live player or outside the grid, nor a shot without
    /// ammunition or beside 64 others.
    #[tactic(auto, unfolding(crate::specs::Command::applied))]
    fn apply(&mut self, x: &Command)
        ensures applied { self.new ≡ applied self.old x.now }
        ensures sound { IsWorld self.new }
    {
        // Reads the world, whose invariant the answers below rest on.
        let _ = &self.time;
        match x.act {
            Act::Go => self.go(x.player),
            Act::Left => self.turn_left(x.player),
            Act::Right => self.turn_right(x.player),
            Act::Shoot => self.shoot(x.player),
            Act::Dash => {
                self.go(x.player);
                self.go(x.player)
            }
        }
    }

    /// The shots fly, the dead wait and return, the pickups wait, and the time rises by one.
    fn beat(&mut self)
        ensures beaten { self.new ≡ beaten self.old }
        ensures sound { IsWorld self.new }
    {
        fly_shots(&self.ground, &mut self.players, &mut self.shots);
        return_all(&mut self.players);
        self.pickups.wait();
        self.time = self.time.saturating_add(1);
    }

    fn set_from(&mut self, other: &Self)
        ensures equal { self.new ≡ other.now }
        ensures sound { IsWorld self.new }
    {
        self.ground = other.ground;
        self.players.set_from(&other.players);
        copy_into(&mut self.shots, &other.shots);
        self.pickups.set_from(&other.pickups);
        self.time = other.time;
    }

    fn twin(&self) -> Self
        ensures equal { result ≡ self.now }
        ensures sound { IsWorld result }
    {
        Arena {
            ground: self.ground,
            players: self.players.twin(),
            shots: self.shots.clone().unwrap(),
            pickups: self.pickups.twin(),
            time: self.time,
        }
    }
}

impl Shown for Arena {
    ghost use Rattle.arena_rules.specs.Block.{block_of};

    ghost lines = { block_of };

    fn block(&self, roster: &Roster, out: &mut Vec<u8>) -> Result<(), NoMemory> {
        let length = out.len();
        match self.push_lines(roster, out) {
            Ok(()) => Ok(()),
            Err(fault) => {
                out.truncate(length);
                Err(fault)
            }
        }
    }
}

fn are_same_players(a: &[Player], b: &[Player]) -> bool
    ensures { IsTrue result ↔ (a.now ≡ b.now) }
{
    a == b
}

fn are_same_shots(a: &[Shot], b: &[Shot]) -> bool
    ensures { IsTrue result ↔ (a.now ≡ b.now) }
{
    a == b
}

fn are_same_pickups(a: &[Pickup], b: &[Pickup]) -> bool
    ensures { IsTrue result ↔ (a.now ≡ b.now) }
{
    a == b
}
