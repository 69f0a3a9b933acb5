//! The game of painting: a world that commands and beats change, and that a block shows.

ghost use Rattle.std.specs.Prelude.{◌≡◌, ℕ, ◌<◌, ◌≤◌, ◌++◌, false, length, take, OnOk, OnSome, slice_get, slice_index_or};
ghost use Rattle.match_setup.specs.Setup.{layout_of, IsLayout, spot_cell};
ghost use Rattle.match_setup.specs.Facing.{turned_left, turned_right};
ghost use Rattle.match_setup.specs.declared.spot.Spot.{Spot as ASpot};
ghost use Rattle.paint_rules.specs.Owners.{nobody, owner_of, owned};
ghost use Rattle.paint_rules.specs.Scene.{opening};
ghost use Rattle.paint_rules.specs.World.{IsPaintWorld};
ghost use Rattle.paint_rules.specs.Command.{is_held, turned, moved, shot, applied};
ghost use Rattle.paint_rules.specs.Beat.{beaten};
ghost use Rattle.paint_rules.specs.Block.{block_of};

use crate::block::{push_painters, push_rows};
use crate::board::Board;
use crate::cells::Cells;
use crate::painting::{paint_ahead, settle};
use crate::players::{is_held, put};
use arrayvec::ArrayVec;
use game_trait::limits::MOST_PLAYERS;
use game_trait::{Act, Command, Game, Tick};
use match_setup::{Ground, Roster, Setup, Shown, Spot, copied, copy_into};
use std::marker::Model;
use tss_base::NoMemory;

/// A world of the game: its ground, the cell and facing of each player, who owns each cell, where
/// pickups lie, and the time. It has a fixed size.
#[derive(Debug, Drop)]
pub struct Paint {
    ground: Ground,
    players: ArrayVec<Spot, MOST_PLAYERS>,
    board: Board,
    time: Tick,
}

impl Model for Paint {
    ghost use Rattle.paint_rules.specs.World.{PaintWorld, IsPaintWorld};

    ghost Value = { PaintWorld };

    ghost view = { λ p.
        record {
          grid = p.ground;
          players = p.players.items;
          owners = p.board.owners;
          pickups = p.board.pickups;
          time = p.time;
        } };

    ghost invariant = { λ p. IsPaintWorld
        (record {
          grid = p.ground;
          players = p.players.items;
          owners = p.board.owners;
          pickups = p.board.pickups;
          time = p.time;
        }) };
}

impl Paint {
    /// The world as a match of this setup begins: every player is at home and owns the home cell,
    /// all else is nobody's, and the time is 0. The setup must be one that a match text can give.
    /// It takes no memory.
    pub fn start(setup: &Setup) -> Paint
        requires { IsLayout (layout_of setup.now) }
        ensures opening { result ≡ opening (layout_of setup.now) }
        ensures homes { (k : ℕ) → (d : ASpot) → k < length result.players
            → owner_of result.owners (spot_cell (slice_index_or result.players k d)) ≡ k }
        ensures others { (x y : ℕ) → x < 64
            → is_held result.players (record { x = x; y = y }) ≡ false
            → owner_of result.owners (record { x = x; y = y }) ≡ nobody }
    {
        let mut cells = Cells::unowned();
        settle(&mut cells, &setup.players);
        Paint {
            ground: setup.ground,
            players: copied(&setup.players),
            board: Board::new(cells, &setup.pickups),
            time: 0,
        }
    }

    /// What always holds of a world: each player stands in an open cell of their own, there are 64
    /// rows of 64 owners, of whom each is a player's number or 32, and what isn't in the grid, or is
    /// walled, is nobody's. It does nothing.
    pub fn always(&self)
        ensures { IsPaintWorld self.now }
    {
        // Reads the world, whose invariant this is.
        let _ = &self.time;
    }

    /// How many cells the player of this number owns, from 0 to 4,096. The number is counted from
    /// 0, and the player must be there.
    pub fn cells(&self, player: u8) -> u32
        requires { player < length self.now.players }
        ensures count { result ≡ owned player self.now.owners }
        ensures few { result ≤ 4096 }
    {
        // Reads the world, whose invariant the answers below rest on.
        let _ = &self.time;
        self.board.cells().owned(player)
    }

    // Appends the lines after the block's head. On `NoMemory` some may have been appended.
    #[tactic(auto, unfolding(crate::specs::Block::block_of))]
    fn push_lines(&self, roster: &Roster, out: &mut Vec<u8>) -> Result<(), NoMemory>
        ensures ok { OnOk result (out.new.items ≡ out.old.items ++ block_of self.now roster.now) }
        ensures front { take (length out.old.items) out.new.items ≡ out.old.items }
    {
        let cells = self.board.cells();
        push_painters(&self.players, cells, roster, out)?;
        push_rows(&self.ground, cells, out)
    }

    // Where the player of this number stands and looks, if there is one.
    fn spot(&self, number: u8) -> Option<Spot>
        ensures spot { result ≡ slice_get self.now.players number }
        ensures there { OnSome result (number < length self.now.players) }
        ensures known { number < length self.now.players → number < 32 }
    {
        // Reads the world, whose invariant the answers below rest on.
        let _ = &self.time;
        self.players.get(number as usize).copied()
    }

    // The player of this number goes one cell ahead.
    #[tactic(auto, unfolding(crate::specs::Command::moved))]
    fn go(&mut self, number: u8)
        ensures moved { self.new ≡ moved self.old number }
    {
        let Some(spot) = self.spot(number) else {
            return;
        };
        let Some(next) = self.ground.open_ahead(spot) else {
            return;
        };
        if !is_held(&self.players, next) {
            put(&mut self.players, number, next);
            self.board.paint(next.x, next.y, number);
        }
    }

    // The player of this number turns to the left.
    fn turn_left(&mut self, number: u8)
        ensures turned { self.new ≡ turned self.old number turned_left }
    {
        if let Some(spot) = self.spot(number) {
            let face = spot.face.turned_left();
            put(&mut self.players, number, Spot { face, ..spot });
        }
    }

    // The player of this number turns to the right.
    fn turn_right(&mut self, number: u8)
        ensures turned { self.new ≡ turned self.old number turned_right }
    {
        if let Some(spot) = self.spot(number) {
            let face = spot.face.turned_right();
            put(&mut self.players, number, Spot { face, ..spot });
        }
    }

    // The player of this number shoots. It stands apart, so that the other acts are short.
    #[inline(never)]
    fn shoot(&mut self, number: u8)
        ensures shot { self.new ≡ shot self.old number }
    {
        if let Some(spot) = self.spot(number) {
            paint_ahead(&mut self.board, &self.ground, number, spot);
        }
    }
}

impl Game for Paint {
    ghost use Rattle.paint_rules.specs.World.{paint_rules};

    ghost rules = { paint_rules };

    /// A command of a player who isn't there changes nothing, nor does a step into a cell that is
    /// walled, held by another player or outside the grid.
    #[tactic(auto, unfolding(crate::specs::Command::applied))]
    fn apply(&mut self, x: &Command)
        ensures applied { self.new ≡ applied self.old x.now }
    {
        match x.act {
            Act::Go => self.go(x.player),
            Act::Left => self.turn_left(x.player),
            Act::Right => self.turn_right(x.player),
            Act::Shoot => self.shoot(x.player),
            Act::Dash => {
                self.go(x.player);
                self.go(x.player)
            }
        }
    }

    /// The cell of each pickup becomes nobody's, and the time rises by one.
    #[tactic(auto, unfolding(crate::specs::Beat::beaten))]
    fn beat(&mut self)
        ensures beaten { self.new ≡ beaten self.old }
    {
        self.board.wipe();
        self.time = self.time.saturating_add(1);
    }

    fn set_from(&mut self, other: &Self)
        ensures equal { self.new ≡ other.now }
    {
        self.ground = other.ground;
        copy_into(&mut self.players, &other.players);
        self.board.set_from(&other.board);
        self.time = other.time;
    }

    fn twin(&self) -> Self
        ensures equal { result ≡ self.now }
    {
        Paint {
            ground: self.ground,
            players: copied(&self.players),
            board: self.board.twin(),
            time: self.time,
        }
    }
}

impl Shown for Paint {
    ghost use Rattle.paint_rules.specs.Block.{block_of};

    ghost lines = { block_of };

    fn block(&self, roster: &Roster, out: &mut Vec<u8>) -> Result<(), NoMemory> {
        let length = out.len();
        match self.push_lines(roster, out) {
            Ok(()) => Ok(()),
            Err(fault) => {
                out.truncate(length);
                Err(fault)
            }
        }
    }
}
