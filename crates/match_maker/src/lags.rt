//! How long each command is on its way to each mirror.

ghost use Rattle.std.specs.Prelude.{◌≡◌, ◌+◌, ◌*◌, ◌<◌, map, IfOk};
ghost use Rattle.match_maker.specs.Below.{each_below};
ghost use Rattle.match_maker.specs.Generator.{lag, draws_before_lag};

use crate::draws::Draws;
use arrayvec::ArrayVec;
use game_trait::MirrorId;
use std::marker::Model;

/// How many ticks a command is on its way to each mirror.
pub type Row = ArrayVec<u8, 8>;

/// How many ticks each command is on its way to each mirror. Contracts see the number that makes
/// the match.
#[derive(Drop)]
pub struct Lags {
    seed: u32,
    rows: Vec<Row>,
}

impl Model for Lags {
    ghost use Rattle.std.specs.Prelude.{ℕ, ◌≡◌, map};
    ghost use Rattle.match_maker.specs.Below.{each_below};
    ghost use Rattle.match_maker.specs.Generator.{lag};

    ghost Value = { ℕ };

    ghost view = { λ l. l.seed };

    ghost invariant = { λ l. map (λ row. row.items) l.rows.items
        ≡ each_below (λ j. each_below (lag l.seed j) 8) 4096 };
}

impl Lags {
    /// The lags of all commands of the match that this number makes.
    pub fn of(seed: u32, rows: Vec<Row>) -> Lags
        requires { map (λ row. row.items) rows.items
            ≡ each_below (λ j. each_below (lag seed j) 8) 4096 }
        ensures { result ≡ seed }
    {
        Lags { seed, rows }
    }

    /// The lag of a command at a mirror, in ticks.
    pub fn at(&self, place: u32, mirror: MirrorId) -> u32
        requires place { place < 4096 }
        requires mirror { mirror < 8 }
        ensures lag { result ≡ lag self.now place mirror }
        ensures short { result < 32 }
    {
        u32::from(self.rows[place as usize][usize::from(mirror)])
    }
}

// Draws the lag of a command at a mirror: none at the command's own.
#[tactic(auto, unfolding(crate::specs::Generator::lag))]
fn draw_lag(draws: &mut Draws, place: u32, mirror: MirrorId) -> u8
    requires place { place < 4096 }
    requires mirror { mirror < 8 }
    requires count { draws.old.count ≡ draws_before_lag place mirror }
    ensures lag { result ≡ lag draws.old.seed place mirror }
    ensures seed { draws.new.seed ≡ draws.old.seed }
    ensures count { draws.new.count ≡ draws_before_lag place (mirror + 1) }
{
    if u32::from(mirror) == place % 8 {
        0
    } else {
        draws.draw(32) as u8
    }
}

/// Draws the lags of a command.
#[tactic(auto, using(crate::proofs::Lists::joined_more, crate::proofs::Lists::joined_none))]
pub fn draw_row(draws: &mut Draws, place: u32) -> Row
    requires place { place < 4096 }
    requires count { draws.old.count ≡ 9 * place + 2 }
    ensures lags { result.items ≡ each_below (lag draws.old.seed place) 8 }
    ensures seed { draws.new.seed ≡ draws.old.seed }
    ensures count { draws.new.count ≡ 9 * place + 9 }
{
    let mut row = Row::new();
    for mirror in 0..8 {
        row.push(draw_lag(draws, place, mirror));
    }
    row
}
