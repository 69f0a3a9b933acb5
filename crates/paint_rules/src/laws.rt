//! What commands and beats leave as it is, and whose a cell may become. Each law is the contract of
//! a function without parameters that does nothing.

ghost use Rattle.std.specs.Prelude.{◌≡◌, ◌==◌, ◌<◌, ◌≤◌, ◌⊎◌, ℕ, true, false, length, map, flat_map, slice_get, slice_index_or, All};
ghost use Rattle.std.specs.List.{AllByRecursion, IsDistinct, list_any, range_with_len};
ghost use Rattle.game_trait.specs.declared.command.Command.{Command};
ghost use Rattle.game_trait.specs.Count.{times};
ghost use Rattle.game_trait.specs.declared.limits.TheConstants.{MOST_PLAYERS, MOST_PICKUPS};
ghost use Rattle.match_setup.specs.Ground.{IsGrid, is_open};
ghost use Rattle.match_setup.specs.Setup.{Cell, same_cell, spot_cell, pickup_cell};
ghost use Rattle.match_setup.specs.declared.pickup.PickupSpot.{PickupSpot};
ghost use Rattle.paint_rules.specs.World.{PaintWorld, IsPaintWorld};
ghost use Rattle.paint_rules.specs.Owners.{nobody, owner_of, owned};
ghost use Rattle.paint_rules.specs.Block.{owner_byte, row_word};
ghost use Rattle.paint_rules.specs.Command.{applied};
ghost use Rattle.paint_rules.specs.Beat.{beaten};

/// A command changes neither the ground nor the pickups nor the time. Nobody comes or goes, and
/// every player but the one who acts stays in the cell and looks where they did.
pub fn a_command_leaves_the_others()
    ensures ground { (world : PaintWorld) (x : Command) → (applied world x).grid ≡ world.grid }
    ensures pickups { (world : PaintWorld) (x : Command)
        → (applied world x).pickups ≡ world.pickups }
    ensures time { (world : PaintWorld) (x : Command) → (applied world x).time ≡ world.time }
    ensures as_many { (world : PaintWorld) (x : Command)
        → length (applied world x).players ≡ length world.players }
    ensures others { (world : PaintWorld) (x : Command) (k : ℕ) → (k ≡ x.player → ⊥)
        → slice_get (applied world x).players k ≡ slice_get world.players k }
{}

/// A command paints for the player who acts: a cell stays whose it was, or becomes that player's.
pub fn a_command_paints_for_its_player()
    ensures { (world : PaintWorld) (x : Command) (cell : Cell)
        → (owner_of (applied world x).owners cell ≡ owner_of world.owners cell)
        ⊎ (owner_of (applied world x).owners cell ≡ x.player) }
{}

/// After a beat the cells of the pickups are nobody's, and every other cell stays whose it was. No
/// player moves or turns.
pub fn a_beat_wipes_the_pickups()
    ensures pickups { (world : PaintWorld) (k : ℕ) (d : PickupSpot) → k < length world.pickups
        → owner_of (beaten world).owners (pickup_cell (slice_index_or world.pickups k d))
        ≡ nobody }
    ensures others { (world : PaintWorld) (cell : Cell) → IsPaintWorld world → cell.x < 64
        → list_any (λ p. same_cell cell (pickup_cell p)) world.pickups ≡ false
        → owner_of (beaten world).owners cell ≡ owner_of world.owners cell }
    ensures players { (world : PaintWorld) → (beaten world).players ≡ world.players }
{}

/// What a world of the game is: its grid is one of a match, at most 32 players stand in open cells,
/// no two of them in one, there are 64 rows of 64 owners, each a player's number or nobody's, what
/// isn't an open cell of the grid is nobody's, and at most 32 pickups lie in open cells. So a player
/// owns at most 4,096 cells.
pub fn what_a_world_is()
    ensures grid { (world : PaintWorld) → IsPaintWorld world → IsGrid world.grid }
    ensures players { (world : PaintWorld) → IsPaintWorld world
        → (length world.players ≤ MOST_PLAYERS)
        × AllByRecursion (λ p. is_open world.grid p.x p.y ≡ true) world.players
        × IsDistinct same_cell (map spot_cell world.players) }
    ensures owners { (world : PaintWorld) → IsPaintWorld world → (length world.owners ≡ 4096)
        × AllByRecursion (λ o. o ≤ nobody) world.owners
        × ((x y : ℕ) → x < 64 → is_open world.grid x y ≡ false
        → owner_of world.owners (record { x = x; y = y }) ≡ nobody) }
    ensures pickups { (world : PaintWorld) → IsPaintWorld world
        → (length world.pickups ≤ MOST_PICKUPS)
        × All (λ p. is_open world.grid p.x p.y ≡ true) world.pickups }
    ensures cells { (world : PaintWorld) (player : ℕ) → IsPaintWorld world
        → owned player world.owners ≤ 4096 }
{}

/// A player owns as many cells as the words of the rows have letters of that player, who is one of
/// 32.
pub fn a_players_cells_are_their_letters()
    ensures { (world : PaintWorld) (player : ℕ) → IsPaintWorld world → player < 32
        → owned player world.owners
        ≡ times (λ b. b == owner_byte player)
        (flat_map (row_word world.grid world.owners) (range_with_len 0 world.grid.height)) }
{}
