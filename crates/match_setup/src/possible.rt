//! Layouts that can be, at every bound, and others that can't: one for each part of what they must be.

ghost use Rattle.std.specs.Prelude.{[], ◌∷◌};
ghost use Rattle.match_setup.specs.declared.face.Face.TheVariants.{N, E, S};
ghost use Rattle.match_setup.specs.declared.pickup.Kind.TheVariants.{Heal, Gold};
ghost use Rattle.match_setup.specs.Ground.{open_grid, with_wall};
ghost use Rattle.match_setup.specs.Setup.{IsLayout};
ghost use Rattle.match_setup.specs.Worked.{at, layout, lying, side_by_side, on_ground};

/// The largest grid and the smallest; as many pickups and players as can be.
pub fn layouts()
    ensures small { IsLayout (on_ground (open_grid 3 1)) }
    ensures large { IsLayout (on_ground (open_grid 64 64)) }
    ensures walled { IsLayout (layout (lying 5 2 Gold ∷ []) (at 7 2 E ∷ [])) }
    ensures full { IsLayout (side_by_side 32 32) }
{}

/// Sides out of range, and a wall outside the grid.
pub fn no_grounds()
    ensures narrow { ¬ IsLayout (on_ground (open_grid 2 1)) }
    ensures wide { ¬ IsLayout (on_ground (open_grid 65 1)) }
    ensures flat { ¬ IsLayout (on_ground (open_grid 3 0)) }
    ensures high { ¬ IsLayout (on_ground (open_grid 3 65)) }
    ensures wall_outside { ¬ IsLayout (on_ground (with_wall (open_grid 12 4) 12 1)) }
{}

/// Too many or too few, two in one cell, and someone or something on a wall or outside.
pub fn no_layouts()
    ensures nobody { ¬ IsLayout (side_by_side 1 0) }
    ensures players { ¬ IsLayout (side_by_side 0 33) }
    ensures pickups { ¬ IsLayout (side_by_side 33 1) }
    ensures two_players { ¬ IsLayout (layout [] (at 4 1 N ∷ at 4 1 S ∷ [])) }
    ensures two_pickups { ¬ IsLayout
        (layout (lying 4 1 Gold ∷ lying 4 1 Heal ∷ []) (at 5 1 S ∷ [])) }
    ensures player_and_pickup { ¬ IsLayout (layout (lying 4 1 Gold ∷ []) (at 4 1 S ∷ [])) }
    ensures player_on_wall { ¬ IsLayout (layout [] (at 6 2 S ∷ [])) }
    ensures pickup_on_wall { ¬ IsLayout (layout (lying 6 2 Gold ∷ []) (at 4 1 S ∷ [])) }
    ensures player_outside { ¬ IsLayout (layout [] (at 12 1 S ∷ [])) }
    ensures pickup_outside { ¬ IsLayout (layout (lying 4 4 Gold ∷ []) (at 4 1 S ∷ [])) }
{}
