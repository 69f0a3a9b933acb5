//! The worked worlds: what commands and beats make of small worlds, computed.

ghost use Rattle.std.specs.Prelude.{◌≡◌, [], ◌∷◌, codes, flat_map};
ghost use Rattle.tss_io.specs.Lines.{as_line};
ghost use Rattle.game_trait.specs.declared.command.Act.{Act};
ghost use Rattle.game_trait.specs.declared.command.Act.TheVariants.{Go, Left, Right, Shoot, Dash};
ghost use Rattle.match_setup.specs.Worked.{yard, at, by, layout};
ghost use Rattle.match_setup.specs.declared.face.Face.TheVariants.{N, E, S, W};
ghost use Rattle.paint_rules.specs.Owners.{unowned, nobody, owned};
ghost use Rattle.paint_rules.specs.Scene.{opening};
ghost use Rattle.paint_rules.specs.Command.{applied};
ghost use Rattle.paint_rules.specs.Beat.{beaten};
ghost use Rattle.paint_rules.specs.Block.{block_of};
ghost use Rattle.paint_rules.specs.Worked.{mark, two_pickups, scene, later, alone, with_bob, idle_at, patched};

/// As a match begins: each player at home and the owner of the home cell, in player order.
pub fn opening()
    ensures { opening (layout two_pickups (at 1 1 E ∷ at 9 1 S ∷ [])) ≡ record {
      grid = yard;
      players = at 1 1 E ∷ at 9 1 S ∷ [];
      owners = mark 9 1 1 (mark 1 1 0 unowned);
      pickups = two_pickups;
      time = 0;
    } }
{}

/// The four facings, turned both ways: no cell changes its owner.
pub fn turning()
    ensures left_of_n { applied (alone (at 4 1 N) unowned) (by 0 Left) ≡ alone (at 4 1 W) unowned }
    ensures left_of_w { applied (alone (at 4 1 W) unowned) (by 0 Left) ≡ alone (at 4 1 S) unowned }
    ensures left_of_s { applied (alone (at 4 1 S) unowned) (by 0 Left) ≡ alone (at 4 1 E) unowned }
    ensures left_of_e { applied (alone (at 4 1 E) unowned) (by 0 Left) ≡ alone (at 4 1 N) unowned }
    ensures right_of_n { applied (alone (at 4 1 N) unowned) (by 0 Right)
        ≡ alone (at 4 1 E) unowned }
    ensures right_of_e { applied (alone (at 4 1 E) unowned) (by 0 Right)
        ≡ alone (at 4 1 S) unowned }
    ensures right_of_s { applied (alone (at 4 1 S) unowned) (by 0 Right)
        ≡ alone (at 4 1 W) unowned }
    ensures right_of_w { applied (alone (at 4 1 W) unowned) (by 0 Right)
        ≡ alone (at 4 1 N) unowned }
{}

/// The four facings, walked: the cell that a player comes to becomes that player's, whose it was
/// before, and the cell behind stays whose it was.
pub fn going()
    ensures north { applied (alone (at 4 1 N) unowned) (by 0 Go)
        ≡ alone (at 4 0 N) (mark 4 0 0 unowned) }
    ensures east { applied (alone (at 4 1 E) unowned) (by 0 Go)
        ≡ alone (at 5 1 E) (mark 5 1 0 unowned) }
    ensures south { applied (alone (at 4 1 S) unowned) (by 0 Go)
        ≡ alone (at 4 2 S) (mark 4 2 0 unowned) }
    ensures west { applied (alone (at 4 1 W) unowned) (by 0 Go)
        ≡ alone (at 3 1 W) (mark 3 1 0 unowned) }
    ensures second_player { applied (with_bob (at 4 1 E) unowned) (by 1 Go)
        ≡ scene (at 4 1 E ∷ at 9 2 S ∷ []) (mark 9 2 1 unowned) }
    ensures taken_over { applied (with_bob (at 4 1 E) (mark 5 1 1 (mark 4 1 1 unowned))) (by 0 Go)
        ≡ with_bob (at 5 1 E) (mark 5 1 0 (mark 5 1 1 (mark 4 1 1 unowned))) }
{}

/// Where nobody goes: out of the grid, into a wall, into a player. No cell is painted then.
pub fn not_going()
    ensures north { applied (alone (at 4 0 N) unowned) (by 0 Go) ≡ alone (at 4 0 N) unowned }
    ensures east { applied (alone (at 11 1 E) unowned) (by 0 Go) ≡ alone (at 11 1 E) unowned }
    ensures south { applied (alone (at 4 3 S) unowned) (by 0 Go) ≡ alone (at 4 3 S) unowned }
    ensures west { applied (alone (at 0 1 W) unowned) (by 0 Go) ≡ alone (at 0 1 W) unowned }
    ensures wall { applied (alone (at 5 2 E) unowned) (by 0 Go) ≡ alone (at 5 2 E) unowned }
    ensures player { applied (with_bob (at 8 1 E) unowned) (by 0 Go)
        ≡ with_bob (at 8 1 E) unowned }
{}

/// Three cells ahead become the player's, by the facing, over another player, and up to a wall or
/// the grid's end: what is behind a wall stays whose it was, and so does the player's own cell.
pub fn shooting()
    ensures three { applied (alone (at 1 1 E) unowned) (by 0 Shoot)
        ≡ alone (at 1 1 E) (mark 4 1 0 (mark 3 1 0 (mark 2 1 0 unowned))) }
    ensures over_a_player { applied (with_bob (at 8 1 E) (mark 9 1 1 unowned)) (by 0 Shoot)
        ≡ with_bob (at 8 1 E) (mark 11 1 0 (mark 10 1 0 (mark 9 1 0 (mark 9 1 1 unowned)))) }
    ensures second_player { applied (with_bob (at 4 1 E) unowned) (by 1 Shoot)
        ≡ with_bob (at 4 1 E) (mark 9 3 1 (mark 9 2 1 unowned)) }
    ensures to_a_wall { applied (alone (at 4 2 E) unowned) (by 0 Shoot)
        ≡ alone (at 4 2 E) (mark 5 2 0 unowned) }
    ensures at_a_wall { applied (alone (at 7 2 W) unowned) (by 0 Shoot)
        ≡ alone (at 7 2 W) unowned }
    ensures to_the_end { applied (alone (at 4 1 N) unowned) (by 0 Shoot)
        ≡ alone (at 4 1 N) (mark 4 0 0 unowned) }
    ensures at_the_end { applied (alone (at 0 1 W) unowned) (by 0 Shoot)
        ≡ alone (at 0 1 W) unowned }
{}

/// Two cells, both painted; one where the second isn't free; none where the first isn't.
pub fn dashing()
    ensures two { applied (alone (at 3 1 E) unowned) (by 0 Dash)
        ≡ alone (at 5 1 E) (mark 5 1 0 (mark 4 1 0 unowned)) }
    ensures one { applied (alone (at 4 2 E) unowned) (by 0 Dash)
        ≡ alone (at 5 2 E) (mark 5 2 0 unowned) }
    ensures none { applied (alone (at 5 2 E) unowned) (by 0 Dash) ≡ alone (at 5 2 E) unowned }
    ensures not_over { applied (with_bob (at 8 1 E) unowned) (by 0 Dash)
        ≡ with_bob (at 8 1 E) unowned }
{}

/// A cell that another player paints counts for that player, and no more for the one before.
pub fn counting()
    ensures nobody { owned nobody unowned ≡ 4096 }
    ensures one { owned 1 (mark 4 1 1 (mark 5 1 1 unowned)) ≡ 2 }
    ensures more { owned 0 (mark 5 1 0 (mark 4 1 1 (mark 5 1 1 unowned))) ≡ 1 }
    ensures fewer { owned 1 (mark 5 1 0 (mark 4 1 1 (mark 5 1 1 unowned))) ≡ 1 }
    ensures again { owned 1 (mark 5 1 1 (mark 5 1 1 unowned)) ≡ 1 }
{}

/// Whoever isn't there does nothing.
pub fn nobody_acts()
    ensures { (act : Act)
        → applied (alone (at 4 1 N) unowned) (by 1 act) ≡ alone (at 4 1 N) unowned }
{}

/// A beat: the cells of the pickups become nobody's, also where a player stands, and no others do;
/// the time rises by one, to its last value.
pub fn beating()
    ensures pickups { beaten (alone (at 5 1 E) (mark 5 1 0 (mark 4 1 0 (mark 2 3 1 unowned))))
        ≡ later (at 5 1 E ∷ [])
        (mark 2 3 nobody (mark 5 1 nobody (mark 5 1 0 (mark 4 1 0 (mark 2 3 1 unowned))))) }
    ensures first { beaten (idle_at 0) ≡ idle_at 1 }
    ensures last { beaten (idle_at 4294967294) ≡ idle_at 4294967295 }
    ensures past { beaten (idle_at 4294967295) ≡ idle_at 4294967295 }
{}

/// The lines of a world: players, the second without a name, and rows with the first and the last
/// letters, a wall and a cell of nobody.
pub fn showing()
    ensures { block_of patched (codes "ann" ∷ [])
        ≡ flat_map as_line
        (codes "painter ann 0 0 e 2" ∷ codes "painter ? 1 0 s 1" ∷ codes "row ab.z"
        ∷ codes "row A#Fa" ∷ []) }
{}
