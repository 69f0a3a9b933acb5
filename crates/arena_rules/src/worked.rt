//! The worked worlds: what commands and beats make of small worlds, computed; and worlds and
//! layouts that can't be.

ghost use Rattle.std.specs.Prelude.{◌≡◌, pos, neg_ℤ, [], ◌∷◌, ◌++◌, replicate, codes, flat_map};
ghost use Rattle.tss_io.specs.Lines.{as_line};
ghost use Rattle.arena_rules.specs.Block.{block_of};
ghost use Rattle.game_trait.specs.declared.command.Act.{Act};
ghost use Rattle.game_trait.specs.declared.command.Act.TheVariants.{Go, Left, Right, Shoot, Dash};
ghost use Rattle.match_setup.specs.declared.face.Face.TheVariants.{N, E, S, W};
ghost use Rattle.match_setup.specs.declared.pickup.Kind.TheVariants.{Ammo, Heal, Gold};
ghost use Rattle.arena_rules.specs.Command.{applied};
ghost use Rattle.arena_rules.specs.Beat.{beaten};
ghost use Rattle.arena_rules.specs.World.{opening_world};
ghost use Rattle.match_setup.specs.Worked.{yard, at, by, layout, lying};
ghost use Rattle.arena_rules.specs.Worked.{live, dead, shot, item, scene, later, idle_at, ann_home, ann_at, alone_at, bob_home, bob_at};

/// As a match begins: players at home, pickups ready.
pub fn opening()
    ensures { opening_world
        (layout (lying 4 0 Heal ∷ lying 2 3 Gold ∷ []) (at 1 1 E ∷ at 9 1 S ∷ []))
        ≡ record {
          grid = yard;
          players =
              live (at 1 1 E) (at 1 1 E) 3 5 (pos 0) ∷ live (at 9 1 S) (at 9 1 S) 3 5 (pos 0) ∷ [];
          shots = [];
          pickups = item 4 0 Heal 0 ∷ item 2 3 Gold 0 ∷ [];
          time = 0;
        } }
{}

/// The four facings, turned both ways.
pub fn turning()
    ensures left_of_n { applied (alone_at (at 4 1 N)) (by 0 Left) ≡ alone_at (at 4 1 W) }
    ensures left_of_w { applied (alone_at (at 4 1 W)) (by 0 Left) ≡ alone_at (at 4 1 S) }
    ensures left_of_s { applied (alone_at (at 4 1 S)) (by 0 Left) ≡ alone_at (at 4 1 E) }
    ensures left_of_e { applied (alone_at (at 4 1 E)) (by 0 Left) ≡ alone_at (at 4 1 N) }
    ensures right_of_n { applied (alone_at (at 4 1 N)) (by 0 Right) ≡ alone_at (at 4 1 E) }
    ensures right_of_e { applied (alone_at (at 4 1 E)) (by 0 Right) ≡ alone_at (at 4 1 S) }
    ensures right_of_s { applied (alone_at (at 4 1 S)) (by 0 Right) ≡ alone_at (at 4 1 W) }
    ensures right_of_w { applied (alone_at (at 4 1 W)) (by 0 Right) ≡ alone_at (at 4 1 N) }
{}

/// The four facings, walked.
pub fn going()
    ensures north { applied (alone_at (at 4 1 N)) (by 0 Go) ≡ alone_at (at 4 0 N) }
    ensures east { applied (alone_at (at 4 1 E)) (by 0 Go) ≡ alone_at (at 5 1 E) }
    ensures south { applied (alone_at (at 4 1 S)) (by 0 Go) ≡ alone_at (at 4 2 S) }
    ensures west { applied (alone_at (at 4 1 W)) (by 0 Go) ≡ alone_at (at 3 1 W) }
    ensures second_player { applied
        (scene (ann_at (at 4 1 E) ∷ bob_at (at 8 1 S) 3 ∷ []) [] []) (by 1 Go)
        ≡ scene (ann_at (at 4 1 E) ∷ bob_at (at 8 2 S) 3 ∷ []) [] [] }
    ensures over_the_dead { applied
        (scene (ann_at (at 8 1 E) ∷ dead bob_home 4 (pos 0) ∷ []) [] []) (by 0 Go)
        ≡ scene (ann_at (at 9 1 E) ∷ dead bob_home 4 (pos 0) ∷ []) [] [] }
{}

/// Where nobody goes: out of the grid, into a wall, into a live player.
pub fn not_going()
    ensures north { applied (alone_at (at 4 0 N)) (by 0 Go) ≡ alone_at (at 4 0 N) }
    ensures east { applied (alone_at (at 11 1 E)) (by 0 Go) ≡ alone_at (at 11 1 E) }
    ensures south { applied (alone_at (at 4 3 S)) (by 0 Go) ≡ alone_at (at 4 3 S) }
    ensures west { applied (alone_at (at 0 1 W)) (by 0 Go) ≡ alone_at (at 0 1 W) }
    ensures wall { applied (alone_at (at 5 2 E)) (by 0 Go) ≡ alone_at (at 5 2 E) }
    ensures player { applied (scene (ann_at (at 8 1 E) ∷ bob_at (at 9 1 W) 3 ∷ []) [] []) (by 0 Go)
        ≡ scene (ann_at (at 8 1 E) ∷ bob_at (at 9 1 W) 3 ∷ []) [] [] }
{}

/// Whoever is dead or isn't there does nothing.
pub fn nobody_acts()
    ensures dead { (act : Act)
        → applied (scene (dead ann_home 4 (pos 3) ∷ []) [] []) (by 0 act)
        ≡ scene (dead ann_home 4 (pos 3) ∷ []) [] [] }
    ensures not_there { (act : Act)
        → applied (alone_at (at 4 1 N)) (by 1 act) ≡ alone_at (at 4 1 N) }
{}

/// A pickup of each kind, below its bound and at it. What lies elsewhere stays.
pub fn taking()
    ensures ammo { applied
        (scene (live ann_home (at 4 1 E) 2 4 (pos 3) ∷ []) []
        (item 5 1 Ammo 0 ∷ item 5 0 Gold 0 ∷ [])) (by 0 Go)
        ≡ scene (live ann_home (at 5 1 E) 2 8 (pos 3) ∷ []) []
        (item 5 1 Ammo 20 ∷ item 5 0 Gold 0 ∷ []) }
    ensures nine_shots { applied
        (scene (live ann_home (at 4 1 E) 2 6 (pos 3) ∷ []) [] (item 5 1 Ammo 0 ∷ [])) (by 0 Go)
        ≡ scene (live ann_home (at 5 1 E) 2 9 (pos 3) ∷ []) [] (item 5 1 Ammo 20 ∷ []) }
    ensures heal { applied
        (scene (live ann_home (at 4 1 E) 1 4 (pos 3) ∷ []) [] (item 5 1 Heal 0 ∷ [])) (by 0 Go)
        ≡ scene (live ann_home (at 5 1 E) 2 4 (pos 3) ∷ []) [] (item 5 1 Heal 20 ∷ []) }
    ensures whole { applied
        (scene (live ann_home (at 4 1 E) 3 4 (pos 3) ∷ []) [] (item 5 1 Heal 0 ∷ [])) (by 0 Go)
        ≡ scene (live ann_home (at 5 1 E) 3 4 (pos 3) ∷ []) [] (item 5 1 Heal 20 ∷ []) }
    ensures gold { applied
        (scene (live ann_home (at 4 1 E) 2 4 (pos 3) ∷ []) []
        (item 4 3 Heal 0 ∷ item 5 1 Gold 0 ∷ [])) (by 0 Go)
        ≡ scene (live ann_home (at 5 1 E) 2 4 (pos 4) ∷ []) []
        (item 4 3 Heal 0 ∷ item 5 1 Gold 20 ∷ []) }
    ensures richest { applied
        (scene (live ann_home (at 4 1 E) 2 4 (pos 1000000) ∷ []) [] (item 5 1 Gold 0 ∷ []))
        (by 0 Go) ≡ scene (live ann_home (at 5 1 E) 2 4 (pos 1000000) ∷ []) []
        (item 5 1 Gold 20 ∷ []) }
    ensures waiting { applied
        (scene (live ann_home (at 4 1 E) 2 4 (pos 3) ∷ []) [] (item 5 1 Ammo 1 ∷ [])) (by 0 Go)
        ≡ scene (live ann_home (at 5 1 E) 2 4 (pos 3) ∷ []) [] (item 5 1 Ammo 1 ∷ []) }
    ensures not_by_standing { beaten
        (scene (live ann_home (at 5 1 E) 2 4 (pos 3) ∷ []) [] (item 5 1 Ammo 1 ∷ []))
        ≡ later (live ann_home (at 5 1 E) 2 4 (pos 3) ∷ []) [] (item 5 1 Ammo 0 ∷ []) }
{}

/// A shot more is put last; not without ammunition, and not beside 64 others.
pub fn shooting()
    ensures fired { applied
        (scene (ann_at (at 4 1 S) ∷ []) (shot 0 (at 2 2 N) 3 ∷ []) []) (by 0 Shoot)
        ≡ scene (live ann_home (at 4 1 S) 2 4 (pos 3) ∷ [])
        (shot 0 (at 2 2 N) 3 ∷ shot 0 (at 4 1 S) 8 ∷ []) [] }
    ensures by_bob { applied
        (scene (ann_at (at 4 1 S) ∷ bob_at (at 8 1 W) 3 ∷ []) [] []) (by 1 Shoot)
        ≡ scene (ann_at (at 4 1 S) ∷ live bob_home (at 8 1 W) 3 4 (pos 0) ∷ [])
        (shot 1 (at 8 1 W) 8 ∷ []) [] }
    ensures last_one { applied
        (scene (live ann_home (at 4 1 S) 2 1 (pos 3) ∷ []) [] []) (by 0 Shoot)
        ≡ scene (live ann_home (at 4 1 S) 2 0 (pos 3) ∷ []) (shot 0 (at 4 1 S) 8 ∷ []) [] }
    ensures none_left { applied
        (scene (live ann_home (at 4 1 S) 2 0 (pos 3) ∷ []) [] []) (by 0 Shoot)
        ≡ scene (live ann_home (at 4 1 S) 2 0 (pos 3) ∷ []) [] [] }
    ensures beside_63 { applied
        (scene (ann_at (at 4 1 S) ∷ []) (replicate 63 (shot 0 (at 2 2 N) 3)) []) (by 0 Shoot)
        ≡ scene (live ann_home (at 4 1 S) 2 4 (pos 3) ∷ [])
        (replicate 63 (shot 0 (at 2 2 N) 3) ++ shot 0 (at 4 1 S) 8 ∷ []) [] }
    ensures beside_64 { applied
        (scene (ann_at (at 4 1 S) ∷ []) (replicate 64 (shot 0 (at 2 2 N) 3)) []) (by 0 Shoot)
        ≡ scene (ann_at (at 4 1 S) ∷ []) (replicate 64 (shot 0 (at 2 2 N) 3)) [] }
{}

/// Two cells ahead, one where the second isn't free, and none where the first isn't; what lies on
/// the way is taken.
pub fn dashing()
    ensures two { applied
        (scene (live ann_home (at 3 1 E) 2 1 (pos 3) ∷ []) []
        (item 4 1 Ammo 0 ∷ item 5 1 Gold 0 ∷ [])) (by 0 Dash)
        ≡ scene (live ann_home (at 5 1 E) 2 5 (pos 4) ∷ []) []
        (item 4 1 Ammo 20 ∷ item 5 1 Gold 20 ∷ []) }
    ensures one { applied (alone_at (at 4 2 E)) (by 0 Dash) ≡ alone_at (at 5 2 E) }
    ensures none { applied (alone_at (at 5 2 E)) (by 0 Dash) ≡ alone_at (at 5 2 E) }
    ensures not_over { applied
        (scene (ann_at (at 8 1 E) ∷ bob_at (at 9 1 W) 3 ∷ []) [] []) (by 0 Dash)
        ≡ scene (ann_at (at 8 1 E) ∷ bob_at (at 9 1 W) 3 ∷ []) [] [] }
{}

/// A shot flies a cell a beat, eight cells, until the edge or a wall; it flies over the dead and
/// over pickups.
pub fn flying()
    ensures north { beaten (scene (ann_at (at 1 1 E) ∷ []) (shot 0 (at 4 2 N) 8 ∷ []) [])
        ≡ later (ann_at (at 1 1 E) ∷ []) (shot 0 (at 4 1 N) 7 ∷ []) [] }
    ensures east { beaten (scene (ann_at (at 1 1 E) ∷ []) (shot 0 (at 4 2 E) 6 ∷ []) [])
        ≡ later (ann_at (at 1 1 E) ∷ []) (shot 0 (at 5 2 E) 5 ∷ []) [] }
    ensures south { beaten (scene (ann_at (at 1 1 E) ∷ []) (shot 0 (at 4 2 S) 2 ∷ []) [])
        ≡ later (ann_at (at 1 1 E) ∷ []) (shot 0 (at 4 3 S) 1 ∷ []) [] }
    ensures west { beaten (scene (ann_at (at 1 1 E) ∷ []) (shot 0 (at 4 2 W) 3 ∷ []) [])
        ≡ later (ann_at (at 1 1 E) ∷ []) (shot 0 (at 3 2 W) 2 ∷ []) [] }
    ensures last_cell { beaten (scene (ann_at (at 1 1 E) ∷ []) (shot 0 (at 4 2 W) 1 ∷ []) [])
        ≡ later (ann_at (at 1 1 E) ∷ []) [] [] }
    ensures wall { beaten (scene (ann_at (at 1 1 E) ∷ []) (shot 0 (at 6 1 S) 8 ∷ []) [])
        ≡ later (ann_at (at 1 1 E) ∷ []) [] [] }
    ensures edge { beaten (scene (ann_at (at 1 1 E) ∷ []) (shot 0 (at 4 0 N) 8 ∷ []) [])
        ≡ later (ann_at (at 1 1 E) ∷ []) [] [] }
    ensures the_dead { beaten
        (scene (ann_at (at 1 1 E) ∷ dead bob_home 4 (pos 0) ∷ []) (shot 0 (at 8 1 E) 8 ∷ []) [])
        ≡ later (ann_at (at 1 1 E) ∷ dead bob_home 3 (pos 0) ∷ []) (shot 0 (at 9 1 E) 7 ∷ []) [] }
    ensures pickup { beaten
        (scene (ann_at (at 1 1 E) ∷ []) (shot 0 (at 4 1 E) 8 ∷ []) (item 5 1 Gold 0 ∷ []))
        ≡ later (ann_at (at 1 1 E) ∷ []) (shot 0 (at 5 1 E) 7 ∷ []) (item 5 1 Gold 0 ∷ []) }
{}

/// A hit, a death by another's shot and by one's own, and scores at their bounds. The wait falls
/// first in the beat of the death.
pub fn hitting()
    ensures hit { beaten
        (scene (ann_at (at 1 1 E) ∷ bob_at (at 5 1 S) 3 ∷ []) (shot 0 (at 4 1 E) 1 ∷ []) [])
        ≡ later (ann_at (at 1 1 E) ∷ bob_at (at 5 1 S) 2 ∷ []) [] [] }
    ensures killed { beaten
        (scene (ann_at (at 1 1 E) ∷ bob_at (at 5 1 S) 1 ∷ []) (shot 0 (at 4 1 E) 8 ∷ []) [])
        ≡ later (live ann_home (at 1 1 E) 2 5 (pos 4) ∷ dead bob_home 9 (pos 0) ∷ []) [] [] }
    ensures by_a_dead_player { beaten
        (scene (dead ann_home 5 (pos 3) ∷ bob_at (at 5 1 S) 1 ∷ []) (shot 0 (at 4 1 E) 8 ∷ []) [])
        ≡ later (dead ann_home 4 (pos 4) ∷ dead bob_home 9 (pos 0) ∷ []) [] [] }
    ensures own_hit { beaten (scene (ann_at (at 5 1 E) ∷ []) (shot 0 (at 4 1 E) 8 ∷ []) [])
        ≡ later (live ann_home (at 5 1 E) 1 5 (pos 3) ∷ []) [] [] }
    ensures own_death { beaten
        (scene (live ann_home (at 5 1 E) 1 5 (pos 0) ∷ []) (shot 0 (at 4 1 E) 8 ∷ []) [])
        ≡ later (dead ann_home 9 (neg_ℤ (pos 1)) ∷ []) [] [] }
    ensures richest { beaten
        (scene (live ann_home (at 1 1 E) 2 5 (pos 1000000) ∷ bob_at (at 5 1 S) 1 ∷ [])
        (shot 0 (at 4 1 E) 8 ∷ []) [])
        ≡ later (live ann_home (at 1 1 E) 2 5 (pos 1000000) ∷ dead bob_home 9 (pos 0) ∷ []) [] [] }
    ensures poorest { beaten
        (scene (live ann_home (at 5 1 E) 1 5 (neg_ℤ (pos 1000000)) ∷ [])
        (shot 0 (at 4 1 E) 8 ∷ []) []) ≡ later (dead ann_home 9 (neg_ℤ (pos 1000000)) ∷ []) [] [] }
{}

/// Two shots at one player of health 1, in both orders: the first kills, and the second flies on
/// over the cell.
pub fn two_shots()
    ensures ann_first { beaten
        (scene (live ann_home (at 1 1 E) 2 5 (pos 3) ∷ bob_at (at 5 1 S) 1
        ∷ live (at 8 3 W) (at 8 3 W) 3 5 (pos 0) ∷ [])
        (shot 0 (at 4 1 E) 8 ∷ shot 2 (at 6 1 W) 6 ∷ []) [])
        ≡ later (live ann_home (at 1 1 E) 2 5 (pos 4) ∷ dead bob_home 9 (pos 0)
        ∷ live (at 8 3 W) (at 8 3 W) 3 5 (pos 0) ∷ []) (shot 2 (at 5 1 W) 5 ∷ []) [] }
    ensures cat_first { beaten
        (scene (live ann_home (at 1 1 E) 2 5 (pos 3) ∷ bob_at (at 5 1 S) 1
        ∷ live (at 8 3 W) (at 8 3 W) 3 5 (pos 0) ∷ [])
        (shot 2 (at 6 1 W) 6 ∷ shot 0 (at 4 1 E) 8 ∷ []) [])
        ≡ later (live ann_home (at 1 1 E) 2 5 (pos 3) ∷ dead bob_home 9 (pos 0)
        ∷ live (at 8 3 W) (at 8 3 W) 3 5 (pos 1) ∷ []) (shot 0 (at 5 1 E) 7 ∷ []) [] }
{}

/// The dead wait, return to a free home, and else wait for it, in player order.
pub fn returning()
    ensures waits { beaten (scene (dead ann_home 2 (pos 3) ∷ []) [] [])
        ≡ later (dead ann_home 1 (pos 3) ∷ []) [] [] }
    ensures returns { beaten (scene (dead ann_home 1 (pos 3) ∷ []) [] [])
        ≡ later (live ann_home (at 1 1 E) 3 5 (pos 3) ∷ []) [] [] }
    ensures held { beaten (scene (dead ann_home 1 (pos 3) ∷ bob_at (at 1 1 S) 2 ∷ []) [] [])
        ≡ later (dead ann_home 0 (pos 3) ∷ bob_at (at 1 1 S) 2 ∷ []) [] [] }
    ensures still_held { beaten (scene (dead ann_home 0 (pos 3) ∷ bob_at (at 1 1 S) 2 ∷ []) [] [])
        ≡ later (dead ann_home 0 (pos 3) ∷ bob_at (at 1 1 S) 2 ∷ []) [] [] }
    ensures free_again { beaten (scene (dead ann_home 0 (pos 3) ∷ bob_at (at 1 2 S) 2 ∷ []) [] [])
        ≡ later (live ann_home (at 1 1 E) 3 5 (pos 3) ∷ bob_at (at 1 2 S) 2 ∷ []) [] [] }
    ensures one_home { beaten
        (scene (dead ann_home 1 (pos 3) ∷ dead (at 1 1 N) 1 (pos 0) ∷ []) [] [])
        ≡ later (live ann_home (at 1 1 E) 3 5 (pos 3) ∷ dead (at 1 1 N) 0 (pos 0) ∷ []) [] [] }
{}

/// The shots fly before the dead return: one flies into the home, and doesn't hit who returns
/// there.
pub fn shots_before_the_dead()
    ensures { beaten
        (scene (dead ann_home 1 (pos 3) ∷ bob_at (at 8 1 W) 3 ∷ []) (shot 1 (at 2 1 W) 4 ∷ []) [])
        ≡ later (live ann_home (at 1 1 E) 3 5 (pos 3) ∷ bob_at (at 8 1 W) 3 ∷ [])
        (shot 1 (at 1 1 W) 3 ∷ []) [] }
{}

/// The pickups wait, and the time rises to its last value.
pub fn waiting()
    ensures pickups { beaten
        (scene [] [] (item 4 0 Heal 20 ∷ item 5 0 Gold 1 ∷ item 7 0 Ammo 0 ∷ []))
        ≡ later [] [] (item 4 0 Heal 19 ∷ item 5 0 Gold 0 ∷ item 7 0 Ammo 0 ∷ []) }
    ensures first { beaten (idle_at 0) ≡ idle_at 1 }
    ensures longest_match { beaten (idle_at 8191) ≡ idle_at 8192 }
    ensures last { beaten (idle_at 4294967294) ≡ idle_at 4294967295 }
    ensures past { beaten (idle_at 4294967295) ≡ idle_at 4294967295 }
{}

/// The lines of a world: players, shots and pickups, with a question mark for the second player's
/// name.
pub fn showing()
    ensures { block_of
        (scene (live ann_home (at 4 1 N) 2 9 (pos 3) ∷ dead bob_home 7 (neg_ℤ (pos 12)) ∷ [])
        (shot 1 (at 11 3 W) 8 ∷ shot 0 (at 2 2 S) 1 ∷ [])
        (item 5 1 Ammo 0 ∷ item 5 0 Gold 20 ∷ item 7 0 Heal 3 ∷ [])) (codes "ann" ∷ [])
        ≡ flat_map as_line
        (codes "live ann 4 1 n 2 9 3" ∷ codes "dead ? 7 -12" ∷ codes "shot ? 11 3 w 8"
        ∷ codes "shot ann 2 2 s 1" ∷ codes "item 5 1 ammo 0" ∷ codes "item 5 0 gold 20"
        ∷ codes "item 7 0 heal 3" ∷ []) }
{}
