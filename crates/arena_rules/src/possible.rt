//! Worlds that can be, at every bound, and others that can't: one for each part of what they must be.

ghost use Rattle.std.specs.Prelude.{pos, neg_ℤ, [], ◌∷◌, replicate};
ghost use Rattle.match_setup.specs.declared.face.Face.TheVariants.{N, S};
ghost use Rattle.match_setup.specs.declared.pickup.Kind.TheVariants.{Heal, Gold};
ghost use Rattle.match_setup.specs.Worked.{at};
ghost use Rattle.arena_rules.specs.World.{IsWorld};
ghost use Rattle.arena_rules.specs.Worked.{live, dead, shot, item, scene, idle_at, ann_home, bob_home, crowd, spread, with_numbers};

/// All numbers at their bounds; as many players, shots and pickups as can be; two dead of one home.
pub fn worlds()
    ensures least { IsWorld (with_numbers 1 0 (neg_ℤ (pos 1000000))) }
    ensures most { IsWorld (with_numbers 3 9 (pos 1000000)) }
    ensures dead { IsWorld
        (scene (dead ann_home 10 (pos 0) ∷ dead ann_home 0 (pos 0)
        ∷ live bob_home ann_home 3 5 (pos 0) ∷ []) [] []) }
    ensures players { IsWorld (crowd 32) }
    ensures shots { IsWorld
        (scene (dead ann_home 1 (pos 0) ∷ [])
        (shot 0 (at 2 2 N) 1 ∷ replicate 63 (shot 0 (at 2 2 N) 8)) []) }
    ensures pickups { IsWorld (spread 32) }
    ensures last { IsWorld (idle_at 4294967295) }
{}

/// Players that can't be: numbers out of range, in no cell where one may stand, two in one cell,
/// too many.
pub fn no_players()
    ensures health_0 { ¬ IsWorld (with_numbers 0 5 (pos 0)) }
    ensures health_4 { ¬ IsWorld (with_numbers 4 5 (pos 0)) }
    ensures ammo_10 { ¬ IsWorld (with_numbers 3 10 (pos 0)) }
    ensures richer { ¬ IsWorld (with_numbers 3 5 (pos 1000001)) }
    ensures poorer { ¬ IsWorld (with_numbers 3 5 (neg_ℤ (pos 1000001))) }
    ensures wait_11 { ¬ IsWorld (scene (dead ann_home 11 (pos 0) ∷ []) [] []) }
    ensures on_wall { ¬ IsWorld (scene (live ann_home (at 6 2 S) 3 5 (pos 0) ∷ []) [] []) }
    ensures outside { ¬ IsWorld (scene (live ann_home (at 4 4 S) 3 5 (pos 0) ∷ []) [] []) }
    ensures home_on_wall { ¬ IsWorld (scene (dead (at 6 2 S) 5 (pos 0) ∷ []) [] []) }
    ensures one_cell { ¬ IsWorld
        (scene (live ann_home (at 4 1 S) 3 5 (pos 0) ∷ live bob_home (at 4 1 N) 3 5 (pos 0)
        ∷ []) [] []) }
    ensures too_many { ¬ IsWorld (crowd 33) }
{}

/// Shots and pickups that can't be, and a time.
pub fn no_worlds()
    ensures no_owner { ¬ IsWorld
        (scene (dead ann_home 1 (pos 0) ∷ []) (shot 1 (at 2 2 N) 3 ∷ []) []) }
    ensures left_0 { ¬ IsWorld
        (scene (dead ann_home 1 (pos 0) ∷ []) (shot 0 (at 2 2 N) 0 ∷ []) []) }
    ensures left_9 { ¬ IsWorld
        (scene (dead ann_home 1 (pos 0) ∷ []) (shot 0 (at 2 2 N) 9 ∷ []) []) }
    ensures shot_on_wall { ¬ IsWorld
        (scene (dead ann_home 1 (pos 0) ∷ []) (shot 0 (at 6 2 N) 3 ∷ []) []) }
    ensures shots_65 { ¬ IsWorld
        (scene (dead ann_home 1 (pos 0) ∷ []) (replicate 65 (shot 0 (at 2 2 N) 3)) []) }
    ensures wait_21 { ¬ IsWorld (scene [] [] (item 4 1 Gold 21 ∷ [])) }
    ensures pickup_on_wall { ¬ IsWorld (scene [] [] (item 6 2 Gold 0 ∷ [])) }
    ensures one_cell { ¬ IsWorld (scene [] [] (item 4 1 Gold 0 ∷ item 4 1 Heal 0 ∷ [])) }
    ensures pickups_33 { ¬ IsWorld (spread 33) }
    ensures no_time { ¬ IsWorld (idle_at 4294967296) }
{}
