//! What the close of a mirror's lock guarantees, so that it can't be read more weakly. Each is the
//! contract of a function without parameters that does nothing.

ghost use Rattle.std.specs.Prelude.{◌≡◌, ◌++◌, ℕ, List};
ghost use Rattle.sync_model.specs.State.{MirrorState};
ghost use Rattle.sync_model.specs.Change.{after};
ghost use Rattle.sync_model.specs.History.{changing};
ghost use Rattle.sync_model.specs.Staggered.{IsStaggered};
ghost use Rattle.mirror_lock.specs.declared.calls.LockCall.{LockCall};
ghost use Rattle.mirror_lock.specs.declared.calls.LockCall.TheVariants.{Draft};
ghost use Rattle.mirror_lock.specs.declared.calls.LockReply.{LockReply};
ghost use Rattle.mirror_lock.specs.Locked.{mirror_rules};
ghost use Rattle.mirror_lock.specs.Ending.{EndsAs, events_of_log};
ghost use Rattle.turn_lock.specs.declared.view.Member.{Member};
ghost use Rattle.turn_lock.specs.Histories.{value};

use game_trait::Game;

/// A mirror whose lock is closed: it is where the one history of these seats leads, its own history
/// gained those of its events that changed it, and it is what they lead to. The plan is the one that
/// was in force, and it is staggered.
pub fn a_closed_mirror_is_at_its_history<G: Game>()
    ensures whole { (opening mirror : MirrorState G)
        (seats : List (Member (LockCall G) (LockReply G)))
        (h : EndsAs G.rules opening seats mirror)
        → mirror ≡ value (mirror_rules G.rules) opening h.whole.log }
    ensures history { (opening mirror : MirrorState G)
        (seats : List (Member (LockCall G) (LockReply G)))
        (h : EndsAs G.rules opening seats mirror)
        → let made = changing opening (events_of_log h.whole.log) in
        (mirror.history ≡ opening.history ++ made) × (mirror ≡ after opening made) }
    ensures plan { (opening mirror : MirrorState G)
        (seats : List (Member (LockCall G) (LockReply G)))
        → EndsAs G.rules opening seats mirror → mirror.plan ≡ opening.plan }
    ensures staggered { (opening mirror : MirrorState G)
        (seats : List (Member (LockCall G) (LockReply G)))
        → EndsAs G.rules opening seats mirror → IsStaggered mirror }
{}

/// A draft changes nothing, and asking for it many times in a row is answered as asking once: so one
/// call may stand for many.
pub fn asking_again_is_answered_alike<G: Game>()
    ensures state { (s : MirrorState G) (copy times : ℕ)
        → (mirror_rules G.rules).next s (Draft copy times) ≡ s }
    ensures reply { (s : MirrorState G) (copy times : ℕ)
        → (mirror_rules G.rules).said s (Draft copy times)
        ≡ (mirror_rules G.rules).said s (Draft copy 1) }
{}
