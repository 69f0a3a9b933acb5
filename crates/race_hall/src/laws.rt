//! What is true of a race after the joins, over lists.

ghost use Rattle.std.specs.Prelude.{◌≡◌, ◌++◌, ◌∷◌, ℕ, ◌<◌, ◌≤◌, Bool, List, [], Some, length, slice_get};
ghost use Rattle.std.specs.List.{AllByRecursion};
ghost use Rattle.game_trait.specs.declared.command.Command.{Command};
ghost use Rattle.game_trait.specs.declared.event.Event.{Event};
ghost use Rattle.game_trait.specs.declared.event.Event.TheVariants.{Arrive};
ghost use Rattle.game_trait.specs.Count.{times};
ghost use Rattle.game_trait.specs.Run.{world_of};
ghost use Rattle.game_trait.specs.Ordered.{time_ordered};
ghost use Rattle.link_ring.specs.declared.message.Message.{Message};
ghost use Rattle.match_data.specs.Data.{MatchData, IsMatch};
ghost use Rattle.sync_model.specs.State.{MirrorState};
ghost use Rattle.sync_model.specs.Change.{said, after};
ghost use Rattle.sync_model.specs.History.{opening_of, IsFromHistory};
ghost use Rattle.sync_model.specs.Legal.{IsLegal};
ghost use Rattle.sync_model.specs.Staggered.{IsUnchangedPlan};
ghost use Rattle.sync_model.specs.Turns.{IsDrained};
ghost use Rattle.copy_workers.specs.declared.feeder_job.FeederEnd.{FeederEnd};
ghost use Rattle.copy_workers.specs.declared.feeder_job.FeederJob.{FeederJob};
ghost use Rattle.race_hall.specs.Entries.{Entry, IsNeverRefused, pairs_of, events_asked, commands_asked};
ghost use Rattle.race_hall.specs.Race.{Course, IsCourse, Raced, race_opening};
ghost use Rattle.race_hall.specs.Finish.{to_deliver, delivered, finished, EndsAtFold, NothingLate};
ghost use Rattle.race_hall.specs.JobResults.{Closed, AllFed, IsLeftAt};
ghost use Rattle.race_hall.specs.Raced.{AreRaced};

use game_trait::Game;

/// What the argument asks of a mirror's workers can be met: they may end before they did anything.
pub fn workers_may_do_nothing<G: Game>()
    ensures { (c : Course) (opening : G) (spare m : ℕ) → Raced c opening spare m
        (λ k. 0) (λ k. []) (λ k. []) 0 [] (race_opening c opening spare) }
{}

/// Whatever the workers did before they ended: nothing that arrived was late, nothing that is still
/// to be delivered is late, and each command has arrived, is left in a link, or was never issued.
pub fn nothing_is_late<G: Game>()
    ensures { (c : Course) (opening : G) (spare : ℕ) (job : ℕ → FeederJob) (end : ℕ → FeederEnd)
        (seat : ℕ → ℕ) (history : ℕ → List Entry) (m : ℕ) (s : MirrorState G)
        (left : ℕ → List Message)
        → IsCourse c → length c.commands ≤ spare → m < c.mirrors
        → AllFed c job end seat history → Closed c opening spare (seat m) (history m) s
        → IsLeftAt c end m left
        → NothingLate c opening spare m (λ k. (end k).marked) left (history m) s }
{}

/// Whatever the workers did before they ended: each mirror, finished, has every command once, and
/// its copies' worlds at the time-ordered execution of all commands.
pub fn race_ends<G: Game>()
    ensures { (c : Course) (opening : G) (spare : ℕ) (job : ℕ → FeederJob) (end : ℕ → FeederEnd)
        (seat : ℕ → ℕ) (history : ℕ → List Entry) (m : ℕ) (s : MirrorState G)
        (left : ℕ → List Message)
        → IsCourse c → length c.commands ≤ spare → m < c.mirrors
        → AllFed c job end seat history → Closed c opening spare (seat m) (history m) s
        → IsLeftAt c end m left
        → EndsAtFold G.rules c opening (finished s (to_deliver c m (λ k. (end k).marked) left)) }
{}

/// There is an end for a race of each match, whatever the game: what a race promises of the mirrors
/// that it answers can be met.
pub fn some_race_ends<G: Game>()
    ensures { (m : MatchData) (opening : G) → IsMatch m
        → (mirrors : List (MirrorState G)) × AreRaced G.rules m opening mirrors }
{}

/// The mirrors that a race answers are those of the match, one for each number. Each has accepted
/// each command once and turned none away, and is drained, with the time-ordered execution of all
/// commands as the world of each of its copies. Its history is a legal one of the match from where
/// it opened, leads to it, and never changed the plan.
pub fn raced_mirrors_have_every_command<G: Game>()
    ensures count { (m : MatchData) (opening : G) (mirrors : List (MirrorState G))
        → AreRaced G.rules m opening mirrors → length mirrors ≡ m.mirrors }
    ensures once { (m : MatchData) (opening : G) (mirrors : List (MirrorState G)) (number : ℕ)
        (t : MirrorState G) (test : Command → Bool)
        → AreRaced G.rules m opening mirrors → slice_get mirrors number ≡ Some t
        → (times test t.accepted ≡ times test m.commands) × (t.turned ≡ []) }
    ensures worlds { (m : MatchData) (opening : G) (mirrors : List (MirrorState G)) (number : ℕ)
        (t : MirrorState G)
        → AreRaced G.rules m opening mirrors → slice_get mirrors number ≡ Some t
        → IsDrained t × AllByRecursion (λ run. world_of G.rules opening run
        ≡ time_ordered G.rules opening m.commands m.length) t.runs }
    ensures history { (m : MatchData) (opening : G) (mirrors : List (MirrorState G)) (number : ℕ)
        (t : MirrorState G)
        → AreRaced G.rules m opening mirrors → slice_get mirrors number ≡ Some t
        → IsLegal m.commands (opening_of t) t.history × IsFromHistory t }
    ensures opened { (m : MatchData) (opening : G) (mirrors : List (MirrorState G)) (number : ℕ)
        (t : MirrorState G)
        → AreRaced G.rules m opening mirrors → slice_get mirrors number ≡ Some t
        → (t.opening ≡ opening) × (t.length ≡ m.length) × (t.plans ≡ m.delays ∷ m.plans)
        × (t.plan ≡ 0) × IsUnchangedPlan t }
{}

/// After the joins of a race nothing was turned away, and each command that is still to be delivered
/// is taken where it comes, behind those before it.
pub fn what_is_left_is_taken<G: Game>()
    ensures none { (c : Course) (opening : G) (spare m : ℕ) (marked : ℕ → ℕ)
        (left : ℕ → List Message) (history : List Entry) (s : MirrorState G)
        → NothingLate c opening spare m marked left history s → s.turned ≡ [] }
    ensures arrived { (c : Course) (opening : G) (spare m : ℕ) (marked : ℕ → ℕ)
        (left : ℕ → List Message) (history : List Entry) (s : MirrorState G)
        (front behind : List Event) (x : Command)
        → NothingLate c opening spare m marked left history s
        → events_asked (pairs_of history) ≡ front ++ Arrive x ∷ behind
        → IsNeverRefused (said (after (race_opening c opening spare) front) (Arrive x)) }
    ensures accepted { (c : Course) (opening : G) (spare m : ℕ) (marked : ℕ → ℕ)
        (left : ℕ → List Message) (history : List Entry) (s : MirrorState G)
        → NothingLate c opening spare m marked left history s
        → s.accepted ≡ commands_asked (events_asked (pairs_of history)) }
    ensures later { (c : Course) (opening : G) (spare m : ℕ) (marked : ℕ → ℕ)
        (left : ℕ → List Message) (history : List Entry) (s : MirrorState G)
        (front behind : List Command) (x : Command)
        → NothingLate c opening spare m marked left history s
        → to_deliver c m marked left ≡ front ++ x ∷ behind
        → IsNeverRefused (said (delivered s front) (Arrive x)) }
{}
