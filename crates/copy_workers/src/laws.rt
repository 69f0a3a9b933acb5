//! What the ends of a race's workers come to, so that none can be read more weakly. Each is the
//! contract of a function without parameters that does nothing.

ghost use Rattle.std.specs.Prelude.{◌≡◌, ◌<◌, ◌≤◌, ◌+◌, ◌-◌, ◌*◌, ◌++◌, ◌∷◌, ℕ, List, [], length, flat_map, min, slice_get, Some};
ghost use Rattle.link_ring.specs.declared.receive.LinkReceive.{LinkReceive};
ghost use Rattle.link_ring.specs.declared.message.Message.{Message};
ghost use Rattle.link_ring.specs.Ends.{received_of, waiting_of, misses_of};
ghost use Rattle.std.specs.List.{AllByRecursion};
ghost use Rattle.sync_model.specs.Schedule.{clock_end};
ghost use Rattle.tss_base.specs.Totals.{total};
ghost use Rattle.copy_workers.specs.declared.copy_job.CopyEnd.{CopyEnd};
ghost use Rattle.copy_workers.specs.declared.copy_job.CopyJob.{CopyJob};
ghost use Rattle.copy_workers.specs.declared.feeder_job.FeederEnd.{FeederEnd};
ghost use Rattle.copy_workers.specs.declared.feeder_job.FeederJob.{FeederJob};
ghost use Rattle.copy_workers.specs.declared.post.Asked.{Asked};
ghost use Rattle.copy_workers.specs.declared.post.TrailMark.{TrailMark};
ghost use Rattle.copy_workers.specs.Asking.{moves_in, ticks_in};
ghost use Rattle.copy_workers.specs.Messages.{messages, commands_in, IsOrderly};
ghost use Rattle.copy_workers.specs.Copied.{CopyTurn, CopyEnds, RunsOn, asked_of, marks_of, runs_in};
ghost use Rattle.copy_workers.specs.Feeding.{joined};
ghost use Rattle.copy_workers.specs.Fed.{FeederEnds, least_last, misses_between};

/// The worker of a copy ends no earlier than where the copy has run all ticks or the budget is spent,
/// and no later: each turn began with fewer ticks run than the match has, and no more are run. One call
/// of its post stands for 64 turns at most.
pub fn a_copy_worker_ends_where_it_is_done()
    ensures early { (job : CopyJob) (end : CopyEnd) (calls calls_now : ℕ)
        (asked asked_now : List Asked) (trail trail_now : List TrailMark)
        → CopyEnds job end calls calls_now asked asked_now trail trail_now
        → end.turns < job.budget → end.ran < job.length → ⊥ }
    ensures late { (job : CopyJob) (end : CopyEnd) (calls calls_now : ℕ)
        (asked asked_now : List Asked) (trail trail_now : List TrailMark)
        (h : CopyEnds job end calls calls_now asked asked_now trail trail_now)
        (front rest : List CopyTurn) (turn : CopyTurn) → h.works.turns ≡ front ++ turn ∷ rest
        → runs_in (flat_map (asked_of job.copy) front) < job.length }
    ensures often { (job : CopyJob) (end : CopyEnd) (calls calls_now : ℕ)
        (asked asked_now : List Asked) (trail trail_now : List TrailMark)
        → CopyEnds job end calls calls_now asked asked_now trail trail_now
        → end.turns + 64 * calls_now ≤ 64 * calls }
    ensures within { (job : CopyJob) (end : CopyEnd) (calls calls_now : ℕ)
        (asked asked_now : List Asked) (trail trail_now : List TrailMark)
        (h : CopyEnds job end calls calls_now asked asked_now trail trail_now)
        → (end.turns ≡ length h.works.turns) × (end.turns ≤ job.budget)
        × (trail_now ≡ trail ++ flat_map (marks_of job.copy) h.works.turns)
        × (asked_now ≡ asked ++ flat_map (asked_of job.copy) h.works.turns)
        × (end.ran ≡ runs_in (flat_map (asked_of job.copy) h.works.turns)) }
    ensures most { (job : CopyJob) (end : CopyEnd) (calls calls_now : ℕ)
        (asked asked_now : List Asked) (trail trail_now : List TrailMark)
        → CopyEnds job end calls calls_now asked asked_now trail trail_now
        → end.ran ≤ job.length }
{}

/// A feeder ends no earlier than where the clock is at its end or the budget is spent. A turn has one
/// tick at most, without a link exactly one, and a last turn without one was held by a mark. And
/// where the other mirrors are fair, each turn has a tick, a command that came, or a link on which
/// nothing came.
pub fn a_feeder_ends_where_it_is_done()
    ensures early { (job : FeederJob) (end : FeederEnd) (before after : List Asked)
        → FeederEnds job end before after
        → end.turns < job.budget → end.clock < clock_end job.stagger → ⊥ }
    ensures turns { (job : FeederJob) (end : FeederEnd) (before after : List Asked)
        (h : FeederEnds job end before after)
        → (after ≡ before ++ h.asked) × (h.asked ≡ joined h.turns) × (end.turns ≡ length h.turns)
        × (end.turns ≤ job.budget) × (end.clock ≡ moves_in h.asked) }
    ensures late { (job : FeederJob) (end : FeederEnd) (before after : List Asked)
        (h : FeederEnds job end before after) (front rest : List (List Asked)) (turn : List Asked)
        → h.turns ≡ front ++ turn ∷ rest → moves_in (joined front) < clock_end job.stagger }
    ensures single { (job : FeederJob) (end : FeederEnd) (before after : List Asked)
        (h : FeederEnds job end before after) (front rest : List (List Asked)) (turn : List Asked)
        → h.turns ≡ front ++ turn ∷ rest → ticks_in turn ≤ 1 }
    ensures alone { (job : FeederJob) (end : FeederEnd) (before after : List Asked)
        (h : FeederEnds job end before after)
        → job.receives.items ≡ [] → ticks_in h.asked ≡ end.turns }
    ensures held { (job : FeederJob) (end : FeederEnd) (before after : List Asked)
        (h : FeederEnds job end before after) (front : List (List Asked)) (turn : List Asked)
        → h.turns ≡ front ++ turn ∷ [] → ticks_in turn ≡ 0 → end.clock < clock_end job.stagger
        → let least = least_last job.stagger.length h.gots in
        (least < job.stagger.length) × (least + job.pace ≤ end.clock) }
    ensures few { (job : FeederJob) (end : FeederEnd) (before after : List Asked)
        (h : FeederEnds job end before after)
        → AllByRecursion (IsOrderly job.stagger.length) h.gots
        → total (λ got. length (commands_in got)) h.gots ≤ job.foreign
        → end.turns ≤ ticks_in h.asked
        + (total (λ got. length (commands_in got)) h.gots
        + misses_between job.receives.items end.receives.items) }
    ensures issued { (job : FeederJob) (end : FeederEnd) (before after : List Asked)
        (h : FeederEnds job end before after)
        → (min job.stagger.length end.clock ≤ end.marked)
        × (end.marked ≤ min job.stagger.length (end.clock + 1))
        × (end.issued ≡ length (commands_in (messages job.plan.items end.marked))) }
    ensures asked { (job : FeederJob) (end : FeederEnd) (before after : List Asked)
        (h : FeederEnds job end before after) (place : ℕ) (first now : LinkReceive)
        (got : List Message) → slice_get job.receives.items place ≡ Some first
        → slice_get end.receives.items place ≡ Some now → slice_get h.gots place ≡ Some got
        → (received_of now ≡ received_of first ++ got)
        × (misses_of first ≤ misses_of now)
        × (length got + (misses_of now - misses_of first) ≡ end.turns)
        × (min (length (waiting_of first)) end.turns ≤ length got) }
{}
