//! What a host makes a peer with.

ghost use Rattle.std.specs.Prelude.{◌≡◌, ◌*◌, ◌≤◌, ℕ, List, true, take, length, IfSome, IfNone};
ghost use Rattle.std.specs.List.{AllByRecursion};
ghost use Rattle.sync_model.specs.Schedule.{delays_of_each};
ghost use Rattle.rolling_mirror.specs.Rolling.{LetsTurnsGoOn};
ghost use Rattle.host_parts.specs.Rising.{ArePlans};
ghost use Rattle.peer_packet.specs.Packet.{AreTerms};
ghost use Rattle.peer_c.specs.Legal.{ArePlansOf, IsLegal, AreNumbers, is_long, config_of};

use game_trait::{MirrorId, Tick};
use host_parts::{Plans, plans_of};
use peer_calls::Config;
use peer_packet::Terms;
use stagger_clock::Stagger;

/// What a host makes a peer with.
#[repr(C)]
#[derive(Clone, Copy, Debug)]
pub struct HostConfig {
    /// The session's number.
    pub session: u64,
    /// Ticks that are remembered at most: at least the longest delay, `keep` and 2.
    pub window: Tick,
    /// Ticks behind the last copy whose commands are remembered, 1 at least.
    pub keep: Tick,
    /// Ticks after which a command that another peer issued is passed on; 2^32 - 1: never.
    pub relay: Tick,
    /// Commands of each slot that are remembered at once, 1 to 16,384.
    pub room: u32,
    /// How many peers the session may ever have, 2 to 64.
    pub slots: u8,
    /// Most bytes of a command, 0 to 64.
    pub payload: u8,
    /// Copies of each plan, 1 to 8.
    pub copies: u8,
    /// Plans, 1 to 8; the first is in force.
    pub plans: u8,
    /// One plan after another; the rest isn't looked at.
    pub delays: [Tick; 64],
}

// Whether a plan's longest delay, `keep` and 2 ticks are no more than the window.
fn is_long(plan: &Stagger, keep: Tick, window: Tick) -> bool
    ensures { result ≡ is_long keep window plan.now.delays }
{
    u64::from(plan.longest()) + u64::from(keep) + 2 <= u64::from(window)
}

// Whether the window is long enough for each plan.
fn all_long(plans: &[Stagger], keep: Tick, window: Tick) -> bool
    ensures yes { result ≡ true → AllByRecursion (λ plan. is_long keep window plan.delays ≡ true) plans.now }
    ensures no { AllByRecursion (λ plan. is_long keep window plan.delays ≡ true) plans.now → result ≡ true }
{
    plans.iter().all(|plan| is_long(plan, keep, window))
}

impl HostConfig {
    // Whether its numbers are in range, its plans aside, and the slot is one of the session's.
    fn are_numbers(&self, me: MirrorId) -> bool
        ensures yes { result ≡ true → AreNumbers self.now me }
        ensures no { AreNumbers self.now me → result ≡ true }
    {
        let few_slots = 2 <= self.slots && self.slots <= 64;
        let some_room = 1 <= self.room && self.room <= 16_384;
        few_slots && me < self.slots && self.payload <= 64 && 1 <= self.keep && some_room
    }

    // The plans that its delays spell.
    fn spelled(&self) -> Option<Plans>
        ensures made { IfSome result (λ plans. (self.now.plans ≤ 8)
            × (ArePlans (take (self.now.plans * self.now.copies) self.now.delays) self.now.copies self.now.window (delays_of_each plans)
            × (AllByRecursion (λ plan. length plan.delays ≡ self.now.copies) plans
            × AllByRecursion (λ plan. plan.length ≡ self.now.window) plans))) }
        ensures none { IfNone result (self.now.plans ≤ 8 → (plans : List (List ℕ))
            → ArePlans (take (self.now.plans * self.now.copies) self.now.delays) self.now.copies self.now.window plans → ⊥) }
    {
        if self.plans > 8 {
            return None;
        }
        if self.copies > 8 {
            return None;
        }
        let count = usize::from(self.plans) * usize::from(self.copies);
        let (spelled, _) = self.delays.split_at(count);
        plans_of(spelled, usize::from(self.copies), self.window)
    }

    /// Its plans, where a peer in slot `me` may be made of it.
    pub fn legal(&self, me: MirrorId) -> Option<Plans>
        ensures legal { IfSome result (λ plans. IsLegal self.now me × ArePlansOf self.now (delays_of_each plans)) }
        ensures goes_on { IfSome result (λ plans. AllByRecursion LetsTurnsGoOn plans) }
        ensures copies { IfSome result (λ plans. AllByRecursion (λ plan. length plan.delays ≡ self.now.copies) plans) }
        ensures ticks { IfSome result (λ plans. AllByRecursion (λ plan. plan.length ≡ self.now.window) plans) }
        ensures none { IfNone result (IsLegal self.now me → ⊥) }
    {
        if !self.are_numbers(me) {
            return None;
        }
        let plans = self.spelled()?;
        if !all_long(plans.as_slice(), self.keep, self.window) {
            return None;
        }
        Some(plans)
    }

    /// The same as a peer takes it, its plans and its window aside.
    pub fn config(&self) -> Config
        ensures { result ≡ config_of self.now }
    {
        Config {
            terms: Terms {
                session: self.session,
                slots: self.slots,
                payload: self.payload,
            },
            relay: self.relay,
            keep: self.keep,
            room: self.room,
        }
    }
}
