//! A feeder issues its mirror's own commands, tick by tick.

ghost use Rattle.std.specs.Prelude.{◌≡◌, ℕ, ◌+◌, ◌-◌, ◌<◌, ◌≤◌, [], ◌∷◌, ◌++◌, length};
ghost use Rattle.std.specs.List.{AllByRecursion, AllZip};
ghost use Rattle.game_trait.specs.declared.event.Event.{Event};
ghost use Rattle.game_trait.specs.Keys.{KeysRise};
ghost use Rattle.game_trait.specs.Ordered.{due_at};
ghost use Rattle.link_ring.specs.declared.message.Message.TheVariants.{Cmd};
ghost use Rattle.copy_workers.specs.Asking.{IsFeedingBelow, HasArrival, HasArrivals};
ghost use Rattle.copy_workers.specs.Messages.{tick_messages};
ghost use Rattle.copy_workers.specs.Sending.{MaySend, IsSent, IsFrom};

use crate::post::Post;
use crate::sends::send_all;
use game_trait::{Command, Event, Tick};
use link_ring::{LinkSend, Message};

/// Issues one command: asks its arrival, and sends it on each link.
pub fn issue_one<P: Post>(post: &mut P, sends: &mut [LinkSend], x: &Command, length: Tick)
    requires takes { (e : Event) → IsFeedingBelow length e → P.takes post.old e }
    requires due { x.now.time < length }
    requires calls { 0 < P.calls post.old }
    requires grows { 0 < P.grows post.old }
    requires room { AllByRecursion (MaySend 1) sends.old }
    ensures asked { HasArrival x.now (P.asked post.old) (P.asked post.new) }
    ensures calls { P.calls post.new + 1 ≡ P.calls post.old }
    ensures grows { P.grows post.new + 1 ≡ P.grows post.old }
    ensures takes { (e : Event) → P.takes post.old e → P.takes post.new e }
    ensures same { (p : P) → P.same p post.old → P.same p post.new }
    ensures sent { AllZip (IsSent (Cmd x.now ∷ [])) sends.old sends.new }
{
    post.ask(&Event::Arrive(*x));
    send_all(sends, &Message::Cmd(*x));
}

/// Issues tick t: each command of that time in key order, from the place `issued` on, and then the
/// mark above them. The place behind them.
pub fn issue_tick<P: Post>(
    post: &mut P,
    sends: &mut [LinkSend],
    plan: &[Command],
    issued: usize,
    t: Tick,
    limit: Tick,
) -> usize
    requires rises { KeysRise plan.now }
    requires from { IsFrom plan.now issued t }
    requires below { t < limit }
    requires takes { (e : Event) → IsFeedingBelow limit e → P.takes post.old e }
    requires calls { length plan.now ≤ P.calls post.old + issued }
    requires grows { length plan.now ≤ P.grows post.old + issued }
    requires room { AllByRecursion (MaySend ((length plan.now - issued) + 1)) sends.old }
    ensures asked { HasArrivals (due_at plan.now t) (P.asked post.old) (P.asked post.new) }
    ensures sent { AllZip (IsSent (tick_messages plan.now t)) sends.old sends.new }
    ensures from { IsFrom plan.now result (t + 1) }
    ensures count { result ≡ issued + length (due_at plan.now t) }
    ensures calls { P.calls post.new + result ≡ P.calls post.old + issued }
    ensures grows { P.grows post.new + result ≡ P.grows post.old + issued }
    ensures takes { (e : Event) → P.takes post.old e → P.takes post.new e }
    ensures same { (p : P) → P.same p post.old → P.same p post.new }
{
    let mut next = issued;
    while next < plan.len() && plan[next].time == t {
        issue_one(post, sends, &plan[next], limit);
        next += 1;
    }
    send_all(sends, &Message::Mark(t + 1));
    next
}
