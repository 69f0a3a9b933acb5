//! A peer for C: a static library. The host keeps its worlds, of any game and in any language, its socket
//! and its clock; here stand which commands are accepted, in which order each copy runs them, and what
//! each other peer has of them, as `peer_session` proves it. `tsync_peer.h` declares the calls and says
//! what a host does.
#![tactic(auto)]

ghost use Rattle.std.specs.Prelude.{◌≡◌, ℕ, ◌⊎◌, ◌↔◌, ◌+◌, ◌-◌, ◌<◌, nat_lt, None, Some, Ok, Err, length, slice_get, option_map, take, IfSome};
ghost use Rattle.game_trait.specs.Later.{later_item};
ghost use Rattle.peer_packet.specs.Packet.{Packet, IsPacket, bytes_of};
ghost use Rattle.peer_packet.specs.Reading.{packet_at};
ghost use Rattle.peer_packet.specs.declared.fault.Fault.{Fault};
ghost use Rattle.rolling_mirror.specs.Rolling.{last_tick};
ghost use Rattle.peer_calls.specs.Hearing.{said_to_packet_heard, after_hearing};
ghost use Rattle.peer_slots.specs.Links.{links_of, said_to_mark};
ghost use Rattle.peer_calls.specs.Issuing.{said_to_peers_own, after_own};
ghost use Rattle.peer_calls.specs.Moving.{after_turn, said_to_peers_turn, after_step, said_to_peers_step, after_restagger, after_mark};
ghost use Rattle.peer_calls.specs.Sending.{said_to_packet, after_packet, packet_bytes};
ghost use Rattle.peer_session.specs.Parts.{state_of, forgotten_by};
ghost use Rattle.host_parts.specs.Blank.{blank_rules};
ghost use Rattle.peer_calls.specs.Handing.{said_to_snapshot, snapshot_text};
ghost use Rattle.peer_c.specs.Legal.{IsLegal};
ghost use Rattle.peer_c.specs.Joining.{LeavesJoiner};
ghost use Rattle.peer_c.specs.Answers.{IsMade, Leaves, LeavesAll, answer_from, refused, told_own, told_turn, told_step, told_restagger, told_packet, told_heard, item_of_heard, nothing_heard, told_mark, told_snapshot, clock_answer, base_answer, copy_clock_answer, run_len_answer, run_of, items_put, items_answer, payload_of, payload_answer, slot_told, slot_answer, known_answer, told_item};

mod answer;
mod codes;
mod config;
mod engine;
mod handle;
mod held;
mod looks;

use answer::{
    Answer, HeardItem, RunItem, SlotItem, bare, item_of_heard, nothing_heard, told_heard,
    told_mark, told_own, told_packet, told_restagger, told_snapshot, told_step, told_turn,
};
use codes::{MADE, NO_MEMORY, NO_PEER, NOT_LEGAL, VALUE};
use config::HostConfig;
use engine::Engine;
use game_trait::{MirrorId, Number};
use handle::Handle;
use std::alloc::Global;

/// Makes the peer in slot `me` of a session that begins, its clock at 0. A peer that the handle had is
/// freed once the new one is made; where the call is refused, it stays.
#[unsafe(no_mangle)]
pub extern "C" fn tsync_peer_new(
    alloc: Global,
    handle: &mut Handle,
    config: &HostConfig,
    me: MirrorId,
) -> Answer
    ensures made { result.kind ≡ MADE → IsMade config.now me handle.new.held.engine }
    ensures kept { (result.kind ≡ MADE → ⊥)
        → handle.new.held.engine ≡ handle.old.held.engine }
    ensures refused { (result.kind ≡ MADE) ⊎ ((result.kind ≡ NO_MEMORY) ⊎ (result.kind ≡ NOT_LEGAL)) }
    ensures legal { (result.kind ≡ NOT_LEGAL) ↔ (IsLegal config.now me → ⊥) }
{
    let engine = match Engine::new(alloc, config, me) {
        Ok(engine) => engine,
        Err(why) => return bare(why),
    };
    match Box::new(alloc, engine) {
        Ok(engine) => {
            drop(handle.take(alloc));
            *handle = Handle::of(engine);
            bare(MADE)
        }
        Err(_) => bare(NO_MEMORY),
    }
}

/// Makes the peer in slot `me`, which nobody had, of a session that is on its way, by a snapshot's bytes. A
/// peer that the handle had is freed, also where this is refused.
#[unsafe(no_mangle)]
pub extern "C" fn tsync_peer_join(
    alloc: Global,
    handle: &mut Handle,
    config: &HostConfig,
    me: MirrorId,
    bytes: &[u8],
) -> Answer
    ensures { LeavesJoiner config.now me bytes.now result handle.new.held.engine }
{
    drop(handle.take(alloc));
    let engine = match Engine::join(alloc, config, me, bytes) {
        Ok(engine) => engine,
        Err(answer) => return answer,
    };
    match Box::new(alloc, engine) {
        Ok(engine) => {
            *handle = Handle::of(engine);
            bare(MADE)
        }
        Err(_) => bare(NO_MEMORY),
    }
}

/// Frees the peer, if the handle has one.
#[unsafe(no_mangle)]
pub extern "C" fn tsync_peer_free(alloc: Global, handle: &mut Handle)
    ensures { handle.new.held.engine ≡ None }
{
    drop(handle.take(alloc));
}

/// Issues a command, due `ahead` ticks behind the clock and not before the last own one.
#[unsafe(no_mangle)]
pub extern "C" fn tsync_peer_own(
    alloc: Global,
    handle: &mut Handle,
    ahead: u32,
    payload: &[u8],
) -> Answer
    ensures state { LeavesAll (λ p. after_own p.config ahead payload.now (state_of p)) handle.old.held.engine handle.new.held.engine }
    ensures answer { result ≡ answer_from handle.old.held.engine (λ p. told_own (said_to_peers_own p.config ahead payload.now (state_of p))) }
{
    let Some(mut engine) = handle.take(alloc) else {
        return bare(NO_PEER);
    };
    let answer = told_own(engine.peer.own(ahead, payload));
    *handle = Handle::of(engine);
    answer
}

/// A tick of the clock, and then a step of each copy from copy 0 on.
#[unsafe(no_mangle)]
pub extern "C" fn tsync_peer_turn(alloc: Global, handle: &mut Handle) -> Answer
    ensures state { Leaves (λ p. after_turn blank_rules p.config (state_of p)) (λ p. p.forgotten + forgotten_by p.roll) handle.old.held.engine handle.new.held.engine }
    ensures answer { result ≡ answer_from handle.old.held.engine (λ p. told_turn (said_to_peers_turn blank_rules (state_of p))) }
{
    let Some(mut engine) = handle.take(alloc) else {
        return bare(NO_PEER);
    };
    let answer = told_turn(engine.peer.turn());
    *handle = Handle::of(engine);
    answer
}

/// A step of a copy, where it may.
#[unsafe(no_mangle)]
pub extern "C" fn tsync_peer_step(alloc: Global, handle: &mut Handle, copy: u8) -> Answer
    ensures state { LeavesAll (λ p. after_step copy (state_of p)) handle.old.held.engine handle.new.held.engine }
    ensures answer { result ≡ answer_from handle.old.held.engine (λ p. told_step (said_to_peers_step copy (state_of p))) }
{
    let Some(mut engine) = handle.take(alloc) else {
        return bare(NO_PEER);
    };
    let answer = told_step(engine.peer.step(copy));
    *handle = Handle::of(engine);
    answer
}

/// Another plan is in force, at this peer alone.
#[unsafe(no_mangle)]
pub extern "C" fn tsync_peer_restagger(alloc: Global, handle: &mut Handle, plan: u8) -> Answer
    ensures state { LeavesAll (λ p. after_restagger plan (state_of p)) handle.old.held.engine handle.new.held.engine }
    ensures answer { result ≡ answer_from handle.old.held.engine (λ p. told_restagger (nat_lt plan (length p.roll.left.plans))) }
{
    let Some(mut engine) = handle.take(alloc) else {
        return bare(NO_PEER);
    };
    let answer = told_restagger(engine.peer.restagger(plan));
    *handle = Handle::of(engine);
    answer
}

/// Puts a packet for the peer in slot `to` into `out`, as much of what is due for it as there is room for.
#[unsafe(no_mangle)]
pub extern "C" fn tsync_peer_packet(
    alloc: Global,
    handle: &mut Handle,
    to: MirrorId,
    out: &mut [u8],
) -> Answer
    ensures state { LeavesAll (λ p. after_packet p.config to (length out.old) (state_of p)) handle.old.held.engine handle.new.held.engine }
    ensures answer { result ≡ answer_from handle.old.held.engine (λ p. told_packet (said_to_packet p.config to (length out.old) (state_of p))) }
    ensures bytes { result.kind ≡ VALUE → IfSome handle.old.held.engine (λ engine.
        take result.value out.new ≡ packet_bytes engine.peer.config to (length out.old) (state_of engine.peer)) }
    ensures length { length out.new ≡ length out.old }
    ensures refused { (result.kind ≡ VALUE → ⊥) → out.new ≡ out.old }
{
    let Some(mut engine) = handle.take(alloc) else {
        return bare(NO_PEER);
    };
    let answer = told_packet(engine.peer.packet(to, out));
    *handle = Handle::of(engine);
    answer
}

/// A packet came: what came of it is put into `heard`.
#[unsafe(no_mangle)]
pub extern "C" fn tsync_peer_hear(
    alloc: Global,
    handle: &mut Handle,
    bytes: &[u8],
    heard: &mut HeardItem,
) -> Answer
    ensures none { handle.old.held.engine ≡ None → (result ≡ refused NO_PEER) × (handle.new.held.engine ≡ None) × (heard.new ≡ nothing_heard) }
    ensures packet { IfSome handle.old.held.engine (λ engine. (p : Packet) → IsPacket engine.peer.config.terms p
        → bytes.now ≡ bytes_of engine.peer.config.terms.session p
        → let said = said_to_packet_heard engine.peer.config p (state_of engine.peer) in
        (result ≡ told_heard (Ok said)) × (heard.new ≡ item_of_heard (Ok said))) }
    ensures state { IfSome handle.old.held.engine (λ engine. (p : Packet) → IsPacket engine.peer.config.terms p
        → bytes.now ≡ bytes_of engine.peer.config.terms.session p
        → LeavesAll (λ q. after_hearing q.config p (state_of q)) handle.old.held.engine handle.new.held.engine) }
    ensures fault { IfSome handle.old.held.engine (λ engine. (fault : Fault) → packet_at engine.peer.config.terms bytes.now ≡ Err fault
        → (result ≡ told_heard (Err fault)) × (heard.new ≡ nothing_heard) × (handle.new.held.engine ≡ handle.old.held.engine)) }
{
    let Some(mut engine) = handle.take(alloc) else {
        *heard = nothing_heard();
        return bare(NO_PEER);
    };
    let answer = engine.peer.hear(bytes);
    *handle = Handle::of(engine);
    *heard = item_of_heard(answer);
    told_heard(answer)
}

/// The sum of the last copy's world, at its clock.
#[unsafe(no_mangle)]
pub extern "C" fn tsync_peer_mark(alloc: Global, handle: &mut Handle, sum: u32) -> Answer
    ensures state { LeavesAll (λ p. after_mark sum (state_of p)) handle.old.held.engine handle.new.held.engine }
    ensures answer { result ≡ answer_from handle.old.held.engine (λ p. told_mark (option_map (λ n. (last_tick p.roll, n)) (said_to_mark (record { tick = last_tick p.roll; sum = sum }) (links_of p.links)))) }
{
    let Some(mut engine) = handle.take(alloc) else {
        return bare(NO_PEER);
    };
    let answer = told_mark(engine.peer.mark(sum));
    *handle = Handle::of(engine);
    answer
}

/// Puts what a joiner needs beside the last copy's world into `out`, and tells how many bytes it has.
#[unsafe(no_mangle)]
pub extern "C" fn tsync_peer_snapshot(alloc: Global, handle: &mut Handle, out: &mut [u8]) -> Answer
    ensures state { handle.new.held.engine ≡ handle.old.held.engine }
    ensures answer { result ≡ answer_from handle.old.held.engine (λ p. told_snapshot (said_to_snapshot p.config (length out.old) (state_of p))) }
    ensures bytes { result.kind ≡ VALUE → IfSome handle.old.held.engine (λ engine.
        take result.value out.new ≡ snapshot_text engine.peer.config (state_of engine.peer)) }
    ensures length { length out.new ≡ length out.old }
    ensures refused { (result.kind ≡ VALUE → ⊥) → out.new ≡ out.old }
{
    let Some(engine) = handle.take(alloc) else {
        return bare(NO_PEER);
    };
    let answer = told_snapshot(engine.peer.snapshot(out));
    *handle = Handle::of(engine);
    answer
}

/// The clock, and the one from which own commands are taken.
#[unsafe(no_mangle)]
pub extern "C" fn tsync_peer_clock(alloc: Global, handle: &mut Handle) -> Answer
    ensures state { handle.new.held.engine ≡ handle.old.held.engine }
    ensures answer { result ≡ answer_from handle.old.held.engine clock_answer }
{
    let Some(engine) = handle.take(alloc) else {
        return bare(NO_PEER);
    };
    let answer = engine.clock();
    *handle = Handle::of(engine);
    answer
}

/// The first place of each run that is remembered, and the tick at which it stands.
#[unsafe(no_mangle)]
pub extern "C" fn tsync_peer_base(alloc: Global, handle: &mut Handle) -> Answer
    ensures state { handle.new.held.engine ≡ handle.old.held.engine }
    ensures answer { result ≡ answer_from handle.old.held.engine base_answer }
{
    let Some(engine) = handle.take(alloc) else {
        return bare(NO_PEER);
    };
    let answer = engine.base();
    *handle = Handle::of(engine);
    answer
}

/// A copy's clock.
#[unsafe(no_mangle)]
pub extern "C" fn tsync_peer_copy_clock(alloc: Global, handle: &mut Handle, copy: u8) -> Answer
    ensures state { handle.new.held.engine ≡ handle.old.held.engine }
    ensures answer { result ≡ answer_from handle.old.held.engine (copy_clock_answer copy) }
{
    let Some(engine) = handle.take(alloc) else {
        return bare(NO_PEER);
    };
    let answer = engine.copy_clock(copy);
    *handle = Handle::of(engine);
    answer
}

/// How many items a copy has run, counted from where this peer began.
#[unsafe(no_mangle)]
pub extern "C" fn tsync_peer_run_len(alloc: Global, handle: &mut Handle, copy: u8) -> Answer
    ensures state { handle.new.held.engine ≡ handle.old.held.engine }
    ensures answer { result ≡ answer_from handle.old.held.engine (run_len_answer copy) }
{
    let Some(engine) = handle.take(alloc) else {
        return bare(NO_PEER);
    };
    let answer = engine.run_len(copy);
    *handle = Handle::of(engine);
    answer
}

/// Puts the items of a copy's run from a place on into `out`, as many as there are and it holds, and
/// tells how many.
#[unsafe(no_mangle)]
pub extern "C" fn tsync_peer_items(
    alloc: Global,
    handle: &mut Handle,
    copy: u8,
    place: u64,
    out: &mut [RunItem],
) -> Answer
    ensures state { handle.new.held.engine ≡ handle.old.held.engine }
    ensures answer { result ≡ answer_from handle.old.held.engine (items_answer copy place (length out.old)) }
    ensures length { length out.new ≡ length out.old }
    ensures items { IfSome handle.old.held.engine (λ engine. (j : ℕ)
        → j < items_put copy place (length out.old) engine.peer → slice_get out.new j
        ≡ option_map (λ x. told_item (later_item engine.peer.roll.base x)) (slice_get (run_of engine.peer copy) ((place - engine.peer.forgotten) + j))) }
{
    let Some(engine) = handle.take(alloc) else {
        return bare(NO_PEER);
    };
    let answer = engine.items(copy, place, out);
    *handle = Handle::of(engine);
    answer
}

/// Puts the payload of a remembered command into `out`, and tells its length.
#[unsafe(no_mangle)]
pub extern "C" fn tsync_peer_payload(
    alloc: Global,
    handle: &mut Handle,
    from: MirrorId,
    number: Number,
    out: &mut [u8],
) -> Answer
    ensures state { handle.new.held.engine ≡ handle.old.held.engine }
    ensures answer { result ≡ answer_from handle.old.held.engine (payload_answer from number (length out.old)) }
    ensures length { length out.new ≡ length out.old }
    ensures bytes { result.kind ≡ VALUE → IfSome handle.old.held.engine (λ engine.
        take (length (payload_of from number engine.peer)) out.new ≡ payload_of from number engine.peer) }
    ensures refused { (result.kind ≡ VALUE → ⊥) → out.new ≡ out.old }
{
    let Some(engine) = handle.take(alloc) else {
        return bare(NO_PEER);
    };
    let answer = engine.payload(from, number, out);
    *handle = Handle::of(engine);
    answer
}

/// What is known of a slot.
#[unsafe(no_mangle)]
pub extern "C" fn tsync_peer_slot_of(
    alloc: Global,
    handle: &mut Handle,
    slot: MirrorId,
    out: &mut SlotItem,
) -> Answer
    ensures state { handle.new.held.engine ≡ handle.old.held.engine }
    ensures answer { result ≡ answer_from handle.old.held.engine (slot_answer slot) }
    ensures told { result.kind ≡ VALUE → IfSome handle.old.held.engine (λ engine. out.new ≡ slot_told slot engine.peer) }
    ensures refused { (result.kind ≡ VALUE → ⊥) → out.new ≡ out.old }
{
    let Some(engine) = handle.take(alloc) else {
        return bare(NO_PEER);
    };
    let answer = engine.slot_of(slot, out);
    *handle = Handle::of(engine);
    answer
}

/// How many commands of slot `of` the peer of slot `who` is known to have received.
#[unsafe(no_mangle)]
pub extern "C" fn tsync_peer_known(
    alloc: Global,
    handle: &mut Handle,
    who: MirrorId,
    of: MirrorId,
) -> Answer
    ensures state { handle.new.held.engine ≡ handle.old.held.engine }
    ensures answer { result ≡ answer_from handle.old.held.engine (known_answer who of) }
{
    let Some(engine) = handle.take(alloc) else {
        return bare(NO_PEER);
    };
    let answer = engine.known(who, of);
    *handle = Handle::of(engine);
    answer
}
