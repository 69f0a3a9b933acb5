//! The lock of a mirror.

ghost use Rattle.std.specs.Prelude.{◌≡◌, ℕ, ◌+◌, ◌<◌, ◌≤◌, ◌^◌, [], map, length, vec_len, IfOk, IsTrue};
ghost use Rattle.std.specs.List.{All};
ghost use Rattle.game_trait.specs.Events.{is_arrival};
ghost use Rattle.sync_model.specs.Drafts.{ReadyTick, ready_of};
ghost use Rattle.mirror_core.specs.declared.drafts.Drafted.{Drafted as ADrafted};
ghost use Rattle.mirror_core.specs.Drafts.{IfDraft};
ghost use Rattle.turn_lock.specs.Rules.{one_if};
ghost use Rattle.tss_base.specs.Totals.{total};
ghost use Rattle.turn_lock.specs.Views.{view, fresh_views, member_of, FitsSeat, StillFits};
ghost use Rattle.turn_lock.specs.Calls.{IsCall};
ghost use Rattle.mirror_lock.specs.declared.calls.LockCall.TheVariants.{Event as AskEvent, Draft as AskDraft, Commit as AskCommit};
ghost use Rattle.mirror_lock.specs.declared.calls.LockReply.TheVariants.{Event as ToEvent, Draft as ToDraft, Commit as ToCommit};
ghost use Rattle.mirror_lock.specs.Locked.{mirror_rules, TakesFrom};
ghost use Rattle.mirror_lock.specs.Ending.{EndsAs};
ghost use Rattle.turn_lock.specs.Naming.{lock_name, seat_name, opened_with};

use crate::calls::{LockCall, LockReply, Slip};
use crate::held_mirror::HeldMirror;
use game_trait::{Event, Game, Reply};
use mirror_core::{Committed, Drafted, Mirror, Ready};
use std::alloc::Global;
use std::sync::Wait;
use tss_base::NoMemory;
use turn_lock::{Named, Share, TurnLock, TurnSeat};

/// A mirror's lock over the lock `L` of a held mirror.
pub struct MirrorOver<L> {
    lock: L,
}

/// The lock of a mirror of the game `G`. Threads share it by reference, each with a seat of its
/// own.
pub type MirrorLock<G> = MirrorOver<TurnLock<HeldMirror<G>>>;

/// A seat of a mirror's lock.
pub type MirrorSeat<G> = TurnSeat<HeldMirror<G>>;

impl<L: Drop> Drop for MirrorOver<L> {
    fn drop(self) {
        let Self { lock } = self;
        drop(lock);
    }
}

impl<L: Named> Named for MirrorOver<L> {
    ghost name = { λ m. L.name m.lock };
}

impl<L> MirrorOver<L> {
    fn into_lock(self) -> L
        ensures { result ≡ self.lock }
    {
        let Self { lock } = self;
        lock
    }
}

impl<G: Game> MirrorLock<G> {
    /// A lock of the mirror, and a seat for each share, numbered from 0 on. No seat has seen
    /// anything, and what fits the mirror fits each seat. The shares' arrivals are at most what the
    /// mirror has room for, in sum. On `NoMemory` nothing is created, and the mirror is dropped.
    pub fn start(
        alloc: Global,
        mirror: Mirror<G>,
        shares: &[Share],
    ) -> Result<(MirrorLock<G>, Vec<MirrorSeat<G>>), NoMemory>
        requires some_share { 0 < length shares.now }
        requires calls { total (λ s. s.calls) shares.now < 2 ^ 63 }
        requires arrivals { total (λ s. s.grows) shares.now ≤ mirror.spare }
        ensures opening { IfOk result (λ t. opened_with t.0.lock ≡ mirror) }
        ensures counted { IfOk result (λ t. t.0.lock.seats ≡ length shares.now) }
        ensures all { IfOk result (λ t. vec_len t.1 ≡ t.0.lock.seats) }
        ensures own { IfOk result
            (λ t. All (λ s. seat_name s.seat ≡ lock_name t.0.lock) t.1.items) }
        ensures seats { IfOk result
            (λ t. map (λ s. view s.seat) t.1.items ≡ fresh_views mirror 0 shares.now) }
        ensures fits { IfOk result
            (λ t. All (λ s. TakesFrom G.rules mirror (view s.seat)) t.1.items) }
    {
        mirror.always();
        let (lock, seats) = TurnLock::<HeldMirror<G>>::start(
            alloc,
            HeldMirror::new(mirror),
            shares,
        )?;
        Ok((MirrorOver { lock }, seats))
    }

    /// Waits for the seat's turn, and makes the event. It has to be due within the match, or to
    /// name a copy that is there; no seat puts another plan in force. The answer is the mirror's at
    /// that point of one history, of which the seat has then seen a front that ends with this
    /// event. It uses up one call of the seat's share, and an arrival one growing call. It spins
    /// briefly, and every 32 looks sleeps for about 100 microseconds. It takes no memory.
    pub fn ask<W: Wait>(&self, rt: &W, seat: &mut MirrorSeat<G>, event: &Event) -> Reply
        requires own { seat_name seat.old.seat ≡ lock_name self.now.lock }
        requires fits { FitsSeat (mirror_rules G.rules) (view seat.old.seat) (AskEvent event.now) }
        requires calls { 0 < seat.old.calls }
        requires arrivals { IsTrue (is_arrival event.now) → 0 < seat.old.grows }
        ensures own { seat_name seat.new.seat ≡ seat_name seat.old.seat }
        ensures called { IsCall (mirror_rules G.rules) (view seat.old.seat) (AskEvent event.now)
            (ToEvent result) (view seat.new.seat) }
        ensures fits { StillFits (mirror_rules G.rules) (view seat.old.seat) (view seat.new.seat) }
        ensures calls { seat.new.calls + 1 ≡ seat.old.calls }
        ensures arrivals { seat.new.grows + one_if (is_arrival event.now) ≡ seat.old.grows }
    {
        self.ask_on(rt, seat, &mut Slip::new(), event)
    }

    /// What `ask` does. The call and its answer are written on the slip, over what stood there.
    pub fn ask_on<W: Wait>(
        &self,
        rt: &W,
        seat: &mut MirrorSeat<G>,
        slip: &mut Slip<G>,
        event: &Event,
    ) -> Reply
        requires own { seat_name seat.old.seat ≡ lock_name self.now.lock }
        requires fits { FitsSeat (mirror_rules G.rules) (view seat.old.seat) (AskEvent event.now) }
        requires calls { 0 < seat.old.calls }
        requires arrivals { IsTrue (is_arrival event.now) → 0 < seat.old.grows }
        ensures own { seat_name seat.new.seat ≡ seat_name seat.old.seat }
        ensures called { IsCall (mirror_rules G.rules) (view seat.old.seat) (AskEvent event.now)
            (ToEvent result) (view seat.new.seat) }
        ensures fits { StillFits (mirror_rules G.rules) (view seat.old.seat) (view seat.new.seat) }
        ensures calls { seat.new.calls + 1 ≡ seat.old.calls }
        ensures arrivals { seat.new.grows + one_if (is_arrival event.now) ≡ seat.old.grows }
    {
        slip.call.put_event(event);
        self.lock.call(rt, seat, &slip.call, &mut slip.reply);
        match &slip.reply {
            LockReply::Event(reply) => *reply,
            _ => unreachable!(),
        }
    }

    /// Waits for the seat's turn, and takes out the due tick of a copy, which is there, to be
    /// executed outside the lock. What is answered is told by `Mirror::draft`; once it is run, a
    /// draft may be committed, whatever others ask before. It uses up one call of the seat's share.
    /// It takes no memory.
    pub fn draft<W: Wait>(&self, rt: &W, seat: &mut MirrorSeat<G>, copy: u8) -> Drafted<G>
        requires own { seat_name seat.old.seat ≡ lock_name self.now.lock }
        requires fits { FitsSeat (mirror_rules G.rules) (view seat.old.seat) (AskDraft copy 1) }
        requires calls { 0 < seat.old.calls }
        ensures own { seat_name seat.new.seat ≡ seat_name seat.old.seat }
        ensures called { IsCall (mirror_rules G.rules) (view seat.old.seat) (AskDraft copy 1)
            (ToDraft result) (view seat.new.seat) }
        ensures fits { StillFits (mirror_rules G.rules) (view seat.old.seat) (view seat.new.seat) }
        ensures ready { IfDraft result
            (λ d. FitsSeat (mirror_rules G.rules) (view seat.new.seat)
            (AskCommit (ready_of G.rules d))) }
        ensures calls { seat.new.calls + 1 ≡ seat.old.calls }
        ensures arrivals { seat.new.grows ≡ seat.old.grows }
    {
        let mut slip = Slip::new();
        self.draft_on(rt, seat, &mut slip, copy, 1);
        let Slip { call: _, reply } = slip;
        match reply {
            LockReply::Draft(drafted) => drafted,
            _ => unreachable!(),
        }
    }

    /// `draft`, repeated `times` times for as long as no tick is due, in one turn of the seat:
    /// where none is due, that is the answer each time, and else the first time gives it. It uses
    /// up one call all the same. The call and its answer are written on the slip, over what stood
    /// there.
    pub fn draft_on<W: Wait>(
        &self,
        rt: &W,
        seat: &mut MirrorSeat<G>,
        slip: &mut Slip<G>,
        copy: u8,
        times: u64,
    )
        requires own { seat_name seat.old.seat ≡ lock_name self.now.lock }
        requires fits { FitsSeat (mirror_rules G.rules) (view seat.old.seat) (AskDraft copy times) }
        requires some { 0 < times }
        requires calls { 0 < seat.old.calls }
        ensures own { seat_name seat.new.seat ≡ seat_name seat.old.seat }
        ensures called { IsCall (mirror_rules G.rules) (view seat.old.seat) (AskDraft copy times)
            slip.new.reply (view seat.new.seat) }
        ensures fits { StillFits (mirror_rules G.rules) (view seat.old.seat) (view seat.new.seat) }
        ensures ready { (drafted : ADrafted G) × (slip.new.reply ≡ ToDraft drafted)
            × IfDraft drafted
            (λ d. FitsSeat (mirror_rules G.rules) (view seat.new.seat)
            (AskCommit (ready_of G.rules d))) }
        ensures calls { seat.new.calls + 1 ≡ seat.old.calls }
        ensures arrivals { seat.new.grows ≡ seat.old.grows }
    {
        slip.call.put_draft(copy, times);
        self.lock.call(rt, seat, &slip.call, &mut slip.reply);
    }

    /// Waits for the seat's turn, and commits a tick that was executed outside the lock. What is
    /// answered and changed is told by `Mirror::commit`: where the copy was renewed since, nothing
    /// changes. It uses up one call of the seat's share. It takes no memory.
    pub fn commit<W: Wait>(&self, rt: &W, seat: &mut MirrorSeat<G>, r: Ready<G>) -> Committed
        requires own { seat_name seat.old.seat ≡ lock_name self.now.lock }
        requires fits { FitsSeat (mirror_rules G.rules) (view seat.old.seat) (AskCommit r) }
        requires calls { 0 < seat.old.calls }
        ensures own { seat_name seat.new.seat ≡ seat_name seat.old.seat }
        ensures called { IsCall (mirror_rules G.rules) (view seat.old.seat) (AskCommit r)
            (ToCommit result) (view seat.new.seat) }
        ensures fits { StillFits (mirror_rules G.rules) (view seat.old.seat) (view seat.new.seat) }
        ensures calls { seat.new.calls + 1 ≡ seat.old.calls }
        ensures arrivals { seat.new.grows ≡ seat.old.grows }
    {
        let mut slip = Slip {
            call: LockCall::Commit(r),
            reply: LockReply::Commit(Committed::Ran { repaired: 0 }),
        };
        self.commit_on(rt, seat, &mut slip)
    }

    /// What `commit` does, of the call that stands on the slip, which is a commit. The answer is
    /// written on it, over what stood there.
    pub fn commit_on<W: Wait>(
        &self,
        rt: &W,
        seat: &mut MirrorSeat<G>,
        slip: &mut Slip<G>,
    ) -> Committed
        requires own { seat_name seat.old.seat ≡ lock_name self.now.lock }
        requires commit { (r : ReadyTick G) × (slip.old.call ≡ AskCommit r) }
        requires fits { FitsSeat (mirror_rules G.rules) (view seat.old.seat) slip.old.call }
        requires calls { 0 < seat.old.calls }
        ensures own { seat_name seat.new.seat ≡ seat_name seat.old.seat }
        ensures called { IsCall (mirror_rules G.rules) (view seat.old.seat) slip.old.call
            (ToCommit result) (view seat.new.seat) }
        ensures fits { StillFits (mirror_rules G.rules) (view seat.old.seat) (view seat.new.seat) }
        ensures calls { seat.new.calls + 1 ≡ seat.old.calls }
        ensures arrivals { seat.new.grows ≡ seat.old.grows }
    {
        self.lock.call(rt, seat, &slip.call, &mut slip.reply);
        match &slip.reply {
            LockReply::Commit(committed) => *committed,
            _ => unreachable!(),
        }
    }

    /// The mirror, once all seats are back, at the end of one history: the events of these seats,
    /// each once, with the answers that they got. Its own history gained those that changed it, in
    /// order. It waits for nobody and takes no memory.
    pub fn close(self, seats: Vec<MirrorSeat<G>>) -> Mirror<G>
        requires own { All (λ s. seat_name s.seat ≡ lock_name self.lock) seats.items }
        requires all { vec_len seats ≡ self.lock.seats }
        ensures { EndsAs G.rules (opened_with self.lock)
            (map (λ s. member_of (view s.seat)) seats.items) result }
    {
        self.into_lock().close(seats).into_mirror()
    }
}
