//! What a mirror of a session without an end is behind its head.

ghost use Rattle.std.specs.Prelude.{◌≡◌, ◌<◌, ◌≤◌, true, IfOk, length};
ghost use Rattle.endless_mirror.specs.Session.{terms_of, opening_session};
ghost use Rattle.endless_mirror.specs.Stands.{Stands};
ghost use Rattle.endless_mirror.specs.Way.{lets_run};
ghost use Rattle.match_data.specs.Data.{schedules};
ghost use Rattle.std.specs.List.{list_all};

use game_trait::{Game, MirrorId, Number, Tick};
use live_talk::room_of;
use live_text::Terms;
use match_data::{Match, plans_of};
use match_setup::Roster;
use rolling_mirror::RollingMirror;
use std::alloc::Global;
use std::marker::Model;
use tss_base::NoMemory;

/// A mirror of a session without an end that is asked line by line, behind the lines of its match.
#[derive(Drop)]
pub struct EndlessSession<G: Game> {
    pub(crate) mirror: RollingMirror<G>,
    pub(crate) roster: Roster,
    plans: u8,
    pub(crate) number: MirrorId,
    version: u8,
    mirrors: u8,
    pub(crate) next: Number,
}

impl<G: Game> Model for EndlessSession<G> {
    ghost use Rattle.endless_mirror.specs.Session.{SessionState, IsSession};

    ghost Value = { SessionState G };

    ghost view = { λ s. record {
      mirror = s.mirror;
      names = s.roster;
      number = s.number;
      version = s.version;
      mirrors = s.mirrors;
      next = s.next;
    } };

    ghost invariant = { λ s. IsSession (record {
      mirror = s.mirror;
      names = s.roster;
      number = s.number;
      version = s.version;
      mirrors = s.mirrors;
      next = s.next;
    }) s.plans };
}

impl<G: Game> EndlessSession<G> {
    /// The mirror of this number, which the match has, as the session begins: its window is as long as
    /// the match, two ticks longer or more than each plan's last delay.
    pub fn open(
        alloc: Global,
        opening: &G,
        m: Match,
        number: MirrorId,
    ) -> Result<EndlessSession<G>, NoMemory>
        requires number { number < m.mirrors }
        requires windows { list_all lets_run (schedules m) ≡ true }
        ensures { IfOk result (λ s. s ≡ opening_session opening.now m number) }
    {
        let plans = plans_of(alloc, &m)?;
        let room = room_of(m.version);
        let keep = m.length / 4;
        let mirror = RollingMirror::new(alloc, opening, plans.as_slice(), room, keep)?;
        Ok(EndlessSession {
            mirror,
            plans: plans.len() as u8,
            number,
            version: m.version,
            mirrors: m.mirrors,
            roster: m.roster,
            next: 0,
        })
    }

    /// The mirror.
    pub fn mirror(&self) -> &RollingMirror<G>
        ensures { result.now ≡ self.now.mirror }
    {
        &self.mirror
    }

    /// How the next line is read.
    pub(crate) fn terms(&self) -> Terms
        ensures { result ≡ terms_of self.now }
    {
        Terms {
            version: self.version,
            length: Tick::MAX,
            mirrors: self.mirrors,
            players: self.roster.len() as u8,
            copies: self.mirror.copies(),
            plans: self.plans,
            can_arrive: self.mirror.spare() > 0,
            can_number: !self.mirror.remembers(self.number, self.next),
            can_restagger: true,
        }
    }

    /// What always holds of it. It does nothing.
    pub fn always(&self)
        ensures stands { Stands self.now.mirror }
        ensures copies { 0 < length self.now.mirror.left.runs }
        ensures plans { 0 < length self.now.mirror.left.plans }
    {
        self.mirror.always();
    }
}
