//! What the peers of a row are made with.

ghost use Rattle.std.specs.Prelude.{◌≤◌, IfSome};
ghost use Rattle.rolling_mirror.specs.Rolling.{LetsTurnsGoOn};
ghost use Rattle.peer_packet.specs.Packet.{AreTerms};

use crate::tests::line::Words;
use game_trait::{Game, MirrorId};
use peer_calls::Config;
use peer_packet::Terms;
use peer_session::{JoinError, Peer};
use stagger_clock::Stagger;
use std::alloc::Global;

// What the peers of a row are made with: their config, and the ticks of their window.
#[derive(Clone, Copy)]
pub(super) struct Session {
    config: Config,
    window: u32,
}

impl Session {
    // What a row's first line tells.
    pub(super) fn read(alloc: Global, text: &str) -> Option<Session> {
        let words = Words::read(alloc, text.strip_prefix("session ")?)?;
        let terms = Terms {
            session: words.number(0)?,
            slots: words.byte(1)?,
            payload: words.byte(2)?,
        };
        let config = Config {
            terms,
            keep: words.count(4)?,
            relay: words.count(5)?,
            room: words.count(6)?,
        };
        Some(Session {
            config,
            window: words.count(3)?,
        })
    }

    // The config, where there may be such a session, and its window lets turns go on.
    fn config(self) -> Option<Config>
        ensures { IfSome result (λ c. AreTerms c.terms × (c.room ≤ 16384)) }
    {
        let terms = self.config.terms;
        if 64 < terms.slots || 64 < terms.payload || 16_384 < self.config.room {
            return None;
        }
        Some(self.config)
    }

    // The delays of a peer's copies, where its window lets turns go on.
    #[tactic(auto, unfolding(sync_model::specs::Lists::last_of))]
    fn delays(self) -> Option<Stagger>
        ensures { IfSome result (λ d. LetsTurnsGoOn d) }
    {
        if self.window < 4 {
            return None;
        }
        Stagger::try_new(&[0, 2], self.window)
    }

    // A peer in slot `me` as the session begins.
    pub(super) fn begin<G: Game>(
        self,
        alloc: Global,
        opening: &G,
        me: MirrorId,
    ) -> Option<Peer<G>> {
        let Some(config) = self.config() else {
            return None;
        };
        let Some(delays) = self.delays() else {
            return None;
        };
        if config.terms.slots <= me {
            return None;
        }
        Peer::new(alloc, &config, me, opening, &[delays]).ok()
    }

    // A peer that joins in slot `me` by a snapshot's bytes, with this world, or why there is none.
    pub(super) fn join<G: Game>(
        self,
        alloc: Global,
        world: &G,
        me: MirrorId,
        bytes: &[u8],
    ) -> Option<Result<Peer<G>, JoinError>> {
        let Some(config) = self.config() else {
            return None;
        };
        let Some(delays) = self.delays() else {
            return None;
        };
        if config.terms.slots <= me {
            return None;
        }
        Some(Peer::join(alloc, &config, me, world, &[delays], bytes))
    }
}
