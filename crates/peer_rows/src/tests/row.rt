//! A row, made line by line.

use crate::tests::calls::{call, not_joined};
use crate::tests::line::Line;
use crate::tests::said::{Kind, Said};
use crate::tests::session::Session;
use game_trait::Game;
use peer_session::{JoinError, Peer};
use std::alloc::Global;

// The peers of a row, by their places.
#[derive(Drop)]
struct Row<G: Game> {
    alloc: Global,
    session: Session,
    peers: Vec<Option<Peer<G>>>,
}

// A peer that joined takes its place, or it is said why none did.
fn seat<G: Game>(place: &mut Option<Peer<G>>, joined: Result<Peer<G>, JoinError>, said: &mut Said) {
    match joined {
        Ok(peer) => {
            said.kind(Kind::Made);
            *place = Some(peer);
        }
        Err(error) => not_joined(&error, said),
    }
}

impl<G: Game> Row<G> {
    // The peers of a row with this first line, none of whom is there yet.
    fn read(alloc: Global, head: &str) -> Option<Row<G>> {
        let session = Session::read(alloc, head)?;
        let mut peers = Vec::new(alloc);
        for _ in 0..3 {
            peers.push(None).ok()?;
        }
        Some(Row {
            alloc,
            session,
            peers,
        })
    }

    // A peer begins, or joins by a snapshot's bytes, in a place of a row, where it isn't refused.
    fn begin(&mut self, opening: &G, line: &Line<'_>, said: &mut Said) -> Option<()> {
        let me = line.words.byte(0)?;
        let peer = self.session.begin(self.alloc, opening, me)?;
        said.kind(Kind::Made);
        *self.peers.get_mut(line.peer)? = Some(peer);
        Some(())
    }

    fn join(&mut self, world: &G, line: &Line<'_>, said: &mut Said) -> Option<()> {
        let me = line.words.byte(0)?;
        let place = self.peers.get_mut(line.peer)?;
        let bytes = line.words.bytes.as_slice();
        seat(
            place,
            self.session.join(self.alloc, world, me, bytes)?,
            said,
        );
        Some(())
    }

    // Makes a line's call. `None`: there is no such call or peer, a word is missing, or there was no memory.
    fn make(&mut self, opening: &G, line: &Line<'_>, said: &mut Said) -> Option<()> {
        match line.call {
            "new" => self.begin(opening, line, said),
            "join" => self.join(opening, line, said),
            name => {
                let peer = self.peers.get_mut(line.peer)?.as_mut()?;
                call(peer, name, &line.words, said)
            }
        }
    }

    // Makes a line's call, and says whether it was answered so.
    fn agrees(&mut self, opening: &G, text: &str) -> bool {
        let Some(line) = Line::read(self.alloc, text) else {
            return false;
        };
        let mut said = Said::new(self.alloc);
        self.make(opening, &line, &mut said).is_some() && said.text() == line.due
    }
}

// Makes the calls of a row, whose peers begin with this world, up to the first that is answered otherwise: the
// number of its line, counted from 1 on. `None`: there is no such line.
pub(super) fn first_difference<G: Game>(alloc: Global, opening: &G, text: &str) -> Option<usize> {
    let Some((head, lines)) = text.split_once('\n') else {
        return Some(1);
    };
    let Some(mut row) = Row::<G>::read(alloc, head) else {
        return Some(1);
    };
    let mut number: usize = 1;
    for line in lines.lines() {
        number = number.saturating_add(1);
        if !row.agrees(opening, line) {
            return Some(number);
        }
    }
    None
}
