//! A peer that says as much as the mirror of a match hears, and one that says a byte more.

ghost use Rattle.std.specs.Prelude.{◌≡◌, ◌≤◌, None, length};

use crate::live::live;
use crate::talking::LONGEST_INPUT;
use crate::tests::rows::HEAD;
use crate::tests::sessions::HEAD as SESSION;
use crate::tests::stage::{assert_lines, assert_same, words_of};
use arena_rules::Arena;
use line_talk::Peer;
use std::alloc::Global;
use std::process::Abort;
use tss_io::Failed;

// A peer that says a text and then one line that doesn't end, so many bytes of it.
#[derive(Drop)]
struct EndlessPeer {
    text: &'static [u8],
    left: usize,
    told: Vec<u8>,
    faults: u64,
}

impl EndlessPeer {
    // Says bytes of the text, and answers how many.
    fn say_text(&mut self, out: &mut [u8]) -> usize
        ensures within { result ≤ length out.new }
        ensures steady { self.new.faults ≡ self.old.faults }
    {
        let count = self.text.len().min(out.len());
        let (piece, text) = self.text.split_at(count);
        let (front, _) = out.split_at_mut(count);
        front.copy_from_slice(piece);
        self.text = text;
        count
    }

    // Says bytes of the line, and answers how many.
    fn say_line(&mut self, out: &mut [u8]) -> usize
        ensures within { result ≤ length out.new }
        ensures steady { self.new.faults ≡ self.old.faults }
    {
        let count = self.left.min(out.len());
        let (front, _) = out.split_at_mut(count);
        front.fill(b'x');
        self.left = self.left.saturating_sub(count);
        count
    }
}

impl Peer for EndlessPeer {
    ghost left = { λ _. None };

    ghost said = { λ _. None };

    ghost faults = { λ p. p.faults };

    fn hear(&mut self, out: &mut [u8]) -> Result<usize, Failed> {
        if self.text.is_empty() {
            Ok(self.say_line(out))
        } else {
            Ok(self.say_text(out))
        }
    }

    fn tell(&mut self, piece: &[u8]) -> Result<usize, Failed> {
        match self.told.extend_from_slice(piece) {
            Ok(()) => Ok(piece.len()),
            Err(_) => {
                self.faults = self.faults.saturating_add(1);
                Err(Failed)
            }
        }
    }

    fn flush(&mut self) -> Result<(), Failed> {
        Ok(())
    }
}

// Asserts that a talk with a peer that says this head and so many bytes in all ends so.
fn assert_ends(
    rt: &impl Abort,
    alloc: Global,
    head: &'static str,
    bytes: usize,
    status: u8,
    due: &str,
) {
    let text = head.as_bytes();
    let mut peer = EndlessPeer {
        text,
        left: bytes.saturating_sub(text.len()),
        told: Vec::new(alloc),
        faults: 0,
    };
    let done = live::<Arena, _>(alloc, words_of(rt, alloc, &["0"]).as_slice(), &mut peer);
    assert_same(
        rt,
        done.status,
        status,
        ("the status behind", bytes, "bytes"),
    );
    let told = String::from_utf8_lossy(alloc, peer.told.as_slice()).expect(rt, "memory");
    assert_lines(rt, "a line without an end", told.as_str(), due);
    assert_same(rt, peer.left, 0, ("what is left of", bytes, "bytes"));
}

#[test]
fn the_input_of_a_match_has_1_073_741_824_bytes(rt: HostRuntime) {
    let due = "ok\nrefused line 10 cause 8 end\n";
    assert_ends(&rt, rt.alloc(), HEAD, LONGEST_INPUT, 0, due);
    let due = "ok\nrefused line 0 cause 9 long\n";
    let more = LONGEST_INPUT.saturating_add(1);
    assert_ends(&rt, rt.alloc(), HEAD, more, 5, due);
}

#[test]
fn a_session_hears_more(rt: HostRuntime) {
    let due = "ok\nrefused line 11 cause 8 end\n";
    let more = LONGEST_INPUT.saturating_add(2);
    assert_ends(&rt, rt.alloc(), SESSION, more, 0, due);
}
