//! What stands behind a head.

ghost use Rattle.std.specs.Prelude.{◌≡◌, bytes_eq};
ghost use Rattle.tss_io.specs.Reading.{GivesLine};

use game_trait::MirrorId;
use line_talk::Answerer;
use match_data::Match;
use std::alloc::Global;
use tss_io::LineFault;

/// What answers lines behind the head of a text, which is a first line and a match.
pub trait Opens: Answerer {
    ghost use Rattle.live_talk.specs.Head.{Kind};

    /// How such a text begins, and what stands behind its head.
    ghost kind: { Kind Self };

    /// Whether this is the first line of such a text.
    fn is_first(line: &[u8]) -> bool
        ensures { result ≡ bytes_eq line.now kind.first_line };

    /// What stands behind the head of the mirror of this number; the next line has this number. Or why
    /// the head's last line is refused.
    fn open(alloc: Global, m: Match, number: MirrorId, line: u32) -> Result<Self, LineFault>
        ensures { GivesLine (λ s. s) result (kind.opened m number line) };
}
