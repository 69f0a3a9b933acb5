//! What a match that was played leaves.

use match_data::MirrorLog;
use tss_base::Seq;

/// What a match that was played leaves: its text, and the logs of its mirrors, mirror 0 first.
#[derive(Drop)]
pub struct Played {
    pub text: Seq<u8>,
    pub kept: Seq<MirrorLog>,
}
