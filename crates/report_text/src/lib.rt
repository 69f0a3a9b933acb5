//! Lines of mirrors, scores, soaks, hits, refusals and usage. Each call appends one text, or
//! returns one.
#![tactic(auto)]

mod ends;
mod hits;
mod mirrors;
mod replies;
mod score;
mod soak;
mod worlds;

pub use ends::{done_line, refusal_text, refused_line, usage_line};
pub use hits::hits_line;
pub use mirrors::{line_end, mirror_line, run_head, run_mark};
pub use replies::{arrival_line, repair_line, step_line, tick_line};
pub use score::{ScoreRow, score_json};
pub use soak::{same_line, soak_line};
pub use worlds::{copy_block, world_block};
