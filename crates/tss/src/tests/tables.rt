//! Tables of runs: words, a text, what is written and with which status, and what is kept.

pub(super) mod audits;
pub(super) mod faults;
pub(super) mod games;
pub(super) mod joins;
pub(super) mod lifts;
pub(super) mod nets;
pub(super) mod orders;
pub(super) mod plays;
pub(super) mod refusals;
pub(super) mod rewinds;
pub(super) mod texts;
pub(super) mod words;
