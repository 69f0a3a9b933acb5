//! The threads' work, as calls that a thread can make alone: a worker that runs one copy of a
//! mirror, and a feeder that feeds a mirror with ticks and arrivals, its own and those that come
//! over links.
#![tactic(auto)]

mod copy_job;
mod copy_worker;
mod draft_post;
mod feeder;
mod feeder_job;
mod gate;
mod hearing;
mod issues;
pub mod laws;
mod post;
mod rest;
mod sends;

pub use copy_job::{CopyEnd, CopyJob};
pub use copy_worker::run_copy;
pub use draft_post::{DraftPost, Draw};
pub use feeder::run_feeder;
pub use feeder_job::{FeederEnd, FeederJob};
pub use gate::{Gate, OpenGate};
pub use post::{Asked, Post, TrailMark};
