//! Worked rows of peers: sessions by calls whose exact answers are known from outside. There is no code
//! here that runs.
#![tactic(auto)]

#[cfg(test)]
mod tests;
