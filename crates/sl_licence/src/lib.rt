//! Whether a history of the ensemble is licensed: whether what it drops, forgets, flushes and keeps, it may. The turns are
//! gone through once, the oldest first, and each point of the definition is decided by a function of its own.
#![tactic(auto)]

mod alone;
mod asking;
mod crowds;
mod dirty;
mod docket;
mod drops;
mod evidence;
mod flushes;
mod licensed;
mod losses;
mod mints;
mod words;

pub use licensed::is_licensed;

#[cfg(test)]
mod tests;
