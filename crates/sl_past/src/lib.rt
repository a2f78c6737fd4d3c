//! The history of an ensemble in memory: what happened, at which moment, and what was remarked of it. Contracts see a
//! turn as the turn of `sl_history`, so that what is claimed of histories can be said of these values. A history is read
//! from its transcript.
#![tactic(auto)]

mod fault;
mod happening;
mod lines;
mod notes;
mod reading;
mod remark;
mod turn;

pub use fault::TranscriptFault;
pub use happening::Happening;
pub use reading::read_history;
pub use remark::Remark;
pub use turn::Turn;

#[cfg(test)]
mod tests;
