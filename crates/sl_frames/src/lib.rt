//! Messages between the actors: a frame is a header and a body, and has one spelling.
#![tactic(auto)]

mod actors;
mod bodies;
mod body;
mod found;
mod frame;
mod intent;
mod laws;
mod parts;
mod sound;
mod wire;
mod work;

pub use body::Body;
pub use found::{FoundCell, FoundCells};
pub use frame::{Frame, Uses};
pub use intent::{Intent, Part, Parts, What};
pub use laws::{spellings_are_read, texts_are_unique};
pub use sound::used_fields;
pub use wire::FrameFault;
pub use work::Work;

#[cfg(test)]
mod rows;
#[cfg(test)]
mod tests;
