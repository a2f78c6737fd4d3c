//! The plain program: one NFS version 3 server that keeps its volume in memory.
#![tactic(auto)]

mod after;
mod change;
mod changing;
mod checks;
mod creating;
mod differing;
mod effects;
mod halt;
mod handles;
mod lines;
mod listing;
mod looking;
mod names;
mod nodes;
mod outcome;
mod pending;
mod perform;
mod renaming;
mod special;
mod stretch;
mod texts;
mod told;
mod unstable;
mod used;
mod volume;
mod walks;
mod written;

pub use change::Change;
pub use differing::Differences;
pub use lines::Lines;
pub use names::{Names, Place};
pub use nodes::Nodes;
pub use pending::Pending;
pub use perform::perform_plain;
pub use stretch::Stretch;
pub use texts::Texts;
pub use told::attributes;
pub use unstable::UnstableWrites;
pub use used::Used;
pub use volume::Volume;
pub use written::Written;
