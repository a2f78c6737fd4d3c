//! An ensemble with one directory server as values, and the laws that what they do is what the machine says: of a step by
//! itself, of the coordinator, the directory server and the proxy, of whole events, and of the opening. So far the calls of
//! GETATTR are spoken of, and no disks.
#![tactic(auto)]

mod actors;
mod coordinator;
mod directory;
mod flight;
mod forwarding;
mod laws;
mod look;
mod looks;
mod proxy;
mod replying;
mod site;
mod step;
mod targets;
mod world;

pub use coordinator::Coordinator;
pub use directory::Directory;
pub use flight::{Flight, Flying};
pub use laws::{
    answers_are_used, arrivals_go_on, calls_are_passed_on, calls_are_refused, histories_go_on,
    openings_are_followed, packets_are_answered, steps_are_played, welcomes_are_used,
    what_the_coordinator_does_goes_on, what_the_directory_does_goes_on,
    what_the_proxy_does_goes_on,
};
pub use look::Look;
pub use looks::Looks;
pub use proxy::Proxy;
pub use site::Site;
pub use step::{Frames, Notes, Step, StepFault};
pub use world::{World, WorldFault};

#[cfg(test)]
mod directory_tests;
#[cfg(test)]
mod proxy_tests;
#[cfg(test)]
mod tests;
#[cfg(test)]
mod world_tests;
