//! Whether a history of the ensemble is legal: whether its effects, in the order in which they are noted, give exactly
//! the replies that one NFS version 3 server gives (RFC 1813). The turns are gone through once, the oldest first, and each
//! point of the definition is decided by a function of its own.
#![tactic(auto)]

mod answer;
mod case;
mod docket;
mod effects;
mod fault;
mod legal;
mod replies;
mod turns;
mod words;

pub use fault::RefereeFault;
pub use legal::is_legal;

#[cfg(test)]
mod tests;
