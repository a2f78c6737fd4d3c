//! The heads of calls, and the replies that need no server (RFC 5531).
#![tactic(auto)]

mod answer;
mod credential;
mod head;
mod header;
mod reply;

pub use answer::immediate_answer;
pub use credential::credentials_are_read_exactly;
pub use head::{AcceptStat, Deny, Head, read_call};
pub use reply::{write_accept, write_deny};

#[cfg(test)]
mod tests;
