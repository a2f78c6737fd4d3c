//! What a history shows as it is gone through, the oldest turn first: who is up, which frames were sent, given and are in
//! flight, what arrived and what still waits; and beside it the one server's volume. Claims on histories are decided over
//! these.
#![tactic(auto)]

mod actors;
mod arrivals;
mod fault;
mod ledger;
mod lists;
mod results;
mod sent;
mod serving;

pub use fault::AuditFault;
pub use ledger::Ledger;
pub use results::results_of;
pub use serving::serve;

#[cfg(test)]
mod tests;
