//! A journal: records on a disk, each of them there for good once it was acknowledged.
#![tactic(auto)]

mod appending;
mod device;
mod fault;
mod head;
mod journal;
mod laws;
mod making;
mod reading;
mod records;

pub use fault::JournalFault;
pub use journal::Journal;
pub use laws::bytes_stand_for_one_list;
pub use reading::read_journal;
pub use records::Records;

#[cfg(test)]
mod file_tests;
#[cfg(test)]
mod tests;
