//! The records that each actor appends to its journal, as the payloads of that journal. Each has one spelling.
#![tactic(auto)]

mod coordinator;
mod data_server;
mod directory;
mod done;
mod fault;
mod laws;
mod payload;
mod proxy;
mod request;
mod started;
mod works;

pub use coordinator::LogEntry;
pub use data_server::DataRecord;
pub use directory::DirRecord;
pub use done::{Did, Mint};
pub use fault::RecordFault;
pub use laws::texts_are_read;
pub use proxy::ProxyRecord;
pub use request::Request;
pub use started::Started;

#[cfg(test)]
mod rows;
#[cfg(test)]
mod tests;
