//! Calls and replies edited in place (RFC 1813, section 3.3; RFC 5531, section 9).
//!
//! A view borrows a packet and takes no memory. Each of its edits writes one field where it stands and keeps every other
//! byte, padding and what follows the arguments with it. The functions of `packet` are the same edits with no view, for
//! who goes on with the packet and has to know what it is then.
#![tactic(auto)]

mod call_spans;
mod call_view;
mod cuts;
mod laws;
mod layout;
mod lending;
pub mod packet;
mod reply_spans;
mod reply_view;
mod span;
mod words;

pub use call_view::CallView;
pub use laws::{
    attributes_have_slots, call_xids_have_slots, counts_have_slots, end_marks_have_slots,
    handles_have_slots, keepers_have_slots, reply_xids_have_slots, verifiers_have_slots,
    writes_are_cut,
};
pub use reply_view::ReplyView;
pub use span::Span;

#[cfg(test)]
mod tests;
