//! Reading and writing the items that calls and replies share (RFC 1813, section 2.5).
#![tactic(auto)]

mod borrowing;
mod reading;
mod writing;

pub use borrowing::{borrow_bytes, borrow_fh};
pub use reading::{
    take_bytes, take_fattr, take_fh, take_kind, take_name, take_optional_fattr, take_optional_fh,
    take_optional_time, take_optional_u32, take_optional_u64, take_sattr, take_set_time,
    take_stable, take_time,
};
pub use writing::{
    put_bytes, put_fattr, put_fh, put_kind, put_name, put_optional_fattr, put_optional_fh,
    put_optional_time, put_optional_u32, put_optional_u64, put_sattr, put_set_time, put_stable,
    put_time,
};

#[cfg(test)]
mod tests;
