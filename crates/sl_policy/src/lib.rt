//! On which site of the directory servers a name and a new object go.
#![tactic(auto)]

mod sites;

pub use sites::{name_site, object_site, site_of};
pub use sl_defs::Policy;

#[cfg(test)]
mod tests;
