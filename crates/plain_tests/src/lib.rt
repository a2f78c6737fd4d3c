//! Tests of the plain server, in a crate of their own: a crate that has tests is proved a second time with them.
#![tactic(auto)]

#[cfg(test)]
mod differing;
#[cfg(test)]
mod tests;
#[cfg(test)]
mod volumes;
