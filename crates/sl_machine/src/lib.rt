//! The ensemble as a machine: what its actors hold in memory and on their disks, what each may do and must do, and the
//! runs that follow.
//!
//! `specs/` has these definitions alone. An actor's step is a list of segments: at most one record is appended, and then
//! its memory changes, frames are sent and things are noted. Each row says in which case a segment may come, and gives
//! that segment by one equation.
#![tactic(auto)]
