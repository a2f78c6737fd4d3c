//! What is claimed of a history of the whole ensemble: that its effects, in the order in which they are noted, give
//! exactly the replies that one NFS version 3 server gives; that what it drops and forgets, it may; and that its frames
//! and disks play the parts that they are there for.
//!
//! `specs/` has these definitions alone. Each claim is a relation between a history's past, the turn that runs, and the
//! next note; each of its points is a case of its own.
#![tactic(auto)]
