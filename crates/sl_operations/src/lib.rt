//! Runs of the machine in which a file is made, written to or removed, on several servers together: what the machine
//! says can happen. Each function says that one history has a run, and does nothing.
#![tactic(auto)]

ghost use Rattle.sl_operations.specs.Runs.{AFileIsMade, AFileIsRemoved, AnAbsentFileIsNotRemoved, AStableWriteIsDone, ACutFinishIsDone, ALostFinishIsDone, AWriteIsBuffered, AWriteIsFlushed, AFlushIsRefused, ACutDecisionIsDone, ALostDecisionIsDone, ACutLockIsDone, ALostLockIsDone, AStableWriteIsLegal, AFlushIsLegal, ARemovalIsLegal, AFlushIsLicensed, ARemovalIsLicensed, ARemovalIsWired, ARefusalIsLicensed, AStableWriteStandsRightly, TheDisksStand};

/// CREATE asks for the name and then for a fileid, and the directory server makes the file alone.
pub fn a_file_is_made()
    ensures { AFileIsMade }
{}

/// REMOVE asks for the name and then for the file that it leads to, and the directory server removes the file alone.
pub fn a_file_is_removed()
    ensures { AFileIsRemoved }
{}

/// The same datagram again is a call of its own, with an effect and a reply of its own: there is no such file, and the disks
/// stay as they were.
pub fn an_absent_file_is_not_removed()
    ensures { AnAbsentFileIsNotRemoved }
{}

/// A stable WRITE is an operation on a directory server and a small-file server: both are locked, the coordinator decides,
/// the client has its reply, both do their work, and the operation ends.
pub fn a_stable_write_is_done()
    ensures { AStableWriteIsDone }
{}

/// Where the append of the Finish is cut at the directory server and the record is there at the next opening, the work is
/// done, and acknowledged when the Apply is sent again.
pub fn a_cut_finish_is_done()
    ensures { ACutFinishIsDone }
{}

/// Where the record isn't there, the server is still locked for the operation, and does its work when the Apply is sent
/// again.
pub fn a_lost_finish_is_done()
    ensures { ALostFinishIsDone }
{}

/// An unstable WRITE is buffered by the small-file server, and takes effect when it has answered; no disk has it.
pub fn a_write_is_buffered()
    ensures { AWriteIsBuffered }
{}

/// COMMIT makes it stable: an operation puts the attributes at the directory server, and the Lock's record of the small-file
/// server has the bytes. The client has its reply when the operation is decided.
pub fn a_write_is_flushed()
    ensures { AWriteIsFlushed }
{}

/// Where the small-file server stopped after the WRITE, it refuses the Lock, and the operation is released at both servers.
/// The proxy begins anew under its next fence, and a new write verifier says that the bytes are lost.
pub fn a_flush_is_refused()
    ensures { AFlushIsRefused }
{}

/// Where the append of the decision is cut at the coordinator and the record is there at the next opening, the effect is noted
/// then, and the reply names that event.
pub fn a_cut_decision_is_done()
    ensures { ACutDecisionIsDone }
{}

/// Where the record isn't there, nothing is noted; once the coordinator has heard the proxy it asks for the Locks again, both
/// servers grant them again, and the operation is decided then.
pub fn a_lost_decision_is_done()
    ensures { ALostDecisionIsDone }
{}

/// Where the append of the Lock is cut at the directory server and the record is there at the next opening, the server is
/// locked, and grants when the Lock is sent again.
pub fn a_cut_lock_is_done()
    ensures { ACutLockIsDone }
{}

/// Where the record isn't there, the server is locked when the Lock is sent again.
pub fn a_lost_lock_is_done()
    ensures { ALostLockIsDone }
{}

/// The history of the stable WRITE is legal.
pub fn a_stable_write_is_legal()
    ensures { AStableWriteIsLegal }
{}

/// The history of the unstable WRITE and the COMMIT is legal.
pub fn a_flush_is_legal()
    ensures { AFlushIsLegal }
{}

/// The history of the two REMOVEs is legal.
pub fn a_removal_is_legal()
    ensures { ARemovalIsLegal }
{}

/// What the history of the flush drops, forgets, flushes and keeps, it may.
pub fn a_flush_is_licensed()
    ensures { AFlushIsLicensed }
{}

/// The history of the two REMOVEs drops, forgets, flushes and keeps nothing that it may not.
pub fn a_removal_is_licensed()
    ensures { ARemovalIsLicensed }
{}

/// In that history requests are answered by those that they went to, what the directory server tells is there, and the first
/// REMOVE takes effect where the root, the name and the file lie.
pub fn a_removal_is_wired()
    ensures { ARemovalIsWired }
{}

/// The history of the refused flush is legal, and the write verifier may rise in it, since the small-file server stopped.
pub fn a_refusal_is_licensed()
    ensures { ARefusalIsLicensed }
{}

/// The effect of the stable WRITE stands where the coordinator was given a Grant of each server of what it changes.
pub fn a_stable_write_stands_rightly()
    ensures { AStableWriteStandsRightly }
{}

/// After the stable WRITE and after the flush the file's cell and bytes are on the disks, and after the flush that was refused
/// the file is as it was made.
pub fn the_disks_stand()
    ensures { TheDisksStand }
{}
