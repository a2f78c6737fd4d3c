//! Runs that open a new volume, and whose calls are all GETATTR: their histories are those of one NFS version 3 server.
#![tactic(auto)]

ghost use Rattle.sl_getattr.specs.Laws.{GetattrDropsAreExact, GetattrHistoriesAreFenced, GetattrHistoriesAreLegal, GetattrHistoriesAreLicensed, GetattrHistoriesAreWired, GetattrHistoriesRemember};

use sl_edit::{call_xids_have_slots, handles_have_slots};

/// Where a volume with one directory server is opened on empty disks, and no call but GETATTR comes, the history is legal:
/// each reply is the one that one server gives (RFC 1813, section 3.3.1), no call has two, and nothing takes effect. Frames may
/// be lost and repeated, and disks and actors may fail and stop; but no actor is started again.
///
/// A forwarded packet is the client's with another handle and xid, so this stands on what an edit of these leaves.
pub fn getattr_histories_are_legal()
    ensures { GetattrHistoriesAreLegal }
{
    handles_have_slots();
    call_xids_have_slots();
}

/// It is licensed too: the one write verifier comes where it is due, and is greater than the one that the server began with;
/// no flush is asked for; and what is dropped has to be.
pub fn getattr_histories_are_licensed()
    ensures { GetattrHistoriesAreLicensed }
{
    handles_have_slots();
    call_xids_have_slots();
}

/// And it is fenced: a call that is replied came since the write verifier, and waited until then.
pub fn getattr_histories_are_fenced()
    ensures { GetattrHistoriesAreFenced }
{
    handles_have_slots();
    call_xids_have_slots();
}

/// And it is wired: frames are given while they are in flight and numbered in their order, each is sent by who may, and a
/// Welcome or a packet answers the frame that is given in its turn.
pub fn getattr_histories_are_wired()
    ensures { GetattrHistoriesAreWired }
{
    handles_have_slots();
    call_xids_have_slots();
}

/// And it remembers: no reply tells a regular file's attributes, so that none is asked for again.
pub fn getattr_histories_remember()
    ensures { GetattrHistoriesRemember }
{
    handles_have_slots();
    call_xids_have_slots();
}

/// In such a history exactly those datagrams are dropped that have to be, each by the note that says why: the proxy is down,
/// no call header stands there, the proxy wasn't welcomed yet, or 256 calls wait.
pub fn getattr_drops_are_exact()
    ensures { GetattrDropsAreExact }
{
    handles_have_slots();
    call_xids_have_slots();
}
