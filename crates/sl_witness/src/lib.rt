//! Runs of the machine of a volume with one server of each class, a turn after the other: what the machine says can
//! happen. Each function says that one history has a run, and does nothing.
#![tactic(auto)]

ghost use Rattle.sl_witness.specs.Disks.{EmptyDisksAreSound};
ghost use Rattle.sl_witness.specs.Runs.{TheEnsembleOpens, TheProxyIsWelcomed, AFrameIsLost, AProxyStartsAgain, ANullCallIsAnswered, ACallIsForwarded, ACallIsReplied, ACallIsDone, ACutCallIsDone, ALostCallIsDone};

use sl_laws::fresh_is_tree;

/// Empty disks hold a new volume at rest, and are sound for it.
pub fn empty_disks_are_sound()
    ensures { EmptyDisksAreSound }
{
    fresh_is_tree();
}

/// From empty disks all actors come up, and the proxy sends its first Hello.
pub fn the_ensemble_opens()
    ensures { TheEnsembleOpens }
{}

/// The coordinator records the fence of the Hello and answers with a Welcome, which brings the write verifier.
pub fn the_proxy_is_welcomed()
    ensures { TheProxyIsWelcomed }
{}

/// A Hello that is lost is sent again at a tick.
pub fn a_frame_is_lost()
    ensures { AFrameIsLost }
{}

/// A proxy that is opened again counts its start, and says Hello under a greater fence.
pub fn a_proxy_starts_again()
    ensures { AProxyStartsAgain }
{}

/// NULL is answered at its arrival, before the Welcome too.
pub fn a_null_call_is_answered()
    ensures { ANullCallIsAnswered }
{}

/// A call that only asks is forwarded to the one server that has what it asks for, with the request's tag for its xid.
pub fn a_call_is_forwarded()
    ensures { ACallIsForwarded }
{}

/// The server records the fence, answers the call from its cells, and the client has its reply.
pub fn a_call_is_replied()
    ensures { ACallIsReplied }
{}

/// A call that changes one server's cells is done by that server alone, and its reply names the event of its effect.
pub fn a_call_is_done()
    ensures { ACallIsDone }
{}

/// Where the append of a call's record is cut and the record is there at the next opening, the call is done once: the
/// opening notes it, the request that is sent again has the kept answer, and the reply names the event of the opening.
pub fn a_cut_call_is_done()
    ensures { ACutCallIsDone }
{}

/// Where the record isn't there at the next opening, nothing is noted, and the call is done when its request is sent again.
pub fn a_lost_call_is_done()
    ensures { ALostCallIsDone }
{}
