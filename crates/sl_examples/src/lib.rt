//! Small histories that the claims on histories are tried on: each claim says yes of one that a server could have, and no
//! of others that differ in one thing. Each function says one such trial and does nothing.
#![tactic(auto)]

ghost use Rattle.sl_examples.specs.Claims.{RepliesAreToldApart, EffectsAreToldApart, DropsAreToldApart, VerifiersAreToldApart, FramesAreToldApart, CellsAreToldApart};

/// A call's one reply is legal; a second one, one with a wrong byte and none are not.
pub fn replies_are_told_apart()
    ensures { RepliesAreToldApart }
{}

/// A call takes effect once at most, not where it was dropped, and has no reply before it did.
pub fn effects_are_told_apart()
    ensures { EffectsAreToldApart }
{}

/// Before the Welcome a call is dropped as early, and has to be; after it, it may not be.
pub fn drops_are_told_apart()
    ensures { DropsAreToldApart }
{}

/// A Welcome brings a write verifier. No second one comes where nothing was lost, nor one that doesn't rise, and no flush
/// of a file without unstable writes.
pub fn verifiers_are_told_apart()
    ensures { VerifiersAreToldApart }
{}

/// Hello and Welcome are wired. A Welcome that nobody asked for is not, nor one by another actor, nor is a frame that is
/// given though it isn't in flight.
pub fn frames_are_told_apart()
    ensures { FramesAreToldApart }
{}

/// The server of the root's cell tells it as the volume has it, and does not tell that there is none.
pub fn cells_are_told_apart()
    ensures { CellsAreToldApart }
{}
