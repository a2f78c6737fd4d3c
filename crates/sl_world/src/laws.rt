//! Laws on steps, events and histories. Each function says one law and does nothing.
ghost use Rattle.sl_world.specs.Acting.{StepsArePlayed};
ghost use Rattle.sl_world.specs.Laws.{AnswersAreUsed, ArrivalsGoOn, CallsArePassedOn, CallsAreRefused, CoordinatorsGoOn, DirectoriesGoOn, HistoriesGoOn, OpeningsAreFollowed, PacketsAreAnswered, ProxiesGoOn, WelcomesAreUsed};

/// What an actor does by itself it does in the world too, segment by segment.
pub fn steps_are_played()
    ensures { StepsArePlayed }
{}

/// A GETATTR of a handle that this volume may have waits under the number of its event, and goes to the object's server with
/// the next tag.
pub fn calls_are_passed_on()
    ensures { CallsArePassedOn }
{}

/// A GETATTR of a handle that is none, or that this volume can't have, is answered at once.
pub fn calls_are_refused()
    ensures { CallsAreRefused }
{}

/// The first Welcome of its fence brings the proxy the write verifier.
pub fn welcomes_are_used()
    ensures { WelcomesAreUsed }
{}

/// The answer to a request that is out is the reply to the call that waits for it, and the call waits no longer.
pub fn answers_are_used()
    ensures { AnswersAreUsed }
{}

/// A directory server that has the root alone answers a forwarded GETATTR from its cells, unless it is of an older fence, or
/// of a tag that isn't waited for.
pub fn packets_are_answered()
    ensures { PacketsAreAnswered }
{}

/// What the proxy does for a datagram is an event of the machine.
pub fn arrivals_go_on()
    ensures { ArrivalsGoOn }
{}

/// What the proxy does for a frame is an event of the machine.
pub fn what_the_proxy_does_goes_on()
    ensures { ProxiesGoOn }
{}

/// What the coordinator does for a frame is an event of the machine.
pub fn what_the_coordinator_does_goes_on()
    ensures { CoordinatorsGoOn }
{}

/// What the directory server does for a frame is an event of the machine.
pub fn what_the_directory_does_goes_on()
    ensures { DirectoriesGoOn }
{}

/// Every history that the ensemble followed it follows after an event, with the event's turn.
pub fn histories_go_on()
    ensures { HistoriesGoOn }
{}

/// The ensemble that has opened follows the history of its opening: all actors of the volume come up on empty disks, and the
/// proxy says Hello.
pub fn openings_are_followed()
    ensures { OpeningsAreFollowed }
{}
