//! Laws over every run of the machine. Each function says one law and does nothing.
ghost use Rattle.sl_transport.specs.Laws.{ActorsAreUpAlike, AllMomentsRise, FramesAreGivenInFlight, FramesAreNumbered, FramesAreSentByActors, FramesFlyAlike, AnswersAnswerRequests, TheProxyAloneAsks};

/// What the world has in flight, and its numbers, are those of its history.
pub fn frames_fly_alike()
    ensures { FramesFlyAlike }
{}

/// A frame is given, copied or lost only while it is in flight.
pub fn frames_are_given_in_flight()
    ensures { FramesAreGivenInFlight }
{}

/// Frames are numbered from 1 on, in the order in which they are noted.
pub fn frames_are_numbered()
    ensures { FramesAreNumbered }
{}

/// The actors that are up in the world are those of its history, whatever stopped, failed or was opened.
pub fn actors_are_up_alike()
    ensures { ActorsAreUpAlike }
{}

/// No turn is of a moment after that of a later one.
pub fn moments_rise()
    ensures { AllMomentsRise }
{}

/// A frame is sent by an actor whose event it is, while it is up.
pub fn frames_are_sent_by_actors()
    ensures { FramesAreSentByActors }
{}

/// An answer is to a frame that was given to its sender, whatever the disks had before the volume was opened; but for the
/// replies and fileids of directory servers and the decisions of the coordinator, which their records keep.
pub fn answers_answer_requests()
    ensures { AnswersAnswerRequests }
{}

/// The proxy alone asks, and it sends nothing else: each Hello, forwarded call, request for cells, names and fileids, and
/// intent is from it, and of no operation.
pub fn the_proxy_alone_asks()
    ensures { TheProxyAloneAsks }
{}
