//! What is noted of datagrams that no server is asked about: that they are no calls, the replies that they have whatever
//! the server holds, and that they found the proxy down.
#![tactic(auto)]

ghost use Rattle.sl_arrivals.specs.Arrivals.{ArrivalsAreNoted, RunsAnswerAtOnce};

/// In the turn of a datagram that is no call that alone is noted, and in the turn of one that is answered whatever the
/// server holds that reply alone (RFC 5531, section 9). A datagram that finds the proxy down is lost.
pub fn arrivals_are_noted()
    ensures { ArrivalsAreNoted }
{}

/// So it is in the history of every run: a datagram that is no call has that note alone in its turn, and one that is answered
/// whatever the server holds its one reply, while the proxy is up.
pub fn runs_answer_at_once()
    ensures { RunsAnswerAtOnce }
{}
