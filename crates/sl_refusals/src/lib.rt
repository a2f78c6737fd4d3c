//! Small histories that have one point wrong, each beside one that is right: for each point of the claims on histories, that it
//! refuses the one and takes the other. Each function says one such trial and does nothing.
#![tactic(auto)]

ghost use Rattle.sl_refusals.specs.Effects.{FileidsAreToldApart, KeptWritesAreToldApart, MomentsAreToldApart};
ghost use Rattle.sl_refusals.specs.Answers.{EffectRepliesAreToldApart, LooksAreToldApart, CommitsAreToldApart, InstantRepliesAreToldApart, CallsAreToldApart};
ghost use Rattle.sl_refusals.specs.Sequences.{NamesComeAndGo, BytesAreToldApart};
ghost use Rattle.sl_refusals.specs.Drops.{JunkIsToldApart, LossesAreToldApart, CrowdsAreToldApart};
ghost use Rattle.sl_refusals.specs.Flushes.{UnstableWritesAreToldApart, FlushRequestsAreToldApart, FlushesAreToldApart, WantOfFileidsIsToldApart};
ghost use Rattle.sl_refusals.specs.Requests.{SendersAreToldApart, AnswersAreToldApart, FlightsAreToldApart, ServersAreToldApart, QuietFilesAreToldApart};
ghost use Rattle.sl_refusals.specs.Bytes.{ReadBytesAreToldApart, UnstableEffectsAreToldApart};
ghost use Rattle.sl_refusals.specs.Places.{PlacesAreToldApart, SitesAreToldApart};
ghost use Rattle.sl_refusals.specs.Grants.{GrantsAreToldApart};
ghost use Rattle.sl_refusals.specs.Names.{NamesAreToldApart, ListingsAreToldApart};
ghost use Rattle.sl_refusals.specs.Fences.{FencesAreToldApart, OldCallsAreToldApart};
ghost use Rattle.sl_refusals.specs.Memories.{MemoriesAreToldApart};
ghost use Rattle.sl_refusals.specs.Ends.{EndsAreToldApart};

/// A new object has a fileid that no object had before.
pub fn fileids_are_told_apart()
    ensures { FileidsAreToldApart }
{}

/// A WRITE that is answered FILE_SYNC is told as kept, and no other call is.
pub fn kept_writes_are_told_apart()
    ensures { KeptWritesAreToldApart }
{}

/// The moment of an effect isn't before that of its call, nor after that of its note.
pub fn moments_are_told_apart()
    ensures { MomentsAreToldApart }
{}

/// The reply to a call that changed something names the event of its effect, and is what the server answered then.
pub fn effect_replies_are_told_apart()
    ensures { EffectRepliesAreToldApart }
{}

/// The reply to a call that only asks tells the volume at the end of the event that it names, which isn't before the call came,
/// nor one to come.
pub fn looks_are_told_apart()
    ensures { LooksAreToldApart }
{}

/// COMMIT is answered OK once the file was flushed, and not before.
pub fn commits_are_told_apart()
    ensures { CommitsAreToldApart }
{}

/// What needs no server is answered in its own event, and only while the proxy is up.
pub fn instant_replies_are_told_apart()
    ensures { InstantRepliesAreToldApart }
{}

/// Only a call that isn't dropped is replied or has an effect, and an effect only one that may change something.
pub fn calls_are_told_apart()
    ensures { CallsAreToldApart }
{}

/// A file is made, removed, made and removed again, with another fileid; that of the removed file isn't given again.
pub fn names_come_and_go()
    ensures { NamesComeAndGo }
{}

/// READ gives the byte that was written, though it isn't stable yet, and no other.
pub fn bytes_are_told_apart()
    ensures { BytesAreToldApart }
{}

/// What is no call is junk, and has to be; a call isn't.
pub fn junk_is_told_apart()
    ensures { JunkIsToldApart }
{}

/// What comes while the proxy is down is lost, and has to be; what comes while it is up, welcomed and has few calls isn't dropped.
pub fn losses_are_told_apart()
    ensures { LossesAreToldApart }
{}

/// A call that finds 256 others waiting is dropped, and has to be; one that finds fewer isn't.
pub fn crowds_are_told_apart()
    ensures { CrowdsAreToldApart }
{}

/// A WRITE that may stay unstable isn't kept while few files have unstable writes.
pub fn unstable_writes_are_told_apart()
    ensures { UnstableWritesAreToldApart }
{}

/// A flush is asked for only for a call that keeps the file, and only where the file has unstable writes.
pub fn flush_requests_are_told_apart()
    ensures { FlushRequestsAreToldApart }
{}

/// Each flush has a request of its own, which the coordinator was given.
pub fn flushes_are_told_apart()
    ensures { FlushesAreToldApart }
{}

/// CREATE answers NOSPC only once the proxy was told that no fileid is left.
pub fn want_of_fileids_is_told_apart()
    ensures { WantOfFileidsIsToldApart }
{}

/// Frames are numbered one after another, and sent by the actor whose event it is, while it is up.
pub fn senders_are_told_apart()
    ensures { SendersAreToldApart }
{}

/// An answer has the fence, the tag and the operation of what it answers.
pub fn answers_are_told_apart()
    ensures { AnswersAreToldApart }
{}

/// A frame is lost, or given and kept in flight, only while it is in flight.
pub fn flights_are_told_apart()
    ensures { FlightsAreToldApart }
{}

/// A request is answered by the server that it was sent to.
pub fn servers_are_told_apart()
    ensures { ServersAreToldApart }
{}

/// No server is asked for the attributes of a file with unstable writes.
pub fn quiet_files_are_told_apart()
    ensures { QuietFilesAreToldApart }
{}

/// The reply to a READ has the bytes that the server of its offset gave for this call, and names the event in which it did.
pub fn read_bytes_are_told_apart()
    ensures { ReadBytesAreToldApart }
{}

/// A WRITE that stays unstable takes effect where the proxy is given the answer of the server of its offset, to the request for
/// this call.
pub fn unstable_effects_are_told_apart()
    ensures { UnstableEffectsAreToldApart }
{}

/// An effect is noted by the directory server that has all of it, while it is up; by the coordinator only where it was granted.
pub fn places_are_told_apart()
    ensures { PlacesAreToldApart }
{}

/// A new file's fileid is of the site of its directory.
pub fn sites_are_told_apart()
    ensures { SitesAreToldApart }
{}

/// A flush is noted by the coordinator, once each server of what becomes stable has granted it, and not for another operation.
pub fn grants_are_told_apart()
    ensures { GrantsAreToldApart }
{}

/// A directory server tells what a name leads to, and neither that it leads elsewhere nor that there is no such name.
pub fn names_are_told_apart()
    ensures { NamesAreToldApart }
{}

/// It tells all names of a directory that lie with it, and whether there are more.
pub fn listings_are_told_apart()
    ensures { ListingsAreToldApart }
{}

/// The coordinator does what was asked for under a fence, until the write verifier of the next one stands.
pub fn fences_are_told_apart()
    ensures { FencesAreToldApart }
{}

/// A call is replied until the next write verifier stands, and not after it.
pub fn old_calls_are_told_apart()
    ensures { OldCallsAreToldApart }
{}

/// The proxy replies what it was told of a file, and doesn't ask the server again.
pub fn memories_are_told_apart()
    ensures { MemoriesAreToldApart }
{}

/// Few frames are given; and once none is in flight the proxy is welcomed, and no call waits.
pub fn ends_are_told_apart()
    ensures { EndsAreToldApart }
{}
