//! Where fields stand, and what an edit changes: each function says one law, and does nothing.
ghost use Rattle.sl_edit.specs.Laws.{AttributesHaveSlots, CallXidsHaveSlots, CountsHaveSlots, EndMarksHaveSlots, HandlesHaveSlots, KeepersHaveSlots, ReplyXidsHaveSlots, VerifiersHaveSlots, WritesAreCut};

/// With another xid in its place, a call says the same under that xid.
pub fn call_xids_have_slots()
    ensures { CallXidsHaveSlots }
{}

/// Each handle of a call has its interval, and no other has one. With another handle of the same length there, the call
/// says the same of that object.
pub fn handles_have_slots()
    ensures { HandlesHaveSlots }
{}

/// A READ, and no other call, has an interval for its count. With another count there, it asks for so many bytes.
pub fn counts_have_slots()
    ensures { CountsHaveSlots }
{}

/// A WRITE, and no other call, can be cut. Cut to its first bytes, it says the same of these.
pub fn writes_are_cut()
    ensures { WritesAreCut }
{}

/// With another xid in its place, a reply says the same under that xid.
pub fn reply_xids_have_slots()
    ensures { ReplyXidsHaveSlots }
{}

/// A reply has an interval for the attributes of the object exactly where it has them, and says the same with others there.
pub fn attributes_have_slots()
    ensures { AttributesHaveSlots }
{}

/// The same of the write verifier.
pub fn verifiers_have_slots()
    ensures { VerifiersHaveSlots }
{}

/// The same of the end mark.
pub fn end_marks_have_slots()
    ensures { EndMarksHaveSlots }
{}

/// The same of the last four bytes of a handle of 32 that was found or made.
pub fn keepers_have_slots()
    ensures { KeepersHaveSlots }
{}
