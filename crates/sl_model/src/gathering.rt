//! Laws of calls that are computed from what was gathered. Each function says one and does nothing.
ghost use Rattle.sl_model.specs.Laws.{PlansSuffice, CallsAreBlind, LookingTells, CellsSuffice, ViewsFit, ViewsSuffice, CleanIsSeen, CellsFollow};

/// What a plan answers from gathered cells, and changes, is what it answers and changes over the volume, if no cell that
/// it wants is missing and what it is told is right where it asks: a view where it sees an object, and where it looks at
/// one the node but for what unstable writes change. The plan has to be blind to that.
pub fn plans_suffice()
    ensures { PlansSuffice }
{}

/// Every call's plan is blind to what unstable writes change of a node that it only looks at.
pub fn calls_are_blind()
    ensures { CallsAreBlind }
{}

/// A plan that isn't blind may be told something else by a cell than by the volume: wherever an unstable write shows,
/// that is one that answers what it looks at.
pub fn looking_tells()
    ensures { LookingTells }
{}

/// What a call answers from gathered cells, and changes, is what it answers and changes over the volume, if no cell that
/// it wants is missing and what it is told is right where it asks. Files with unstable writes are no exception.
pub fn cells_suffice()
    ensures { CellsSuffice }
{}

/// Where each gathered node is a view, and all else the volume's, every plan is told what is right.
pub fn views_fit()
    ensures { ViewsFit }
{}

/// What a call answers from gathered views, and changes, is what it answers and changes over the volume, if no cell that
/// it wants is missing.
pub fn views_suffice()
    ensures { ViewsSuffice }
{}

/// The view of what has no unstable writes is its node, so that a server's own cell may stand for it.
pub fn clean_is_seen()
    ensures { CleanIsSeen }
{}

/// The cells after any changes are those of the volume after them.
pub fn cells_follow()
    ensures { CellsFollow }
{}
