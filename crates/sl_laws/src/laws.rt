//! Laws of one server. Each function says one and does nothing.
ghost use Rattle.sl_laws.specs.Laws.{FreshIsTree, FlushKeepsTree, ParentsEndAtRoot, RefusedUsesNoId, CutsStayZero, ChangesCommute, PerformKeepsTree, MakingsAloneUseIds, AlwaysATree};

/// A new volume is a tree.
pub fn fresh_is_tree()
    ensures { FreshIsTree }
{}

/// A flush of any file leaves a tree a tree.
pub fn flush_keeps_tree()
    ensures { FlushKeepsTree }
{}

/// In a tree the parents lead from each live directory to the root, in at most as many steps as there are nodes.
pub fn parents_end_at_root()
    ensures { ParentsEndAtRoot }
{}

/// A call whose reply isn't OK leaves the used fileids as they are.
pub fn refused_makings_use_no_id()
    ensures { RefusedUsesNoId }
{}

/// The bytes past a cut stay zero through all changes that don't write them, in the view too.
pub fn cuts_stay_zero()
    ensures { CutsStayZero }
{}

/// Two changes at different places, no file, name or text being touched by both, give the same volume in either order.
pub fn changes_commute()
    ensures { ChangesCommute }
{}

/// Every call leaves a tree a tree, where the fileid that it may use for a new object is 0 or was never used.
pub fn perform_keeps_tree()
    ensures { PerformKeepsTree }
{}

/// A call that makes no object uses no fileid, and leaves the used fileids as they are.
pub fn makings_alone_use_ids()
    ensures { MakingsAloneUseIds }
{}

/// Whatever calls, flushes and restarts happen to a new volume, it stays a tree.
pub fn always_a_tree()
    ensures { AlwaysATree }
{}
