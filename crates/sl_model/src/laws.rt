//! Laws of one server. Each function says one and does nothing.
ghost use Rattle.sl_model.specs.Laws.{ReadingKeeps, FailureKeeps, CutsBytes, GrowsByZeros, RestartKeepsTree};

/// A call that only asks leaves the volume as it is.
pub fn reading_keeps()
    ensures { ReadingKeeps }
{}

/// A call whose reply isn't OK leaves the volume as it is.
pub fn failure_keeps()
    ensures { FailureKeeps }
{}

/// Where a file's node is put with a size, the bytes from there on are zero.
pub fn cuts_bytes()
    ensures { CutsBytes }
{}

/// The bytes past a cut are zero where the file then grows.
pub fn grows_by_zeros()
    ensures { GrowsByZeros }
{}

/// A restart leaves a tree a tree.
pub fn restart_keeps_tree()
    ensures { RestartKeepsTree }
{}
