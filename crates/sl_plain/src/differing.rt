ghost use Rattle.std.specs.Prelude.{◌≡◌, ◌↔◌, true};

use crate::names::Place;

/// Where two volumes differ, each place once or more.
#[derive(Drop)]
pub struct Differences {
    /// The fileids whose nodes or whose texts differ.
    pub objects: Vec<u64>,
    /// The names that lead elsewhere, or that only one of the volumes has.
    pub names: Vec<Place>,
    /// The files and offsets of the bytes that differ, without unstable writes.
    pub bytes: Vec<(u64, u64)>,
}

/// Whether the bytes are equal.
pub(crate) fn are_same(one: &[u8], other: &[u8]) -> bool
    ensures { (result ≡ true) ↔ (one.now ≡ other.now) }
{
    one == other
}
