ghost use Rattle.std.specs.Prelude.{◌+◌, ◌^◌, ◌≤◌, length};

use sl_defs::Bytes;

/// Bytes of a file from an offset on.
#[derive(Drop)]
pub struct Stretch {
    pub fileid: u64,
    pub offset: u64,
    pub bytes: Bytes,
    ghost fits: { offset + length bytes ≤ 2 ^ 64 },
}
