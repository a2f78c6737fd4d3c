ghost use Rattle.std.specs.Prelude.{◌+◌, ◌^◌, ◌<◌, length};

use sl_defs::{Bytes, Time};

/// A write that isn't stable yet: bytes of a file from an offset on, and when they were written.
#[derive(Drop)]
pub struct Pending {
    pub fileid: u64,
    pub offset: u64,
    pub bytes: Bytes,
    pub moment: Time,
    ghost fits: { offset + length bytes < 2 ^ 63 },
}
