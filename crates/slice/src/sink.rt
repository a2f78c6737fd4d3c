ghost use Rattle.std.specs.Prelude.{ℕ, List, Option};
ghost use Rattle.slice.specs.Outside.{SinkCounts, Writes};

/// Why a write ended.
#[derive(Clone, Copy, Debug, PartialEq, Eq)]
pub enum SinkError {
    /// The sink failed.
    Failed,
    NoMemory,
}

/// A sink of bytes that counts its faults.
pub trait Sink {
    /// What it holds, where it tells.
    ghost holds: { Self → Option (List ℕ) };

    /// How often it has failed, up to the last value of a `u64`.
    ghost faults: { Self → ℕ };

    /// Writes all of the bytes. After a fault a front of them was taken, after want of memory none of them.
    fn write(&mut self, bytes: &[u8]) -> Result<(), SinkError>
        ensures took { Writes result (holds self.old) (holds self.new) bytes.now }
        ensures cause { SinkCounts (faults self.old) (faults self.new) result };
}
