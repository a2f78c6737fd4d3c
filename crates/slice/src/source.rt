ghost use Rattle.std.specs.Prelude.{ℕ, List, Option};
ghost use Rattle.std.specs.Io.{ReadsAtMost};
ghost use Rattle.std.specs.Io.KnownBytes.{ReadConsumes};
ghost use Rattle.slice.specs.Outside.{Counts};

/// The source failed.
#[derive(Clone, Copy, Debug, PartialEq, Eq)]
pub struct Failed;

/// A source of bytes that counts its faults.
pub trait Source {
    /// The bytes that reads will give from here on, where it tells.
    ghost left: { Self → Option (List ℕ) };

    /// How often it has failed, up to the last value of a `u64`.
    ghost faults: { Self → ℕ };

    /// Reads some bytes into the front of a buffer, and says how many. Zero for a buffer that isn't empty is the end.
    fn read(&mut self, into: &mut [u8]) -> Result<usize, Failed>
        ensures bound { ReadsAtMost result into.new }
        ensures bytes { ReadConsumes (left self.old) (left self.new) result into.new }
        ensures cause { Counts (faults self.old) (faults self.new) result };
}
