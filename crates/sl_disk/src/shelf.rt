//! The trait of a shelf of disks.
ghost use Rattle.std.specs.Prelude.{◌≡◌, ◌⊎◌, ℕ, ◌-◌, ◌<◌, ◌≤◌, min, List, length, take, drop, IsTrue, IfOk, OnOk, OnErr, IsErrOf};
ghost use Rattle.sl_disk.specs.Shelf.{Situation, Called, OnlyLooks, LeavesOthers, Elapses, Torn, Shortened, Follows, NoMore, SameImages, Only, Arms, Leaves, SameCounts, IsUnchanged, written};

/// Why a call of a disk gave no answer.
#[derive(Clone, Copy, Debug, PartialEq, Eq)]
pub enum ShelfFault {
    /// The device failed.
    Failed,
    /// The device stopped inside the call.
    Stopped,
    /// Memory ran out, and nothing was changed.
    NoMemory,
}

/// What an armed call does in place of its work.
#[derive(Clone, Copy, Debug, PartialEq, Eq)]
pub enum Arm {
    /// It stops inside, and the image of this number is left.
    Stop(u64),
    /// It fails.
    Fail,
}

/// An armed call: so many device calls from now, the next being the first.
#[derive(Clone, Copy, Debug, PartialEq, Eq)]
pub struct Armed {
    pub after: u64,
    pub how: Arm,
}

/// Disks 0 to 63, whose bytes are read, written, cut and synced, and which may stop inside any call.
///
/// Between two syncs each written range, and the part past the old end, may hold any bytes after a stop; all
/// other bytes stay. After a sync that succeeded, a stop leaves what a read gives. That is the disk model. A
/// disk that keeps it, and whose contents are told, is called modelled. A shelf of files tells nothing.
pub trait Shelf {
    /// What is told of it now.
    ghost now: { Self → Situation };

    /// The length of a disk's contents, in bytes.
    fn len(&mut self, disk: u8) -> Result<u64, ShelfFault>
        requires { disk < 64 }
        ensures called { Called disk (now self.old) (now self.new) result }
        ensures looks { OnlyLooks disk (now self.old) (now self.new) result }
        ensures length { IsTrue ((now self.old).disk disk).is_modelled → IfOk result (λ n. n ≡ length ((now self.old).disk disk).contents) };

    /// Reads from that place on, into the front of a buffer, and answers how many bytes that were: as many as
    /// the buffer takes or the disk still has.
    fn read(&mut self, disk: u8, at: u64, into: &mut [u8]) -> Result<usize, ShelfFault>
        requires { disk < 64 }
        ensures called { Called disk (now self.old) (now self.new) result }
        ensures looks { OnlyLooks disk (now self.old) (now self.new) result }
        ensures within { IfOk result (λ n. n ≤ length into.old) }
        ensures bytes { IsTrue ((now self.old).disk disk).is_modelled → IfOk result (λ n. take n into.new ≡ take (length into.old) (drop at ((now self.old).disk disk).contents)) };

    /// Writes over what is there, and past the end, with zeros between the old end and the bytes.
    fn write_at(&mut self, disk: u8, at: u64, bytes: &[u8]) -> Result<(), ShelfFault>
        requires { disk < 64 }
        ensures called { Called disk (now self.old) (now self.new) result }
        ensures written { IsTrue ((now self.old).disk disk).is_modelled → OnOk result (((now self.new).disk disk).contents ≡ written ((now self.old).disk disk).contents at bytes.now) }
        ensures images { Follows (Torn at (length bytes.now)) ((now self.old).may_leave disk) ((now self.new).may_leave disk) };

    /// Cuts the contents to a length in bytes. A greater one changes nothing.
    fn cut(&mut self, disk: u8, size: u64) -> Result<(), ShelfFault>
        requires { disk < 64 }
        ensures called { Called disk (now self.old) (now self.new) result }
        ensures cut { IsTrue ((now self.old).disk disk).is_modelled → OnOk result (((now self.new).disk disk).contents ≡ take size ((now self.old).disk disk).contents) }
        ensures images { Follows (Shortened size) ((now self.old).may_leave disk) ((now self.new).may_leave disk) };

    /// After it, a stop leaves what a read gives.
    fn sync(&mut self, disk: u8) -> Result<(), ShelfFault>
        requires { disk < 64 }
        ensures called { Called disk (now self.old) (now self.new) result }
        ensures contents { IsTrue ((now self.old).disk disk).is_modelled → OnOk result (((now self.new).disk disk).contents ≡ ((now self.old).disk disk).contents) }
        ensures durable { IsTrue ((now self.old).disk disk).is_modelled → OnOk result (Only ((now self.old).disk disk).contents ((now self.new).may_leave disk)) }
        ensures images { NoMore ((now self.old).may_leave disk) ((now self.new).may_leave disk) };

    /// Makes a device call to come fail, or stop inside. A later one takes the place of one that has not come.
    fn arm(&mut self, disk: u8, after: u64, how: Arm)
        requires known { disk < 64 }
        requires to_come { 1 ≤ after }
        ensures others { LeavesOthers disk (now self.old) (now self.new) }
        ensures time { Elapses (now self.old) (now self.new) }
        ensures arms { Arms (record { after = after; how = how }) ((now self.old).disk disk) ((now self.new).disk disk) }
        ensures images { SameImages ((now self.old).may_leave disk) ((now self.new).may_leave disk) };

    /// Leaves an image now, as a stop between two calls does. It answers no fault but `NoMemory`.
    fn crash(&mut self, disk: u8, image: u64) -> Result<(), ShelfFault>
        requires { disk < 64 }
        ensures others { LeavesOthers disk (now self.old) (now self.new) }
        ensures time { Elapses (now self.old) (now self.new) }
        ensures model { ((now self.new).disk disk).is_modelled ≡ ((now self.old).disk disk).is_modelled }
        ensures counts { SameCounts ((now self.old).disk disk) ((now self.new).disk disk) }
        ensures leaves { OnOk result (Leaves image disk (now self.old) (now self.new)) }
        ensures images { NoMore ((now self.old).may_leave disk) ((now self.new).may_leave disk) }
        ensures no_fault { OnErr result (IsErrOf result ShelfFault.NoMemory × IsUnchanged disk (now self.old) (now self.new)) };

    /// What a read gives is one of the images now.
    ghost shows: { (shelf : Self) (d : ℕ) → IsTrue ((now shelf).disk d).is_modelled → (now shelf).may_leave d ((now shelf).disk d).contents };

    /// This moment is one of those since an earlier one.
    ghost counts_now: { (shelf : Self) (d t : ℕ) (c : List ℕ) → t ≤ (now shelf).moment → (now shelf).may_leave d c → (now shelf).left_since d t c };

    /// Since this moment there is no other.
    ghost only_now: { (shelf : Self) (d : ℕ) (c : List ℕ) → (now shelf).left_since d (now shelf).moment c → (now shelf).may_leave d c };

    ghost counts_together: { (shelf : Self) (t : ℕ) (f : ℕ → List ℕ) → t ≤ (now shelf).moment → ((d : ℕ) → d < 64 → (now shelf).may_leave d (f d)) → (now shelf).left_together t f };

    ghost only_together: { (shelf : Self) (f : ℕ → List ℕ) → (now shelf).left_together (now shelf).moment f → (d : ℕ) → d < 64 → (now shelf).may_leave d (f d) };

    /// What was left of all disks together was left of each.
    ghost each_of_them: { (shelf : Self) (t : ℕ) (f : ℕ → List ℕ) → (now shelf).left_together t f → (d : ℕ) → d < 64 → (now shelf).left_since d t (f d) };
}
