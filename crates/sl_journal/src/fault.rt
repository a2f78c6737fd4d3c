ghost use Rattle.std.specs.Prelude.{◌≡◌};

use sl_defs::NoMemory;
use sl_disk::ShelfFault;

/// Why a journal gave no answer.
#[derive(Clone, Copy, Debug, PartialEq, Eq)]
pub enum JournalFault {
    /// The device failed.
    Failed,
    /// The device stopped inside a call.
    Stopped,
    /// What stands on the disk is no journal of this actor and volume.
    NotAJournal,
    /// Memory ran out.
    NoMemory,
    /// The place of the next gate would be 2^64 or more.
    Spent,
}

impl From<NoMemory> for JournalFault {
    ghost use Rattle.sl_journal.specs.declared.fault.JournalFault.TheVariants.{NoMemory};

    ghost from_gives = { λ _ e. e ≡ NoMemory };

    fn from(_: NoMemory) -> JournalFault {
        JournalFault::NoMemory
    }
}
