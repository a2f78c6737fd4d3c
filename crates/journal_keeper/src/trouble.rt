use sl_defs::NoMemory;
use sl_journal::JournalFault;

/// Why the program ends early.
#[derive(Drop)]
pub(crate) enum Trouble {
    /// The words ask for nothing that it does.
    Words,
    /// The journal gave no answer.
    Journal(JournalFault),
    /// A record isn't that of its place.
    Wrong,
    /// Memory ran out.
    Memory,
    /// Standard output failed.
    Print,
}

impl From<NoMemory> for Trouble {
    fn from(_: NoMemory) -> Trouble {
        Trouble::Memory
    }
}

impl From<JournalFault> for Trouble {
    fn from(fault: JournalFault) -> Trouble {
        Trouble::Journal(fault)
    }
}
