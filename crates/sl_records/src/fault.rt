/// Why a record could not be read.
#[derive(Clone, Copy, Debug, PartialEq, Eq)]
pub enum RecordFault {
    /// The payload isn't in the grammar.
    BadRecord,
    NoMemory,
}
