/// Why a transcript could not be read.
#[derive(Clone, Copy, Debug, PartialEq, Eq)]
pub enum TranscriptFault {
    /// The text is no transcript.
    Bad,
    NoMemory,
}
