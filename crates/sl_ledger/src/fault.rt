/// Why it could not be said whether a claim holds of a history.
#[derive(Clone, Copy, Debug, PartialEq, Eq)]
pub enum AuditFault {
    NoMemory,
    /// An effect that the history notes would put a number that passes the end of its type.
    Spent,
}
