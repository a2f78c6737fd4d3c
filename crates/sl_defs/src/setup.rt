/// A moment: seconds, and nanoseconds below 10^9, since the epoch (RFC 1813, section 2.5, `nfstime3`).
#[derive(Clone, Copy, Debug, PartialEq, Eq)]
pub struct Time {
    pub sec: u32,
    pub nsec: u32,
}

/// On which directory site a name and a new object go.
#[derive(Clone, Copy, Debug, PartialEq, Eq)]
pub enum Policy {
    /// The directory's own site, but for a new directory where a byte of its hash is below this number.
    Switch(u8),
    /// The site that the hash of directory and name gives.
    Hash,
}

/// A volume: its number, its policy, and how many servers of each class it has.
#[derive(Clone, Copy, Debug, PartialEq, Eq)]
pub struct Setup {
    pub volume: u64,
    pub policy: Policy,
    /// Directory servers, 1 to 8.
    pub dirs: u8,
    /// Small-file servers, 1 to 4.
    pub small: u8,
    /// Storage nodes, 1 to 8.
    pub nodes: u8,
}
