use sl_defs::{Event, Setup, Time};

/// What a turn is of.
#[derive(Drop, Debug)]
pub enum Happening {
    /// The volume is opened.
    Opens(Setup),
    /// The moment is set.
    Reaches(Time),
    /// An event.
    Happens(Event),
}
