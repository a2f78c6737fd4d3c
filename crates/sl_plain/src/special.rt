ghost use Rattle.std.specs.Prelude.{◌≡◌};
ghost use Rattle.std.specs.Option.{option_map};
ghost use Rattle.sl_model.specs.Changing as changing;
ghost use Rattle.sl_plain.specs.Found as found;

use crate::checks::has_bad_time;
use sl_types::{Kind, NodeData, Sattr};

/// A special object that MKNOD is asked to make: its kind, its attributes, and a device's numbers.
#[derive(Clone, Copy, Debug, PartialEq, Eq)]
pub(crate) struct Special {
    pub kind: Kind,
    pub attributes: Sattr,
    pub major: u32,
    pub minor: u32,
}

/// What MKNOD is asked to make; nothing where it is what other procedures make.
pub(crate) fn special_of(what: NodeData) -> Option<Special>
    ensures { option_map found.special result ≡ changing.special_of what }
{
    match what {
        NodeData::Blk(device) => Some(Special {
            kind: Kind::Blk,
            attributes: device.attributes,
            major: device.major,
            minor: device.minor,
        }),
        NodeData::Chr(device) => Some(Special {
            kind: Kind::Chr,
            attributes: device.attributes,
            major: device.major,
            minor: device.minor,
        }),
        NodeData::Sock(attributes) => Some(Special {
            kind: Kind::Sock,
            attributes,
            major: 0,
            minor: 0,
        }),
        NodeData::Fifo(attributes) => Some(Special {
            kind: Kind::Fifo,
            attributes,
            major: 0,
            minor: 0,
        }),
        NodeData::Reg => None,
        NodeData::Dir => None,
        NodeData::Lnk => None,
    }
}

/// Whether a time that is given has nanoseconds past the second.
pub(crate) fn has_bad_special_time(special: Option<Special>) -> bool
    ensures { result ≡ changing.has_bad_special_time (option_map found.special special) }
{
    match special {
        Some(s) => has_bad_time(s.attributes),
        None => false,
    }
}
