//! What calls, datagrams and replies are.
ghost use Rattle.std.specs.Prelude.{◌≡◌, ℕ};
ghost use Rattle.sl_types.specs.Handles.{handle_of};
ghost use Rattle.sl_past.specs.Words.{happening_of};
ghost use Rattle.sl_history.specs.Remembering as remembering;
ghost use Rattle.sl_recall.specs.Files.{is_another, is_this};

use sl_defs::Event;
use sl_past::Happening;
use sl_types::{Call, Fattr, Fh, Handle, Kind, Reply};

/// Whether a datagram arrives.
pub(crate) fn is_datagram(happening: &Happening) -> bool
    ensures { result ≡ remembering.is_datagram (happening_of happening.now) }
{
    matches!(happening, Happening::Happens(Event::Call { .. }))
}

/// The attributes of an object that the reply to GETATTR, LOOKUP, ACCESS or READ tells.
pub(crate) fn attributes_in(reply: &Reply) -> Option<Fattr>
    ensures { result ≡ remembering.attributes_in reply.now }
{
    match reply {
        Reply::Getattr(Ok(attributes)) => Some(*attributes),
        Reply::Lookup(Ok(found)) => found.attributes,
        Reply::Access(Ok(checked)) => checked.attributes,
        Reply::Read(Ok(read)) => read.attributes,
        _ => None,
    }
}

/// The regular file that the attributes are of.
pub(crate) fn file_of(attributes: Option<Fattr>) -> Option<u64>
    ensures { (f : ℕ) → remembering.is_file f attributes ≡ is_this f result }
{
    match attributes {
        Some(attributes) => match attributes.kind {
            Kind::Reg => Some(attributes.fileid),
            _ => None,
        },
        None => None,
    }
}

/// The regular file that the handle leads to.
pub(crate) fn file_named(handle: &Fh) -> Option<u64>
    ensures { (f : ℕ) → remembering.names_file f (handle_of handle.now) ≡ is_this f result }
{
    match Handle::read(handle.as_slice()) {
        Some(handle) => match handle.kind {
            Kind::Reg => Some(handle.fileid),
            _ => None,
        },
        None => None,
    }
}

/// The directory that the handle leads to.
pub(crate) fn directory_named(handle: &Fh) -> Option<u64>
    ensures { (f : ℕ) → remembering.is_other_directory f (handle_of handle.now) ≡ is_another f result }
{
    match Handle::read(handle.as_slice()) {
        Some(handle) => match handle.kind {
            Kind::Dir => Some(handle.fileid),
            _ => None,
        },
        None => None,
    }
}
