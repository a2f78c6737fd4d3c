//! The actors by their numbers.
ghost use Rattle.std.specs.Prelude.{◌≡◌};
ghost use Rattle.sl_frames.specs.Actors.{is_data};

/// The proxy.
pub(crate) const PROXY: u8 = 0;

/// The coordinator.
pub(crate) const COORDINATOR: u8 = 1;

/// The first directory server.
pub(crate) const DIRECTORY: u8 = 16;

/// Whether it is a data server: one of small files, or a storage node.
pub(crate) fn is_data_server(actor: u8) -> bool
    ensures { result ≡ is_data actor }
{
    matches!(actor, 32..=35 | 48..=55)
}
