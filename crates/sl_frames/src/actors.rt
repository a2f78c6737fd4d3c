//! Actors by their numbers.
ghost use Rattle.std.specs.Prelude.{◌≡◌};
ghost use Rattle.sl_frames.specs.Actors.{is_coordinator, is_data, is_directory, is_proxy, is_server};

/// Whether this is the proxy.
pub fn is_the_proxy(actor: u8) -> bool
    ensures { result ≡ is_proxy actor }
{
    actor == 0
}

/// Whether this is the coordinator.
pub fn is_the_coordinator(actor: u8) -> bool
    ensures { result ≡ is_coordinator actor }
{
    actor == 1
}

/// Whether this is a directory server.
pub fn is_directory_server(actor: u32) -> bool
    ensures { result ≡ is_directory actor }
{
    16 <= actor && actor <= 23
}

/// Whether this is a small-file server or a storage node.
pub fn is_data_server(actor: u32) -> bool
    ensures { result ≡ is_data actor }
{
    (32 <= actor && actor <= 35) || (48 <= actor && actor <= 55)
}

/// Whether this is a server of either kind.
pub fn is_any_server(actor: u32) -> bool
    ensures { result ≡ is_server actor }
{
    is_directory_server(actor) || is_data_server(actor)
}
