ghost use Rattle.std.specs.Prelude.{◌≡◌, IfOk};

use sl_defs::{Bytes, NoMemory};
use std::marker::Model;

/// A file handle as a packet has it: at most 64 bytes that only the server reads (RFC 1813, section 2.5, `nfs_fh3`).
#[derive(Drop, Debug)]
pub struct Fh {
    bytes: Bytes,
}

impl Model for Fh {
    ghost use Rattle.std.specs.Prelude.{ℕ, List};

    ghost Value = { List ℕ };

    ghost view = { λ f. f.bytes };
}

impl Fh {
    /// The handle of these bytes.
    pub fn new(bytes: Bytes) -> Fh
        ensures { result ≡ bytes }
    {
        Fh { bytes }
    }

    /// The handle's bytes, in order.
    pub fn as_slice(&self) -> &[u8]
        ensures { result.now ≡ self.now }
    {
        self.bytes.as_slice()
    }

    /// An equal handle, in memory of its own.
    pub fn copy(&self) -> Result<Fh, NoMemory>
        ensures { IfOk result (λ copy. copy ≡ self.now) }
    {
        let bytes = self.bytes.copy()?;
        Ok(Fh { bytes })
    }
}

/// The same handle, if there is one, in memory of its own.
pub fn copy_handle(handle: &Option<Fh>) -> Result<Option<Fh>, NoMemory>
    ensures { IfOk result (λ copy. copy ≡ handle.now) }
{
    match handle {
        Some(handle) => Ok(Some(handle.copy()?)),
        None => Ok(None),
    }
}

/// A name in a directory (RFC 1813, section 2.5, `filename3`).
#[derive(Drop, Debug)]
pub struct Name {
    bytes: Bytes,
}

impl Model for Name {
    ghost use Rattle.std.specs.Prelude.{ℕ, List};

    ghost Value = { List ℕ };

    ghost view = { λ n. n.bytes };
}

impl Name {
    /// The name of these bytes.
    pub fn new(bytes: Bytes) -> Name
        ensures { result ≡ bytes }
    {
        Name { bytes }
    }

    /// The name's bytes, in order.
    pub fn as_slice(&self) -> &[u8]
        ensures { result.now ≡ self.now }
    {
        self.bytes.as_slice()
    }

    /// An equal name, in memory of its own.
    pub fn copy(&self) -> Result<Name, NoMemory>
        ensures { IfOk result (λ copy. copy ≡ self.now) }
    {
        let bytes = self.bytes.copy()?;
        Ok(Name { bytes })
    }
}
