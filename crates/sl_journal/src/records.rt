ghost use Rattle.std.specs.Prelude.{◌≡◌, ◌++◌, [], ◌∷◌, length, OnOk, OnErr, slice_get};

use sl_defs::{Bytes, NoMemory};
use std::alloc::Global;
use std::marker::Model;

/// The payloads of records, which contracts see as a list of lists of bytes.
#[derive(Drop)]
pub struct Records {
    items: Vec<Bytes>,
}

impl Model for Records {
    ghost use Rattle.std.specs.Prelude.{ℕ, List};

    ghost Value = { List (List ℕ) };

    ghost view = { λ r. r.items.items };
}

impl Records {
    /// No records.
    pub fn new(alloc: Global) -> Records
        ensures { result ≡ [] }
    {
        Records {
            items: Vec::new(alloc),
        }
    }

    /// How many there are.
    pub fn len(&self) -> usize
        ensures { result ≡ length self.now }
    {
        self.items.len()
    }

    /// Adds a payload behind the others. After an error there are as many as before.
    pub fn push(&mut self, payload: Bytes) -> Result<(), NoMemory>
        ensures ok { OnOk result (self.new ≡ self.old ++ payload ∷ []) }
        ensures err { OnErr result (self.new ≡ self.old) }
    {
        match self.items.push(payload) {
            Ok(()) => Ok(()),
            Err(_) => Err(NoMemory),
        }
    }

    /// The payloads, in order.
    pub fn as_slice(&self) -> &[Bytes]
        ensures { result.now ≡ self.now }
    {
        self.items.as_slice()
    }
}
