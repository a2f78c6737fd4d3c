//! What requests ask for.
ghost use Rattle.std.specs.Prelude.{◌≡◌, ◌↔◌, ◌==◌, ◌≤◌, ◌&&◌, ℕ, not, true};
ghost use Rattle.std.specs.List.{list_any};
ghost use Rattle.sl_types.specs.Handles.{handle_of};
ghost use Rattle.sl_history.specs.Bodies.{is_forward};
ghost use Rattle.sl_history.specs.Turns.{History, events};
ghost use Rattle.sl_history.specs.Remembering as remembering;
ghost use Rattle.sl_recall.specs.Memories.{AsksAgain, IsMemoryOf, Knows};

use crate::memory::Memory;
use crate::words::{directory_named, file_named};
use sl_cells::CellKey;
use sl_frames::Body;
use sl_types::{Call, Fh};

/// Whether the key is that of a file's attributes.
fn is_key_of(file: u64, key: &CellKey) -> bool
    ensures { result ≡ remembering.is_key_of file key.now }
{
    match key {
        CellKey::Attr(fileid) => *fileid == file,
        CellKey::Name(_, _) => false,
    }
}

/// Whether one of the keys is that of a file's attributes.
fn any_key(keys: &[CellKey], file: u64) -> bool
    ensures { result ≡ list_any (remembering.is_key_of file) keys.now }
{
    keys.iter().any(|key| is_key_of(file, key))
}

/// Whether the request asks for a file's attributes.
fn asks_for(body: &Body, file: u64) -> bool
    ensures { result ≡ remembering.asks_for file body.now }
{
    match body {
        Body::Ask(keys) => any_key(keys.as_slice(), file),
        _ => false,
    }
}

/// Whether a call is handed on to a server.
fn is_forward(body: &Body) -> bool
    ensures { result ≡ is_forward body.now }
{
    matches!(body, Body::Forward { .. })
}

impl Memory {
    /// Whether a GETATTR is handed on for a file that the proxy has the attributes of.
    fn is_handed_on(&self, call: u64, object: &Fh, body: &Body) -> bool
        ensures { (h : History) → IsMemoryOf h self.now → call ≤ events h → (result ≡ true) ↔ ((f : ℕ) × Knows h call f × ((remembering.names_file f (handle_of object.now) && is_forward body.now) ≡ true)) }
    {
        match file_named(object) {
            Some(file) => is_forward(body) && self.knows(call, file),
            None => false,
        }
    }

    /// Whether a request for a call on a file asks for the file's attributes, which the proxy has.
    fn is_asked(&self, call: u64, file: &Fh, body: &Body) -> bool
        ensures { (h : History) → IsMemoryOf h self.now → call ≤ events h → (result ≡ true) ↔ ((f : ℕ) × Knows h call f × ((remembering.names_file f (handle_of file.now) && remembering.asks_for f body.now) ≡ true)) }
    {
        match file_named(file) {
            Some(file) => asks_for(body, file) && self.knows(call, file),
            None => false,
        }
    }

    /// Whether the key is that of a file's attributes, which the proxy has, and not of this directory's.
    fn is_known_key(&self, call: u64, directory: u64, key: &CellKey) -> bool
        ensures { (h : History) → IsMemoryOf h self.now → call ≤ events h → (result ≡ true) ↔ ((f : ℕ) × Knows h call f × ((not (directory == f) && remembering.is_key_of f key.now) ≡ true)) }
    {
        match key {
            CellKey::Attr(file) => *file != directory && self.knows(call, *file),
            CellKey::Name(_, _) => false,
        }
    }

    /// Whether one of the keys is such a one.
    fn has_known_key(&self, call: u64, directory: u64, keys: &[CellKey]) -> bool
        ensures { (h : History) → IsMemoryOf h self.now → call ≤ events h → (result ≡ true) ↔ ((f : ℕ) × Knows h call f × ((not (directory == f) && list_any (remembering.is_key_of f) keys.now) ≡ true)) }
    {
        for key in keys {
            if self.is_known_key(call, directory, key) {
                return true;
            }
        }
        false
    }

    /// Whether a request for a LOOKUP asks for the attributes of a file, which the proxy has.
    fn is_looked_up(&self, call: u64, dir: &Fh, body: &Body) -> bool
        ensures { (h : History) → IsMemoryOf h self.now → call ≤ events h → (result ≡ true) ↔ ((f : ℕ) × Knows h call f × ((remembering.is_other_directory f (handle_of dir.now) && remembering.asks_for f body.now) ≡ true)) }
    {
        let Some(directory) = directory_named(dir) else {
            return false;
        };
        match body {
            Body::Ask(keys) => self.has_known_key(call, directory, keys.as_slice()),
            _ => false,
        }
    }

    /// Whether a request for this call asks a server for attributes that the proxy has.
    pub(crate) fn asks_again(&self, arrival: u64, body: &Body) -> bool
        ensures { (h : History) → IsMemoryOf h self.now → (result ≡ true) ↔ AsksAgain h arrival body.now }
    {
        let Some(asked) = self.ledger().asked(arrival) else {
            return false;
        };
        match &asked.call {
            Call::Getattr { object } => self.is_handed_on(arrival, object, body),
            Call::Read { file, .. } => self.is_asked(arrival, file, body),
            Call::Write { file, .. } => self.is_asked(arrival, file, body),
            Call::Commit { file, .. } => self.is_asked(arrival, file, body),
            Call::Lookup { dir, .. } => self.is_looked_up(arrival, dir, body),
            _ => false,
        }
    }
}
