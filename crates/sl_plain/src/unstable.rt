ghost use Rattle.std.specs.List.{list_any};
ghost use Rattle.std.specs.Prelude.{◌≡◌, ◌↔◌, true, ◌==◌, ◌++◌, ◌∷◌, [], map, ◌+◌, ◌^◌, ◌<◌, length, OnOk, IfOk};
ghost use Rattle.sl_model.specs.Gathered.{is_unstable};
ghost use Rattle.sl_model.specs.Volume.{without_file, after_write, after_writes, byte_after, byte_after_write};
ghost use Rattle.sl_plain.specs.Unstables.{write_of};

use crate::differing::are_same;
use crate::pending::Pending;
use sl_defs::NoMemory;
use sl_model::Node;
use std::alloc::Global;
use std::marker::Model;

impl Pending {
    // The node after the write, if it is of this file.
    fn after(&self, node: Node) -> Node
        ensures { result ≡ after_write (write_of self.now) node }
    {
        if self.fileid != node.fileid {
            return node;
        }
        let end = self.offset + self.bytes.as_slice().len() as u64;
        Node {
            size: node.size.max(end),
            mtime: self.moment,
            ctime: self.moment,
            ..node
        }
    }

    // Whether it is this write.
    fn is_same(&self, other: &Pending) -> bool
        ensures { (result ≡ true) ↔ (write_of self.now ≡ write_of other.now) }
    {
        self.fileid == other.fileid
            && self.offset == other.offset
            && self.moment == other.moment
            && are_same(self.bytes.as_slice(), other.bytes.as_slice())
    }

    // An equal write, in memory of its own.
    fn copy(&self) -> Result<Pending, NoMemory>
        ensures { IfOk result (λ copy. write_of copy ≡ write_of self.now) }
    {
        let bytes = self.bytes.copy()?;
        Ok(Pending {
            fileid: self.fileid,
            offset: self.offset,
            bytes,
            moment: self.moment,
        })
    }

    // A file's byte after the write, where it was this one.
    fn byte_after(&self, file: u64, offset: u64, before: u8) -> u8
        ensures { result ≡ byte_after_write file offset (write_of self.now) before }
    {
        let bytes = self.bytes.as_slice();
        if self.fileid == file
            && self.offset <= offset
            && offset < self.offset + bytes.len() as u64
        {
            bytes[(offset - self.offset) as usize]
        } else {
            before
        }
    }
}

/// Whether some of the writes are of this file.
fn any_of(writes: &[Pending], file: u64) -> bool
    ensures { result ≡ list_any (λ w. w.fileid == file) writes.now }
{
    writes.iter().any(|write| write.fileid == file)
}

// Whether they are the same writes in the same order.
fn are_same_writes(writes: &[Pending], others: &[Pending]) -> bool
    ensures { (result ≡ true) ↔ (map write_of writes.now ≡ map write_of others.now) }
{
    if writes.len() != others.len() {
        return false;
    }
    for i in 0..writes.len() {
        if !writes[i].is_same(&others[i]) {
            return false;
        }
    }
    true
}

/// The unstable writes of a volume, from the oldest on, which contracts see as that list.
#[derive(Drop)]
pub struct UnstableWrites {
    items: Vec<Pending>,
}

impl Model for UnstableWrites {
    ghost use Rattle.std.specs.Prelude.{List, map};
    ghost use Rattle.sl_model.specs.Volume.{Unstable};
    ghost use Rattle.sl_plain.specs.Unstables.{write_of};

    ghost Value = { List Unstable };

    ghost view = { λ a. map write_of a.items.items };
}

impl UnstableWrites {
    /// No write.
    pub fn new(alloc: Global) -> UnstableWrites
        ensures { result ≡ [] }
    {
        UnstableWrites {
            items: Vec::new(alloc),
        }
    }

    /// The writes, in order.
    pub fn as_slice(&self) -> &[Pending]
        ensures { map write_of result.now ≡ self.now }
    {
        self.items.as_slice()
    }

    /// One write more.
    pub fn push(&mut self, write: Pending) -> Result<(), NoMemory>
        ensures { OnOk result (self.new ≡ self.old ++ write_of write ∷ []) }
    {
        let Ok(_) = self.items.push(write) else {
            return Err(NoMemory);
        };
        Ok(())
    }

    /// Whether some are of this file.
    pub fn has(&self, file: u64) -> bool
        ensures { result ≡ is_unstable file self.now }
    {
        any_of(self.items.as_slice(), file)
    }

    /// Leaves the writes of other files.
    pub fn forget(&mut self, file: u64)
        ensures { self.new ≡ without_file file self.old }
    {
        self.items.retain(|write| write.fileid != file);
    }

    /// A node after the writes.
    pub fn after(&self, node: Node) -> Node
        ensures { result ≡ after_writes self.now node }
    {
        let mut seen = node;
        for write in &self.items {
            seen = write.after(seen);
        }
        seen
    }

    /// A file's byte after the writes, where it was this one.
    pub fn byte_after(&self, file: u64, offset: u64, before: u8) -> u8
        ensures { result ≡ byte_after file offset self.now before }
    {
        let mut byte = before;
        for write in &self.items {
            byte = write.byte_after(file, offset, byte);
        }
        byte
    }

    /// Whether they are the same writes in the same order.
    pub fn is_same(&self, other: &UnstableWrites) -> bool
        ensures { (result ≡ true) ↔ (self.now ≡ other.now) }
    {
        are_same_writes(self.items.as_slice(), other.items.as_slice())
    }

    /// Equal writes, in memory of their own.
    pub fn copy(&self) -> Result<UnstableWrites, NoMemory>
        ensures { IfOk result (λ copy. copy ≡ self.now) }
    {
        let mut copy = UnstableWrites::new(self.allocator());
        for write in &self.items {
            copy.push(write.copy()?)?;
        }
        Ok(copy)
    }

    /// Where the list's memory comes from.
    pub(crate) fn allocator(&self) -> Global {
        *self.items.allocator()
    }
}
