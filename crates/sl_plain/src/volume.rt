ghost use Rattle.std.specs.Prelude.{◌≡◌, ◌↔◌, ◌≤◌, ◌+◌, ◌^◌, ◌<◌, true, map as each, length, IfOk, OnOk, is_some};
ghost use Rattle.std.specs.FinMap as map;
ghost use Rattle.sl_model.specs.Volume as volume;
ghost use Rattle.sl_model.specs.Volume.{PutNode, TakeNode, PutName, TakeName, PutText, PutBytes, AddWrite};
ghost use Rattle.sl_model.specs.Gathered.{is_unstable};
ghost use Rattle.sl_model.specs.Perform as root;
ghost use Rattle.sl_plain.specs.Outcomes.{change_of};
ghost use Rattle.sl_plain.specs.Unstables.{write_of};
ghost use Rattle.sl_plain.specs.Differing.{AreDifferences, ArePlacesOf};

use crate::change::Change;
use crate::differing::Differences;
use crate::lines::Lines;
use crate::names::{Names, Place};
use crate::nodes::Nodes;
use crate::outcome::Changes;
use crate::pending::Pending;
use crate::texts::Texts;
use crate::unstable::UnstableWrites;
use crate::used::Used;
use crate::written::Written;
use sl_defs::{Bytes, NoMemory, Time};
use sl_model::{Entry, Node};
use sl_types::Kind;
use std::alloc::Global;
use std::marker::Model;

/// A volume in memory, which contracts see as the volume that it is.
#[derive(Drop)]
pub struct Volume {
    number: u64,
    nodes: Nodes,
    names: Names,
    texts: Texts,
    written: Written,
    unstable: UnstableWrites,
    verifier: u64,
    used: Used,
}

impl Model for Volume {
    ghost use Rattle.sl_model.specs.Volume as volume;
    ghost use Rattle.sl_plain.specs.Code.{volume_code};

    ghost Value = { volume.Volume };

    ghost coded = { volume_code };

    ghost view = { λ a. record { number = a.number; nodes = a.nodes; names = a.names; texts = a.texts; written = a.written; unstable = a.unstable; verifier = a.verifier; used = a.used } };
}

impl Volume {
    /// A new volume of this number: its root alone.
    #[tactic(auto, unfolding(sl_model::specs::Perform::fresh))]
    pub fn new(alloc: Global, number: u64) -> Result<Volume, NoMemory>
        ensures { IfOk result (λ v. v ≡ root.fresh number) }
    {
        let mut nodes = Nodes::new(alloc);
        let mut used = Used::new(alloc);
        nodes.put(1, new_root(number))?;
        used.put(1)?;
        Ok(Volume {
            number,
            nodes,
            names: Names::new(alloc),
            texts: Texts::new(alloc),
            written: Written::new(alloc),
            unstable: UnstableWrites::new(alloc),
            verifier: 0,
            used,
        })
    }

    /// The node of a fileid, without its unstable writes.
    pub fn node(&self, fileid: u64) -> Option<Node>
        ensures { result ≡ map.get self.now.nodes fileid }
    {
        self.nodes.get(fileid)
    }

    /// The node of a fileid, with its unstable writes.
    pub fn seen(&self, fileid: u64) -> Option<Node>
        ensures { result ≡ volume.seen self.now fileid }
    {
        match self.nodes.get(fileid) {
            Some(node) => Some(self.unstable.after(node)),
            None => None,
        }
    }

    /// What a name leads to.
    pub fn entry_at(&self, place: &Place) -> Option<Entry>
        ensures { result ≡ map.get self.now.names (place.now.dir, place.now.name.items) }
    {
        self.names.get(place)
    }

    /// The write verifier.
    pub fn verifier(&self) -> u64
        ensures { result ≡ self.now.verifier }
    {
        self.verifier
    }

    /// Whether a fileid was ever used.
    pub fn was_used(&self, fileid: u64) -> bool
        ensures { result ≡ is_some (map.get self.now.used fileid) }
    {
        self.used.has(fileid)
    }

    /// Whether a file has unstable writes.
    pub fn is_unstable(&self, file: u64) -> bool
        ensures { result ≡ is_unstable file self.now.unstable }
    {
        self.unstable.has(file)
    }

    /// The unstable writes, from the oldest on.
    pub fn unstable(&self) -> &[Pending]
        ensures { each write_of result.now ≡ self.now.unstable }
    {
        self.unstable.as_slice()
    }

    /// The text of a symbolic link.
    pub fn text(&self, alloc: Global, fileid: u64) -> Result<Bytes, NoMemory>
        ensures { IfOk result (λ text. text ≡ (volume.sight self.now).text fileid) }
    {
        self.texts.copy_of(alloc, fileid)
    }

    // A file's byte, with its unstable writes.
    fn byte(&self, file: u64, offset: u64) -> u8
        ensures { result ≡ volume.byte_at self.now file offset }
    {
        self.unstable
            .byte_after(file, offset, self.written.at(file, offset))
    }

    /// A file's bytes from an offset on, with its unstable writes.
    pub(crate) fn bytes(
        &self,
        alloc: Global,
        file: u64,
        offset: u64,
        count: u32,
    ) -> Result<Bytes, NoMemory>
        requires { offset + count < 2 ^ 64 }
        ensures { IfOk result (λ bytes. bytes ≡ volume.bytes_from self.now file offset count) }
    {
        let mut bytes = Vec::new(alloc);
        for i in 0..count {
            let Ok(_) = bytes.push(self.byte(file, offset + u64::from(i))) else {
                return Err(NoMemory);
            };
        }
        Ok(Bytes::new(bytes))
    }

    /// A directory's names behind a cookie, by rising cookie.
    pub fn names_behind(&self, alloc: Global, dir: u64, cookie: u64) -> Result<Lines, NoMemory>
        ensures { IfOk result (λ lines. lines ≡ (volume.sight self.now).names dir cookie) }
    {
        self.names.listing(alloc, dir, cookie)
    }

    /// Whether the directory d is the directory a or below it. In a volume whose directories are no tree, as many
    /// parents are looked at as there are nodes.
    pub(crate) fn is_below(&self, a: u64, d: u64) -> bool
        ensures { result ≡ (volume.sight self.now).below a d }
    {
        let mut at = d;
        for _i in 0..self.nodes.len() + 1 {
            if at == a {
                return true;
            }
            if at == 1 {
                return false;
            }
            match self.node(at) {
                Some(node) => at = node.parent,
                None => return false,
            }
        }
        true
    }

    /// The names that lead to an object.
    pub fn places_of(&self, alloc: Global, fileid: u64) -> Result<Vec<Place>, NoMemory>
        ensures { IfOk result (λ places. ArePlacesOf self.now fileid places.items) }
    {
        self.names.leading_to(alloc, fileid)
    }

    /// Where the volume differs from a later one.
    pub fn differences(&self, alloc: Global, after: &Volume) -> Result<Differences, NoMemory>
        ensures { IfOk result (λ differences. AreDifferences self.now after.now differences) }
    {
        let mut objects = Vec::new(alloc);
        self.nodes.put_unlike(&after.nodes, &mut objects)?;
        after.nodes.put_unlike(&self.nodes, &mut objects)?;
        self.texts.put_unlike(&after.texts, &mut objects)?;
        after.texts.put_unlike(&self.texts, &mut objects)?;
        let mut names = Vec::new(alloc);
        self.names.put_unlike(alloc, &after.names, &mut names)?;
        after.names.put_unlike(alloc, &self.names, &mut names)?;
        let mut bytes = Vec::new(alloc);
        self.written.put_unlike(&after.written, &mut bytes)?;
        after.written.put_unlike(&self.written, &mut bytes)?;
        Ok(Differences {
            objects,
            names,
            bytes,
        })
    }

    /// Whether the volumes are equal, with their unstable writes and all fileids that were used.
    pub fn is_same(&self, other: &Volume) -> bool
        ensures { (result ≡ true) ↔ (self.now ≡ other.now) }
    {
        self.number == other.number
            && self.verifier == other.verifier
            && self.nodes.is_same(&other.nodes)
            && self.names.is_same(&other.names)
            && self.texts.is_same(&other.texts)
            && self.written.is_same(&other.written)
            && self.unstable.is_same(&other.unstable)
            && self.used.is_same(&other.used)
    }

    /// An equal volume, in memory of its own.
    pub fn copy(&self) -> Result<Volume, NoMemory>
        ensures { IfOk result (λ copy. copy ≡ self.now) }
    {
        let alloc = self.allocator();
        let nodes = self.nodes.copy(alloc)?;
        let names = self.names.copy(alloc)?;
        let texts = self.texts.copy(alloc)?;
        let written = self.written.copy(alloc)?;
        let unstable = self.unstable.copy()?;
        let used = self.used.copy(alloc)?;
        Ok(Volume {
            number: self.number,
            nodes,
            names,
            texts,
            written,
            unstable,
            verifier: self.verifier,
            used,
        })
    }

    /// Where the volume's memory comes from.
    pub(crate) fn allocator(&self) -> Global {
        self.unstable.allocator()
    }

    /// Makes a file's unstable writes stable.
    pub fn flush(&mut self, file: u64) -> Result<(), NoMemory>
        ensures { OnOk result (self.new ≡ volume.flush file self.old) }
    {
        if let Some(node) = self.seen(file) {
            self.nodes.put(file, node)?;
        }
        self.written.put_writes(file, self.unstable.as_slice())?;
        self.unstable.forget(file);
        Ok(())
    }

    /// Forgets all unstable writes, under a new verifier.
    pub fn restart(&mut self, alloc: Global, verifier: u64)
        ensures { self.new ≡ volume.restart verifier self.old }
    {
        self.unstable = UnstableWrites::new(alloc);
        self.verifier = verifier;
    }

    // The changes, one thing at one key each.

    /// Puts the node of a fileid. Its unstable writes are made stable first, and bytes past its size go.
    pub(crate) fn put_node(&mut self, fileid: u64, node: Node) -> Result<(), NoMemory>
        ensures { OnOk result (self.new ≡ volume.changed (PutNode fileid node) self.old) }
    {
        self.flush(fileid)?;
        self.nodes.put(fileid, node)?;
        self.written.cut(fileid, node.size);
        self.used.put(fileid)
    }

    /// Takes an object away, with its text, its bytes and its unstable writes.
    pub(crate) fn take_node(&mut self, fileid: u64)
        ensures { self.new ≡ volume.changed (TakeNode fileid) self.old }
    {
        self.nodes.take(fileid);
        self.texts.take(fileid);
        self.written.cut(fileid, 0);
        self.unstable.forget(fileid);
    }

    /// Puts a name.
    pub(crate) fn put_name(&mut self, place: Place, entry: Entry) -> Result<(), NoMemory>
        ensures { OnOk result (self.new ≡ volume.changed (PutName place.dir place.name.items entry) self.old) }
    {
        self.names.put(place, entry)
    }

    /// Takes a name away.
    pub(crate) fn take_name(&mut self, place: &Place)
        ensures { self.new ≡ volume.changed (TakeName place.now.dir place.now.name.items) self.old }
    {
        self.names.take(place);
    }

    /// Puts the text of a symbolic link.
    pub(crate) fn put_text(&mut self, fileid: u64, text: Bytes) -> Result<(), NoMemory>
        ensures { OnOk result (self.new ≡ volume.changed (PutText fileid text) self.old) }
    {
        self.texts.put(fileid, text)
    }

    /// Puts bytes of a file from an offset on.
    pub(crate) fn put_bytes(&mut self, file: u64, offset: u64, bytes: &[u8]) -> Result<(), NoMemory>
        requires { offset + length bytes.now ≤ 2 ^ 64 }
        ensures { OnOk result (self.new ≡ volume.changed (PutBytes file offset bytes.now) self.old) }
    {
        self.written.put_all(file, offset, bytes)
    }

    /// One unstable write more.
    pub(crate) fn add_write(&mut self, write: Pending) -> Result<(), NoMemory>
        ensures { OnOk result (self.new ≡ volume.changed (AddWrite (write_of write)) self.old) }
    {
        self.unstable.push(write)
    }

    /// Makes one change.
    pub(crate) fn change(&mut self, change: Change) -> Result<(), NoMemory>
        ensures { OnOk result (self.new ≡ volume.changed (change_of change) self.old) }
    {
        match change {
            Change::PutNode { fileid, node } => self.put_node(fileid, node),
            Change::TakeNode(fileid) => {
                self.take_node(fileid);
                Ok(())
            }
            Change::PutName { place, entry } => self.put_name(place, entry),
            Change::TakeName(place) => {
                self.take_name(&place);
                Ok(())
            }
            Change::PutText { fileid, text } => self.put_text(fileid, text),
            Change::PutBytes(s) => self.put_bytes(s.fileid, s.offset, s.bytes.as_slice()),
            Change::AddWrite(write) => self.add_write(write),
        }
    }

    /// Makes the changes in their order.
    pub(crate) fn apply(&mut self, changes: Changes) -> Result<(), NoMemory>
        ensures { OnOk result (self.new ≡ volume.after_changes changes self.old) }
    {
        for change in changes.into_vec() {
            self.change(change)?;
        }
        Ok(())
    }
}

// The root of a new volume.
fn new_root(number: u64) -> Node
    ensures { result ≡ root.new_root number }
{
    let epoch = Time { sec: 0, nsec: 0 };
    Node {
        kind: Kind::Dir,
        mode: 493,
        nlink: 2,
        uid: 0,
        gid: 0,
        size: 0,
        major: 0,
        minor: 0,
        fsid: number,
        fileid: 1,
        atime: epoch,
        mtime: epoch,
        ctime: epoch,
        parent: 1,
        entries: 0,
        made: 0,
        verifier: None,
    }
}
