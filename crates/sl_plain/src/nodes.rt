ghost use Rattle.std.specs.Prelude.{◌≡◌, ◌↔◌, ◌<◌, ◌^◌, true, Some, OnOk, IfOk};
ghost use Rattle.std.specs.FinMap as map;
ghost use Rattle.sl_plain.specs.Differing.{Gathers, IsUnlike, IsWithin};

use sl_defs::NoMemory;
use sl_model::Node;
use std::alloc::Global;
use std::collections::BTreeMap;
use std::marker::Model;

/// The nodes of a volume by their fileids, which contracts see as that map.
#[derive(Drop)]
pub struct Nodes {
    entries: BTreeMap<u64, Node>,
}

impl Model for Nodes {
    ghost use Rattle.std.specs.FinMap as map;
    ghost use Rattle.std.specs.Ordering.{nat_cmp};
    ghost use Rattle.sl_model.specs.declared.node.Node.{Node};
    ghost use Rattle.std.specs.Coded.{coded_ℕ};
    ghost use Rattle.sl_model.specs.contracts.node.Node as node;

    ghost Value = { map.FinMap nat_cmp Node };

    ghost coded = { map.code coded_ℕ node.the_row.coded };

    ghost view = { λ a. map.from_entries a.entries.entries };
}

impl Nodes {
    /// No node.
    pub fn new(alloc: Global) -> Nodes
        ensures { result ≡ map.empty }
    {
        Nodes {
            entries: BTreeMap::new(alloc),
        }
    }

    /// The node of a fileid.
    pub fn get(&self, fileid: u64) -> Option<Node>
        ensures { result ≡ map.get self.now fileid }
    {
        match self.entries.get(&fileid) {
            Some(node) => Some(*node),
            None => None,
        }
    }

    /// Puts the node of a fileid, for the one that is there.
    pub fn put(&mut self, fileid: u64, node: Node) -> Result<(), NoMemory>
        ensures { OnOk result (self.new ≡ map.insert self.old fileid node) }
    {
        let Ok(_) = self.entries.insert(fileid, node) else {
            return Err(NoMemory);
        };
        Ok(())
    }

    /// Takes the node of a fileid away, if one is there.
    pub fn take(&mut self, fileid: u64)
        ensures { self.new ≡ map.remove self.old fileid }
    {
        let _ = self.entries.remove(&fileid);
    }

    /// An equal map, in memory of its own.
    pub fn copy(&self, alloc: Global) -> Result<Nodes, NoMemory>
        ensures { IfOk result (λ copy. copy ≡ self.now) }
    {
        let mut copy = Nodes::new(alloc);
        for (fileid, node) in self.entries.iter() {
            copy.put(*fileid, *node)?;
        }
        Ok(copy)
    }

    // Whether the other map has each of these nodes.
    fn is_within(&self, other: &Nodes) -> bool
        ensures { (result ≡ true) ↔ IsWithin self.now other.now }
    {
        for (fileid, node) in self.entries.iter() {
            if !other.has(*fileid, *node) {
                return false;
            }
        }
        true
    }

    /// Whether the maps are equal.
    pub fn is_same(&self, other: &Nodes) -> bool
        ensures { (result ≡ true) ↔ (self.now ≡ other.now) }
    {
        self.is_within(other) && other.is_within(self)
    }

    // Whether the fileid has this node.
    fn has(&self, fileid: u64, node: Node) -> bool
        ensures { (result ≡ true) ↔ (map.get self.now fileid ≡ Some node) }
    {
        self.get(fileid) == Some(node)
    }

    /// Puts the fileids whose nodes the other map hasn't behind the given ones.
    pub(crate) fn put_unlike(&self, other: &Nodes, unlike: &mut Vec<u64>) -> Result<(), NoMemory>
        ensures { OnOk result (Gathers (IsUnlike other.now) self.now unlike.old.items unlike.new.items) }
    {
        for (fileid, node) in self.entries.iter() {
            if other.has(*fileid, *node) {
                continue;
            }
            let Ok(_) = unlike.push(*fileid) else {
                return Err(NoMemory);
            };
        }
        Ok(())
    }

    /// How many nodes there are.
    pub fn len(&self) -> usize
        ensures len { result ≡ map.len self.now }
        ensures few { result < 2 ^ 63 }
    {
        self.entries.len()
    }
}
