ghost use Rattle.std.specs.Prelude.{◌≡◌, IfOk};

use sl_defs::{Bytes, NoMemory};
use std::marker::Model;

/// Bytes to be written from an offset on.
#[derive(Drop, Debug)]
pub struct Write {
    pub offset: u64,
    pub bytes: Bytes,
}

impl Write {
    /// An equal write, in memory of its own.
    pub fn copy(&self) -> Result<Write, NoMemory>
        ensures { IfOk result (λ copy. copy ≡ self.now) }
    {
        let bytes = self.bytes.copy()?;
        Ok(Write {
            offset: self.offset,
            bytes,
        })
    }
}

/// A list of writes, which contracts see as that list.
#[derive(Drop, Debug)]
pub struct Writes {
    items: Vec<Write>,
}

impl Model for Writes {
    ghost use Rattle.std.specs.Prelude.{List};
    ghost use Rattle.sl_types.specs.declared.writes.Write.{Write};

    ghost Value = { List Write };

    ghost view = { λ w. w.items.items };
}

impl Writes {
    /// The list of these writes, which are not copied.
    pub fn new(items: Vec<Write>) -> Writes
        ensures { result ≡ items.items }
    {
        Writes { items }
    }

    /// The writes, in order.
    pub fn as_slice(&self) -> &[Write]
        ensures { result.now ≡ self.now }
    {
        self.items.as_slice()
    }

    /// An equal list, in memory of its own.
    pub fn copy(&self) -> Result<Writes, NoMemory>
        ensures { IfOk result (λ copy. copy ≡ self.now) }
    {
        let mut items = Vec::new(*self.items.allocator());
        for write in &self.items {
            let copy = write.copy()?;
            items.push(copy).map_err(|_| NoMemory)?;
        }
        Ok(Writes { items })
    }
}

/// A set of actors: bit a stands for actor a.
#[derive(Clone, Copy, Debug, PartialEq, Eq)]
pub struct ActorSet(pub u64);

/// Which event's answer a reply is: that in which the given frame was sent, this one, or that in which the call
/// took effect.
#[derive(Clone, Copy, Debug, PartialEq, Eq)]
pub enum Mark {
    Given,
    Now,
    Done,
}
