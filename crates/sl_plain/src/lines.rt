ghost use Rattle.std.specs.Prelude.{◌≡◌, ◌++◌, ◌∷◌, [], take, OnOk};
ghost use Rattle.sl_model.specs.Volume.{placed};
ghost use Rattle.sl_plain.specs.Found.{place_in};

use sl_defs::NoMemory;
use sl_model::Listed;
use std::alloc::Global;
use std::marker::Model;

/// Lines of a listing, which contracts see as that list.
#[derive(Drop, Debug)]
pub struct Lines {
    items: Vec<Listed>,
}

impl Model for Lines {
    ghost use Rattle.std.specs.Prelude.{List};
    ghost use Rattle.sl_model.specs.declared.node.Listed.{Listed};

    ghost Value = { List Listed };

    ghost view = { λ l. l.items.items };
}

impl Lines {
    /// No line.
    pub(crate) fn new(alloc: Global) -> Lines
        ensures { result ≡ [] }
    {
        Lines {
            items: Vec::new(alloc),
        }
    }

    /// The lines in their order.
    pub fn as_slice(&self) -> &[Listed]
        ensures { result.now ≡ self.now }
    {
        self.items.as_slice()
    }

    /// Puts a line before the first whose cookie isn't below its own.
    pub(crate) fn place(&mut self, line: Listed) -> Result<(), NoMemory>
        ensures { OnOk result (self.new ≡ placed line self.old) }
    {
        let at = place_of(line.cookie, self.items.as_slice());
        let Ok(_) = self.items.insert(at, line) else {
            return Err(NoMemory);
        };
        Ok(())
    }

    /// Puts lines behind the others.
    pub(crate) fn append(&mut self, lines: Lines) -> Result<(), NoMemory>
        ensures { OnOk result (self.new ≡ self.old ++ lines) }
    {
        let Lines { items } = lines;
        let mut items = items;
        let Ok(_) = self.items.append(&mut items) else {
            return Err(NoMemory);
        };
        Ok(())
    }

    /// Leaves this many lines.
    pub(crate) fn truncate(&mut self, count: usize)
        ensures { self.new ≡ take count self.old }
    {
        self.items.truncate(count);
    }

    /// Puts a line behind the others.
    pub(crate) fn push(&mut self, line: Listed) -> Result<(), NoMemory>
        ensures { OnOk result (self.new ≡ self.old ++ line ∷ []) }
    {
        let Ok(_) = self.items.push(line) else {
            return Err(NoMemory);
        };
        Ok(())
    }
}

// How many lines stand before the first whose cookie isn't below this one.
fn place_of(cookie: u64, lines: &[Listed]) -> usize
    ensures { result ≡ place_in cookie lines.now }
{
    let mut before = 0;
    for line in lines {
        if line.cookie >= cookie {
            return before;
        }
        before += 1;
    }
    before
}
