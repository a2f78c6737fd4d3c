ghost use Rattle.std.specs.Prelude.{◌≡◌, ◌++◌, length, take, IfOk, OnOk};
ghost use Rattle.sl_items.specs.Reading.{GivesArgs};
ghost use Rattle.sl_frames.specs.Works.{are_parts, rise_above};

use crate::parts::{garbage, take_server};
use crate::work::Work;
use sl_cells::{Item, copy_items, put_items, take_id, take_id_or_none, take_items};
use sl_items::{put_time, take_time};
use sl_types::{ArgsFault, NoMemory, Time};
use sl_xdr::{Cursor, put_flag, put_u32, put_u64};
use std::alloc::Global;
use std::marker::Model;

/// What an intent is for.
#[derive(Clone, Copy, Debug, PartialEq, Eq)]
pub enum What {
    /// A call.
    Call {
        /// The fileid that was chosen for it, or 0.
        chosen: u64,
        /// Whether it is a WRITE whose bytes are kept.
        kept: bool,
    },
    /// What is unstable of a file becomes stable.
    Flush(u64),
}

impl Item for What {
    ghost use Rattle.sl_frames.specs.Works.{what_at, what_text};

    ghost at = { what_at };

    ghost text = { what_text };

    ghost is_short = { λ what. Unit {0} };

    #[tactic(auto, unfolding(crate::specs::Works::what_at, crate::specs::Works::what_body_at))]
    fn take(_alloc: Global, cursor: &mut Cursor<'_>) -> Result<What, ArgsFault> {
        match cursor.take_u32().map_err(garbage)? {
            1 => {
                let chosen = take_id_or_none(cursor).map_err(garbage)?;
                let kept = cursor.flag().map_err(garbage)?;
                Ok(What::Call { chosen, kept })
            }
            2 => {
                let fileid = take_id(cursor).map_err(garbage)?;
                Ok(What::Flush(fileid))
            }
            _ => Err(ArgsFault::Garbage),
        }
    }

    #[tactic(auto, using(sl_items::proofs::Appended::appended), unfolding(crate::specs::Works::what_text))]
    fn put(&self, out: &mut Vec<u8>) -> Result<(), sl_xdr::NoMemory> {
        match self {
            What::Call { chosen, kept } => {
                put_u32(out, 1)?;
                put_u64(out, *chosen)?;
                put_flag(out, *kept)
            }
            What::Flush(fileid) => {
                put_u32(out, 2)?;
                put_u64(out, *fileid)
            }
        }
    }

    fn copy(&self) -> Result<What, NoMemory> {
        Ok(*self)
    }
}

/// What one server does of an intent.
#[derive(Drop, Debug)]
pub struct Part {
    pub actor: u8,
    /// The boot of the server that is relied on, 0 for none.
    pub boot: u64,
    pub work: Work,
}

impl Item for Part {
    ghost use Rattle.sl_frames.specs.Works.{part_at, part_text, ShortPart};

    ghost at = { part_at };

    ghost text = { part_text };

    ghost is_short = { ShortPart };

    #[tactic(auto, unfolding(crate::specs::Works::part_at))]
    fn take(alloc: Global, cursor: &mut Cursor<'_>) -> Result<Part, ArgsFault> {
        let actor = take_server(cursor).map_err(garbage)?;
        let boot = cursor.take_u64().map_err(garbage)?;
        let work = Work::take(alloc, cursor)?;
        if work.may_be_asked_of(actor) {
            Ok(Part { actor, boot, work })
        } else {
            Err(ArgsFault::Garbage)
        }
    }

    #[tactic(auto, using(sl_items::proofs::Appended::appended), unfolding(crate::specs::Works::part_text))]
    fn put(&self, out: &mut Vec<u8>) -> Result<(), sl_xdr::NoMemory> {
        put_u32(out, self.actor as u32)?;
        put_u64(out, self.boot)?;
        self.work.put(out)?;
        Ok(())
    }

    fn copy(&self) -> Result<Part, NoMemory> {
        let work = self.work.copy()?;
        Ok(Part {
            actor: self.actor,
            boot: self.boot,
            work,
        })
    }
}

/// The parts of an intent by rising actor, which contracts see as that list.
#[derive(Drop, Debug)]
pub struct Parts {
    items: Vec<Part>,
}

impl Model for Parts {
    ghost use Rattle.std.specs.Prelude.{List};
    ghost use Rattle.sl_frames.specs.declared.intent.Part.{Part};

    ghost Value = { List Part };

    ghost view = { λ l. l.items.items };
}

impl Parts {
    /// The list of these parts, which are not copied.
    pub fn new(items: Vec<Part>) -> Parts
        ensures { result ≡ items.items }
    {
        Parts { items }
    }

    /// The parts, in order.
    pub fn as_slice(&self) -> &[Part]
        ensures { result.now ≡ self.now }
    {
        self.items.as_slice()
    }
}

fn actors_rise(parts: &[Part]) -> bool
    ensures { result ≡ rise_above 0 parts.now }
{
    let mut last = 0;
    for part in parts {
        if part.actor <= last {
            return false;
        }
        last = part.actor;
    }
    true
}

/// Whether there is a part, and the actors rise.
fn are_an_intents(parts: &[Part]) -> bool
    ensures { result ≡ are_parts parts.now }
{
    !parts.is_empty() && actors_rise(parts)
}

impl Item for Parts {
    ghost use Rattle.sl_cells.specs.Lists.{FitsList};
    ghost use Rattle.sl_frames.specs.Works.{parts_at, parts_text, ShortPart};

    ghost at = { parts_at };

    ghost text = { parts_text };

    ghost is_short = { FitsList ShortPart };

    #[tactic(auto, unfolding(crate::specs::Works::parts_at))]
    fn take(alloc: Global, cursor: &mut Cursor<'_>) -> Result<Parts, ArgsFault> {
        let items: Vec<Part> = take_items(alloc, cursor)?;
        if are_an_intents(&items) {
            Ok(Parts { items })
        } else {
            Err(ArgsFault::Garbage)
        }
    }

    fn put(&self, out: &mut Vec<u8>) -> Result<(), sl_xdr::NoMemory> {
        put_items(out, self.items.as_slice())
    }

    fn copy(&self) -> Result<Parts, NoMemory> {
        let items = copy_items(*self.items.allocator(), self.items.as_slice())?;
        Ok(Parts { items })
    }
}

/// What is to be done at several servers, all of it or nothing.
#[derive(Drop, Debug)]
pub struct Intent {
    /// When it takes effect.
    pub moment: Time,
    pub what: What,
    pub parts: Parts,
}

impl Item for Intent {
    ghost use Rattle.sl_frames.specs.Works.{intent_at, intent_text, ShortIntent};

    ghost at = { intent_at };

    ghost text = { intent_text };

    ghost is_short = { ShortIntent };

    #[tactic(auto, unfolding(crate::specs::Works::intent_at))]
    fn take(alloc: Global, cursor: &mut Cursor<'_>) -> Result<Intent, ArgsFault> {
        let moment = take_time(cursor).map_err(garbage)?;
        let what = What::take(alloc, cursor)?;
        let parts = Parts::take(alloc, cursor)?;
        Ok(Intent {
            moment,
            what,
            parts,
        })
    }

    #[tactic(auto, using(sl_items::proofs::Appended::appended), unfolding(crate::specs::Works::intent_text))]
    fn put(&self, out: &mut Vec<u8>) -> Result<(), sl_xdr::NoMemory> {
        put_time(out, self.moment)?;
        self.what.put(out)?;
        self.parts.put(out)?;
        Ok(())
    }

    fn copy(&self) -> Result<Intent, NoMemory> {
        let parts = self.parts.copy()?;
        Ok(Intent {
            moment: self.moment,
            what: self.what,
            parts,
        })
    }
}
