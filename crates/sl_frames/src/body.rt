ghost use Rattle.std.specs.Prelude.{◌≡◌, IfOk};

use crate::found::FoundCells;
use crate::intent::Intent;
use crate::work::Work;
use sl_cells::{Item, Keys, NameCells};
use sl_types::{Bytes, NoMemory};

/// What a frame says, by its kind.
#[derive(Drop, Debug)]
pub enum Body {
    /// The proxy has begun a fence.
    Hello,
    /// The coordinator has settled all that was before that fence.
    Welcome,
    /// A call, for the server to answer.
    Forward {
        /// The fileid that was chosen for a new object, or 0.
        chosen: u64,
        packet: Bytes,
    },
    /// A reply.
    Packet(Bytes),
    /// The cells of these keys are asked for.
    Ask(Keys),
    /// What stands at each of those keys.
    Found(FoundCells),
    /// The names of a directory behind a cookie are asked for.
    List {
        dir: u64,
        cookie: u64,
        /// How long the listing may be, in bytes of a reply.
        limit: u32,
    },
    /// Those names by rising cookie, and whether there are more.
    Listed {
        cells: NameCells,
        more: bool,
    },
    /// A fileid of a site is asked for.
    Mint {
        site: u32,
    },
    /// That fileid, 0 where none is left.
    Minted {
        fileid: u64,
    },
    /// What is to be done at several servers.
    Intent(Intent),
    /// Whether it is done.
    Decided {
        yes: bool,
    },
    /// A server is asked to do this work, if all others can.
    Lock(Work),
    /// It can, and is locked until it is told.
    Grant,
    /// It can't, since it isn't the boot that was relied on.
    Refuse,
    /// The work is to be done.
    Apply,
    /// The work isn't to be done.
    Release,
    /// It was told, and is locked no more.
    Ack,
}

impl Body {
    ghost use Rattle.sl_frames.specs.Frames.{kind_of};

    /// The number of its kind.
    pub fn kind(&self) -> u8
        ensures { result ≡ kind_of self.now }
    {
        match self {
            Body::Hello => 1,
            Body::Welcome => 2,
            Body::Forward { .. } => 3,
            Body::Packet(_) => 4,
            Body::Ask(_) => 5,
            Body::Found(_) => 6,
            Body::List { .. } => 7,
            Body::Listed { .. } => 8,
            Body::Mint { .. } => 9,
            Body::Minted { .. } => 10,
            Body::Intent(_) => 11,
            Body::Decided { .. } => 12,
            Body::Lock(_) => 13,
            Body::Grant => 14,
            Body::Refuse => 15,
            Body::Apply => 16,
            Body::Release => 17,
            Body::Ack => 18,
        }
    }

    /// An equal one, in memory of its own.
    pub fn copy(&self) -> Result<Body, NoMemory>
        ensures { IfOk result (λ copy. copy ≡ self.now) }
    {
        match self {
            Body::Hello => Ok(Body::Hello),
            Body::Welcome => Ok(Body::Welcome),
            Body::Forward { chosen, packet } => {
                let packet = packet.copy()?;
                Ok(Body::Forward {
                    chosen: *chosen,
                    packet,
                })
            }
            Body::Packet(packet) => Ok(Body::Packet(packet.copy()?)),
            Body::Ask(keys) => Ok(Body::Ask(keys.copy()?)),
            Body::Found(cells) => Ok(Body::Found(cells.copy()?)),
            Body::List { dir, cookie, limit } => Ok(Body::List {
                dir: *dir,
                cookie: *cookie,
                limit: *limit,
            }),
            Body::Listed { cells, more } => {
                let cells = cells.copy()?;
                Ok(Body::Listed { cells, more: *more })
            }
            Body::Mint { site } => Ok(Body::Mint { site: *site }),
            Body::Minted { fileid } => Ok(Body::Minted { fileid: *fileid }),
            Body::Intent(intent) => Ok(Body::Intent(intent.copy()?)),
            Body::Decided { yes } => Ok(Body::Decided { yes: *yes }),
            Body::Lock(work) => Ok(Body::Lock(work.copy()?)),
            Body::Grant => Ok(Body::Grant),
            Body::Refuse => Ok(Body::Refuse),
            Body::Apply => Ok(Body::Apply),
            Body::Release => Ok(Body::Release),
            Body::Ack => Ok(Body::Ack),
        }
    }
}
