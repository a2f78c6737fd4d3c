//! Whether what servers told in a turn is true at its end.
ghost use Rattle.std.specs.Prelude.{◌≡◌, map};
ghost use Rattle.sl_defs.specs.declared.setup.Setup.{Setup};
ghost use Rattle.sl_frames.specs.declared.body.Body.TheVariants as body;
ghost use Rattle.sl_model.specs.Volume as volumes;
ghost use Rattle.sl_history.specs.Turns as turns;
ghost use Rattle.sl_history.specs.Volumes.{volume_after};
ghost use Rattle.sl_history.specs.Licensed.{request};
ghost use Rattle.sl_history.specs.Deciding.{Says};
ghost use Rattle.sl_history.specs.Wired.{AreTrue, IsTrueAnswer, IsTrueIf};
ghost use Rattle.sl_past.specs.Words.{remark_of};
ghost use Rattle.sl_ledger.specs.Ledgers.{IsLedgerOf};
ghost use Rattle.sl_wiring.specs.Telling.{IsTrueRemark};
ghost use Rattle.sl_wiring.specs.Dockets.{IsDocketOf};

use crate::cells::are_cells;
use crate::docket::Docket;
use crate::listing::are_names;
use sl_cells::CellKey;
use sl_defs::NoMemory;
use sl_frames::{Body, Frame};
use sl_past::Remark;
use std::alloc::Global;

impl Docket {
    /// Whether this answer of a server to a request for cells is true of the volume.
    fn is_found(
        &self,
        alloc: Global,
        server: u64,
        keys: &[CellKey],
        answer: &Body,
    ) -> Result<bool, NoMemory>
        ensures { Says result (IsTrueAnswer self.now.setup self.now.volume server (body.Ask keys.now) answer.now) }
    {
        match answer {
            Body::Found(cells) => are_cells(
                alloc,
                self.setup,
                &self.volume,
                server,
                keys,
                cells.as_slice(),
            ),
            _ => Ok(true),
        }
    }

    /// Whether this answer of a server to a request for a directory's names is true of the volume.
    fn is_listed(
        &self,
        alloc: Global,
        server: u64,
        dir: u64,
        cookie: u64,
        limit: u32,
        answer: &Body,
    ) -> Result<bool, NoMemory>
        ensures { Says result (IsTrueAnswer self.now.setup self.now.volume server (body.List dir cookie limit) answer.now) }
    {
        match answer {
            Body::Listed { cells, more } => are_names(
                alloc,
                self.setup,
                &self.volume,
                server,
                dir,
                cookie,
                limit,
                cells.as_slice(),
                *more,
            ),
            _ => Ok(true),
        }
    }

    /// Whether this answer of a server to a request is true of the volume.
    fn is_true_answer(
        &self,
        alloc: Global,
        server: u64,
        asking: &Body,
        answer: &Body,
    ) -> Result<bool, NoMemory>
        ensures { Says result (IsTrueAnswer self.now.setup self.now.volume server asking.now answer.now) }
    {
        match asking {
            Body::Ask(keys) => self.is_found(alloc, server, keys.as_slice(), answer),
            Body::List { dir, cookie, limit } => {
                self.is_listed(alloc, server, *dir, *cookie, *limit, answer)
            }
            _ => Ok(true),
        }
    }

    /// Whether a frame that was sent in the newest turn is true of the volume.
    fn is_true(&self, alloc: Global, frame: &Frame) -> Result<bool, NoMemory>
        ensures { (h : turns.History) → IsLedgerOf h self.now.ledger → Says result (IsTrueIf self.now.setup self.now.volume frame.now (request h frame.now.fence frame.now.tag)) }
    {
        match self.ledger.request(frame.fence, frame.tag) {
            Some(asking) => {
                self.is_true_answer(alloc, u64::from(frame.from), &asking.body, &frame.body)
            }
            None => Ok(true),
        }
    }

    /// Whether a remark of the newest turn is true of the volume, if it is of a frame.
    fn is_true_remark(&self, alloc: Global, remark: &Remark) -> Result<bool, NoMemory>
        ensures { (h : turns.History) → IsLedgerOf h self.now.ledger → Says result (IsTrueRemark self.now.setup self.now.volume h (remark_of remark.now)) }
    {
        match remark {
            Remark::Sent { frame, .. } => self.is_true(alloc, frame),
            _ => Ok(true),
        }
    }

    /// Whether all frames among the remarks of the newest turn are true of the volume.
    pub fn are_true(&self, alloc: Global, remarks: &[Remark]) -> Result<bool, NoMemory>
        ensures { (setup : Setup) (start : volumes.Volume) (h : turns.History) → IsDocketOf setup start h self.now → Says result (AreTrue setup (volume_after start h) h (map remark_of remarks.now)) }
    {
        for remark in remarks {
            let is_true = self.is_true_remark(alloc, remark)?;
            if !is_true {
                return Ok(false);
            }
        }
        Ok(true)
    }
}
