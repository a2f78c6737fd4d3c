ghost use Rattle.std.specs.Prelude.{◌≡◌, IfOk};

use crate::body::Body;
use sl_types::NoMemory;

/// A message from one actor to another.
#[derive(Drop, Debug)]
pub struct Frame {
    pub from: u8,
    pub to: u8,
    /// The proxy's fence under which it was asked.
    pub fence: u64,
    /// The number of the proxy's request.
    pub tag: u64,
    /// The least tag that the proxy still waits for.
    pub low: u64,
    /// The number of the coordinator's operation.
    pub op: u64,
    /// The boot of a data server: its own in what it sends, and in what it is sent the one that is relied on, 0 for none.
    pub boot: u64,
    /// The event in which the call arrived.
    pub arrival: u64,
    pub body: Body,
}

/// Which fields of its header a frame uses besides the fence. All others are zero.
#[derive(Clone, Copy, Debug, PartialEq, Eq)]
pub struct Uses {
    pub tag: bool,
    pub low: bool,
    pub op: bool,
    pub boot: bool,
    pub arrival: bool,
}

impl Frame {
    /// An equal frame, in memory of its own.
    pub fn copy(&self) -> Result<Frame, NoMemory>
        ensures { IfOk result (λ copy. copy ≡ self.now) }
    {
        let body = self.body.copy()?;
        Ok(Frame {
            from: self.from,
            to: self.to,
            fence: self.fence,
            tag: self.tag,
            low: self.low,
            op: self.op,
            boot: self.boot,
            arrival: self.arrival,
            body,
        })
    }
}
