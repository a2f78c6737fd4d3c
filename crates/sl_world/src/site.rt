//! What an actor has seen of the proxy's fences and tags.
ghost use Rattle.std.specs.Prelude.{◌≡◌};
ghost use Rattle.sl_world.specs.Sites.{when_seen};

use sl_frames::Frame;

/// The greatest fence that an actor has seen, and the least tag that the proxy still waits for under that fence. No answer
/// is kept, and no frame is parked.
#[derive(Clone, Copy, Debug, PartialEq, Eq)]
pub struct Site {
    pub fence: u64,
    pub low: u64,
}

impl Site {
    /// A frame is seen. At a greater fence the low tag starts anew, and a frame of an older fence changes nothing.
    pub fn see(&mut self, frame: &Frame)
        ensures { self.new ≡ when_seen self.old frame.now }
    {
        if frame.fence > self.fence {
            self.fence = frame.fence;
            self.low = frame.low;
        } else if frame.fence == self.fence {
            self.low = self.low.max(frame.low);
        }
    }
}
