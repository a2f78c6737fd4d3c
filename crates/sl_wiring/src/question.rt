ghost use Rattle.std.specs.Prelude.{◌≡◌};
ghost use Rattle.sl_wiring.specs.Given.{behind, put_by};

use sl_frames::Frame;

/// What an answer is matched with: who asked whom, under which fence, tag and operation, and by which kind of frame.
#[derive(Clone, Copy, Debug, PartialEq, Eq, PartialOrd, Ord)]
pub struct Question {
    pub asker: u8,
    pub asked: u8,
    pub fence: u64,
    pub tag: u64,
    pub op: u64,
    /// The number of the kind, as frames have it.
    pub kind: u8,
}

impl Question {
    /// The question that a frame puts.
    pub fn put_by(frame: &Frame) -> Question
        ensures { result ≡ put_by frame.now }
    {
        Question {
            asker: frame.from,
            asked: frame.to,
            fence: frame.fence,
            tag: frame.tag,
            op: frame.op,
            kind: frame.body.kind(),
        }
    }

    /// The question of this kind that a frame answers.
    pub fn behind(answer: &Frame, kind: u8) -> Question
        ensures { result ≡ behind answer.now kind }
    {
        Question {
            asker: answer.to,
            asked: answer.from,
            fence: answer.fence,
            tag: answer.tag,
            op: answer.op,
            kind,
        }
    }
}
