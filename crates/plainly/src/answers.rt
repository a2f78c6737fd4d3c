//! Answers, a line each.
ghost use Rattle.std.specs.Prelude.{◌≡◌, IfOk};
ghost use Rattle.plainly.specs.Answers.{answer_text};

use sl_text::{put, put_hex};
use sl_types::{Bytes, NoMemory};
use std::alloc::Global;

/// What is answered to a request.
#[derive(Drop, Debug)]
pub enum Answer {
    /// The datagram is no call of NFS version 3.
    NoCall,
    /// It has no arguments of its procedure.
    Garbage,
    /// A number would pass the end of its type.
    Spent,
    /// No packet can hold the reply.
    TooLong,
    /// The reply's bytes.
    Reply(Bytes),
    Restarted,
    Flushed,
    /// The line is no request.
    NoRequest,
}

impl Answer {
    /// The line of this answer.
    pub fn text(&self, alloc: Global) -> Result<Vec<u8>, NoMemory>
        ensures { IfOk result (λ text. text.items ≡ answer_text self.now) }
    {
        let mut text = Vec::new(alloc);
        match self {
            Answer::NoCall => put(&mut text, b"no call")?,
            Answer::Garbage => put(&mut text, b"garbage")?,
            Answer::Spent => put(&mut text, b"spent")?,
            Answer::TooLong => put(&mut text, b"too long")?,
            Answer::Reply(bytes) => put_hex(&mut text, bytes.as_slice())?,
            Answer::Restarted => put(&mut text, b"restarted")?,
            Answer::Flushed => put(&mut text, b"flushed")?,
            Answer::NoRequest => put(&mut text, b"no request")?,
        }
        Ok(text)
    }
}
