//! Performs calls on one volume of the plain server, so that an independent server can be compared with it. It takes
//! requests from standard input, one a line, and answers each by a line. Numbers are in decimal, bytes are in
//! hexadecimal, and `-` stands for none.
//!
//! | Request | Answer |
//! |---|---|
//! | `call SEC NSEC FILEID KEPT DATAGRAM` | the reply to this call, at this moment with this choice; or a word |
//! | `restart VERIFIER` | `restarted`: all unstable writes are forgotten, and this is the write verifier |
//! | `flush FILEID` | `flushed`: the unstable writes of this file are made stable |
//!
//! A call's word is `no call`, `garbage`, `spent` where a number would pass the end of its type, or `too long` where
//! no packet can hold the reply.
#![tactic(auto)]

mod answers;
mod calls;
mod requests;

use crate::requests::answer_text;
use sl_plain::Volume;
use std::io;
use std::io::{BufRead, BufReader, BufWriter, Write};

/// The number of the volume.
const NUMBER: u64 = 7;

fn main(rt: HostRuntime) -> io::Result<()> {
    let alloc = rt.alloc();
    let Ok(mut volume) = Volume::new(alloc, NUMBER) else {
        return Err(io::Error::from(io::ErrorKind::OutOfMemory));
    };
    let mut writer = BufWriter::new(alloc, io::writer(&rt))?;
    for line in BufReader::new(alloc, rt.reader())?.lines(alloc) {
        let line = line?;
        let Ok(text) = answer_text(alloc, &mut volume, line.as_bytes()) else {
            return Err(io::Error::from(io::ErrorKind::OutOfMemory));
        };
        writer.write_all(&text)?;
        writer.write_all(b"\n")?;
    }
    writer.flush()
}

#[cfg(test)]
mod tests;
