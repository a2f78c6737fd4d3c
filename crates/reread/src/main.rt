//! Reads packets and texts in this repository's grammars and prints each again as it was read, so that an independent
//! reader can be compared with it. It takes requests from standard input, one a line, and answers each by a line.
//! Bytes are in hexadecimal, and `-` stands for none.
//!
//! | Request | Answer |
//! |---|---|
//! | `call P HEX` | the arguments of procedure P in their canonical spelling, or `garbage` |
//! | `reply P HEX` | the results of procedure P in their canonical spelling, or `garbage` |
//! | `first TEXT` | the first line of a schedule, whose volume the lines from here on are of, or `bad`, and then there is none |
//! | `later TEXT` | another line of that volume's schedule, or `bad` |
//! | `note TEXT` | a note of a transcript, or `bad` |
#![tactic(auto)]

mod packets;
mod requests;
mod texts;
mod words;

use crate::requests::answer;
use std::io;
use std::io::{BufRead, BufReader, BufWriter, Write};

fn main(rt: HostRuntime) -> io::Result<()> {
    let alloc = rt.alloc();
    let mut volume = None;
    let mut writer = BufWriter::new(alloc, io::writer(&rt))?;
    for line in BufReader::new(alloc, rt.reader())?.lines(alloc) {
        let line = line?;
        let Ok(answer) = answer(alloc, line.as_bytes(), &mut volume) else {
            return Err(io::Error::from(io::ErrorKind::OutOfMemory));
        };
        writer.write_all(&answer)?;
        writer.write_all(b"\n")?;
    }
    writer.flush()
}

#[cfg(test)]
mod tests;
