//! `reframe` reads lines of hexadecimal digits from standard input. For each it prints the frame that its bytes spell, in
//! hexadecimal digits again, or `bad`.
#![tactic(auto)]

use hex::{FromHexError, decode, encode};
use sl_frames::{Frame, FrameFault};
use std::alloc::Global;
use std::io;
use std::io::ErrorKind;

/// The digits of the frame that a line's bytes spell, printed anew.
fn printed_again(alloc: Global, line: &str) -> io::Result<String> {
    let bytes = match decode(alloc, line.as_bytes()) {
        Ok(bytes) => bytes,
        Err(fault) => match fault {
            FromHexError::OutOfMemory => return Err(ErrorKind::OutOfMemory.into()),
            _ => return Ok(format!(in alloc; "bad")?),
        },
    };
    match Frame::read(alloc, &bytes) {
        Ok(frame) => {
            let mut out = Vec::new(alloc);
            if frame.write(&mut out).is_err() {
                return Err(ErrorKind::OutOfMemory.into());
            }
            Ok(encode(alloc, out.as_slice())?)
        }
        Err(FrameFault::BadFrame) => Ok(format!(in alloc; "bad")?),
        Err(FrameFault::NoMemory) => Err(ErrorKind::OutOfMemory.into()),
    }
}

fn main(rt: HostRuntime) -> io::Result<()> {
    for line in rt.lines(rt.alloc()) {
        let line = line?;
        let text = printed_again(rt.alloc(), line.as_str())?;
        println!(rt; "{text}")?;
    }
    Ok(())
}
