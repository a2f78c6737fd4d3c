//! `packets_bench TIMES`: how long it takes to read calls and to write replies.
//!
//! Standard input has a packet a line: `call P HEX`, the arguments of procedure P, or `reply P HEX`, its results. All
//! calls are read TIMES times, and each reply is read once and written TIMES times. It prints how many microseconds the
//! calls took, how many were read, how many microseconds the replies took, and how many bytes were written. With no
//! words it does nothing.
#![tactic(auto)]

use sl_calls::read_args;
use sl_replies::{read_reply, write_reply};
use sl_text::{behind, cut, hex_bytes, number_u32};
use sl_types::Bytes;
use std::alloc::Global;
use std::io::{BufRead, BufReader};
use std::process::ExitCode;
use std::rt::{Clock, Env};
use std::time::Instant;
use std::{env, io};

/// Why nothing was measured.
#[derive(Drop)]
enum Trouble {
    /// The words aren't one number.
    Words,
    /// Standard input failed, or isn't made of packets that can be read.
    Packets,
    /// The clock gave no time.
    Clock,
}

/// The arguments or the results of a procedure, not yet read.
#[derive(Drop)]
struct Packet {
    procedure: u32,
    bytes: Bytes,
}

/// The packets of a measurement.
#[derive(Drop)]
struct Packets {
    calls: Vec<Packet>,
    replies: Vec<Packet>,
}

/// The procedure and the bytes that a line has behind its first word.
fn packet_of(alloc: Global, text: &[u8]) -> Result<Packet, Trouble> {
    let (procedure, hex) = cut(text);
    let procedure = number_u32(procedure);
    match hex_bytes(alloc, hex) {
        Ok(bytes) => Ok(Packet { procedure, bytes }),
        Err(_) => Err(Trouble::Packets),
    }
}

impl Packets {
    /// No packets.
    fn new(alloc: Global) -> Packets {
        Packets {
            calls: Vec::new(alloc),
            replies: Vec::new(alloc),
        }
    }

    /// Adds a line's packet.
    fn add(&mut self, alloc: Global, line: &[u8]) -> Result<(), Trouble> {
        let added = match behind(line, b"call ") {
            Some(rest) => self.calls.push(packet_of(alloc, rest)?),
            None => match behind(line, b"reply ") {
                Some(rest) => self.replies.push(packet_of(alloc, rest)?),
                None => return Err(Trouble::Packets),
            },
        };
        added.map_err(|_| Trouble::Packets)
    }
}

/// What was measured.
struct Measured {
    calls_took: u128,
    calls_read: u64,
    replies_took: u128,
    bytes_written: u64,
}

/// How often each packet is taken: nothing where there is no word.
fn times<R: Env + AllocGlobal>(rt: &R) -> Result<Option<u64>, Trouble> {
    match env::args(rt).map_err(|_| Trouble::Words)?.nth(1) {
        Some(word) => Ok(Some(word.parse::<u64>().map_err(|_| Trouble::Words)?)),
        None => Ok(None),
    }
}

/// Reads all calls so many times, and gives how many were read.
fn read_calls(alloc: Global, packets: &Packets, times: u64) -> u64 {
    let mut read: u64 = 0;
    for _ in 0..times {
        for call in &packets.calls {
            if read_args(alloc, call.procedure, call.bytes.as_slice()).is_ok() {
                read = read.saturating_add(1);
            }
        }
    }
    read
}

/// Reads each reply, writes it so many times, and gives how many bytes were written.
fn write_replies(alloc: Global, packets: &Packets, times: u64) -> u64 {
    let mut written: u64 = 0;
    let mut out = Vec::new(alloc);
    for packet in &packets.replies {
        if let Ok(reply) = read_reply(alloc, packet.procedure, packet.bytes.as_slice()) {
            for _ in 0..times {
                out.clear();
                if write_reply(&reply, &mut out).is_ok() {
                    written = written.saturating_add(out.len() as u64);
                }
            }
        }
    }
    written
}

/// Takes each packet so many times.
fn measure<R: Clock + AllocGlobal>(
    rt: &R,
    packets: &Packets,
    times: u64,
) -> Result<Measured, Trouble> {
    let alloc = rt.alloc();
    let start = Instant::now(rt).map_err(|_| Trouble::Clock)?;
    let calls_read = read_calls(alloc, packets, times);
    let calls_took = start.elapsed(rt).map_err(|_| Trouble::Clock)?.as_micros();
    let start = Instant::now(rt).map_err(|_| Trouble::Clock)?;
    let bytes_written = write_replies(alloc, packets, times);
    let replies_took = start.elapsed(rt).map_err(|_| Trouble::Clock)?.as_micros();
    Ok(Measured {
        calls_took,
        calls_read,
        replies_took,
        bytes_written,
    })
}

/// The packets that standard input has.
fn packets_of(rt: &HostRuntime) -> Result<Packets, Trouble> {
    let alloc = rt.alloc();
    let mut packets = Packets::new(alloc);
    let reader = BufReader::new(alloc, rt.reader()).map_err(|_| Trouble::Packets)?;
    for line in reader.lines(alloc) {
        let line = line.map_err(|_| Trouble::Packets)?;
        packets.add(alloc, line.as_bytes())?;
    }
    Ok(packets)
}

/// Measures what the words ask for.
fn run(rt: &HostRuntime) -> Result<Option<Measured>, Trouble> {
    let Some(times) = times(rt)? else {
        return Ok(None);
    };
    let packets = packets_of(rt)?;
    Ok(Some(measure(rt, &packets, times)?))
}

fn main(rt: HostRuntime) -> io::Result<ExitCode> {
    let trouble = match run(&rt) {
        Ok(None) => return Ok(ExitCode::from(0)),
        Ok(Some(measured)) => {
            let Measured {
                calls_took,
                calls_read,
                replies_took,
                bytes_written,
            } = measured;
            println!(rt; "{calls_took} {calls_read} {replies_took} {bytes_written}")?;
            return Ok(ExitCode::from(0));
        }
        Err(trouble) => trouble,
    };
    match trouble {
        Trouble::Words => eprintln!(rt; "packets_bench: wants TIMES")?,
        Trouble::Packets => eprintln!(rt; "packets_bench: no packets")?,
        Trouble::Clock => eprintln!(rt; "packets_bench: no clock")?,
    }
    Ok(ExitCode::from(1))
}
