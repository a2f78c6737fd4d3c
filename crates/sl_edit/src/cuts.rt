//! A WRITE that is cut to its first bytes.
ghost use Rattle.std.specs.Prelude.{◌≡◌, ◌+◌, ◌≤◌, length, IfSome};
ghost use Rattle.sl_defs.specs.Items.{u32_text};
ghost use Rattle.sl_edit.specs.Edits.{spliced};
ghost use Rattle.sl_edit.specs.Cuts.{HasRoom, IsCut, cut_length, cut_packet, padded, word_span};

use crate::span::{Span, put_at};

/// Where a WRITE has its count, the number of its bytes, and these bytes, in bytes from the packet's front, and how many
/// bytes they are.
#[derive(Clone, Copy, Debug, PartialEq, Eq)]
pub(crate) struct Content {
    pub count: usize,
    pub number: usize,
    pub bytes: usize,
    pub len: usize,
}

/// Writes zeros behind the first n bytes, up to a multiple of four, and gives the place behind them.
fn pad(packet: &mut [u8], content: Content, n: usize) -> usize
    requires room { HasRoom packet.old content }
    requires few { n ≤ content.len }
    ensures padded { packet.new ≡ padded content n packet.old }
    ensures end { result ≡ cut_length content n }
{
    let zeros = [0, 0, 0];
    let padding = &zeros[..(4 - n % 4) % 4];
    let from = content.bytes + n;
    let to = from + padding.len();
    put_at(packet, Span { from, to }, padding);
    to
}

/// Cuts a WRITE to the first n of its bytes.
fn cut_at(packet: &mut [u8], content: Content, n: u32) -> usize
    requires room { HasRoom packet.old content }
    requires few { n ≤ content.len }
    ensures cut { packet.new ≡ cut_packet content n packet.old }
    ensures end { result ≡ cut_length content n }
{
    let end = pad(packet, content, n as usize);
    put_word(packet, content.number, n);
    put_word(packet, content.count, n);
    end
}

/// Writes a number of four bytes at a place.
#[tactic(auto, unfolding(sl_defs::specs::Items::u32_text))]
fn put_word(packet: &mut [u8], from: usize, n: u32)
    requires { from + 4 ≤ length packet.old }
    ensures { packet.new ≡ spliced packet.old (word_span from) (u32_text n) }
{
    let to = from + 4;
    put_at(packet, Span { from, to }, &n.to_be_bytes());
}

/// Cuts a WRITE to the first n of its bytes, if it is one and has so many.
pub(crate) fn cut(packet: &mut [u8], content: Option<Content>, n: u32) -> Option<usize>
    requires room { IfSome content (HasRoom packet.old) }
    ensures { IsCut content n packet.old packet.new result }
{
    match content {
        Some(content) => {
            if (n as usize) > content.len {
                None
            } else {
                Some(cut_at(packet, content, n))
            }
        }
        None => None,
    }
}
