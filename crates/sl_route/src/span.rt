ghost use Rattle.std.specs.Prelude.{◌≡◌, ℕ, ◌⊎◌, ◌↔◌, ◌^◌, ◌<◌, ◌≤◌};
ghost use Rattle.sl_route.specs.Places.{class_of_byte, server_of_byte, HoldsOne};
ghost use Rattle.sl_route.specs.Tables.{IsServer};
ghost use Rattle.sl_route.specs.Spans.{Has, site_of_unit, HoldsUnit, HoldsSmall};

use crate::class::Class;
use crate::set::with_actor;
use crate::table::Table;
use sl_types::ActorSet;

/// Bytes below it lie on small-file servers.
pub const THRESHOLD: u64 = 65_536;

/// A storage node holds whole units of so many bytes.
pub const UNIT: u64 = 8192;

/// After so many units a file comes to the same sites again.
const NODE_SITES: u64 = 64;

impl Table {
    /// The server of the file's byte at this offset: below 65536 a small-file server, from there on the storage
    /// node of its unit of 8192 bytes.
    #[tactic(auto, unfolding(crate::specs::Places::server_of_byte))]
    pub fn unit_place(&self, fileid: u64, offset: u64) -> u8
        ensures server { result ≡ server_of_byte self.now fileid offset }
        ensures class { IsServer (class_of_byte offset) result }
    {
        if offset < THRESHOLD {
            self.server(Class::Small, (fileid % 16) as u8)
        } else {
            self.server(Class::Node, node_site(fileid, offset / UNIT))
        }
    }

    /// The servers that hold the file's bytes from an offset up to another, which it doesn't include.
    pub fn spans(&self, fileid: u64, from: u64, to: u64) -> ActorSet
        ensures { (actor : ℕ) → Has result actor ↔ HoldsOne self.now fileid from to actor }
    {
        let small = self.small_span(fileid, from, to);
        let above = from.max(THRESHOLD);
        if above < to {
            self.with_units(small, fileid, above / UNIT, (to - 1) / UNIT + 1)
        } else {
            small
        }
    }

    /// The server of the bytes below the threshold, where there are some.
    fn small_span(&self, fileid: u64, from: u64, to: u64) -> ActorSet
        ensures { (actor : ℕ) → Has result actor ↔ HoldsSmall self.now fileid from to actor }
    {
        if from < to && from < THRESHOLD {
            let server = self.server(Class::Small, (fileid % 16) as u8);
            with_actor(ActorSet(0), server)
        } else {
            ActorSet(0)
        }
    }

    /// The set with the servers of the file's units from one up to another, which it doesn't include.
    fn with_units(&self, set: ActorSet, fileid: u64, first: u64, end: u64) -> ActorSet
        requires order { first ≤ end }
        requires small { end < 2 ^ 63 }
        ensures { (actor : ℕ) → Has result actor ↔ (Has set actor ⊎ HoldsUnit self.now fileid first end actor) }
    {
        let mut set = set;
        for unit in first..end.min(first + NODE_SITES) {
            set = with_actor(set, self.server(Class::Node, node_site(fileid, unit)));
        }
        set
    }
}

/// The site of a file's unit on storage nodes.
fn node_site(fileid: u64, unit: u64) -> u8
    ensures unit { result ≡ site_of_unit fileid unit }
    ensures site { result < 64 }
{
    // The sum of the two may pass the end of u64.
    ((fileid % 64 + unit % 64) % 64) as u8
}
