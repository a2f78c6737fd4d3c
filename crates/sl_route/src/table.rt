ghost use Rattle.std.specs.Prelude.{◌≡◌, ℕ, ◌+◌, ◌%◌, ◌<◌, ◌≤◌, ◌↔◌, length, slice_index, EachIndex, IsTrue, IfSome, IfNone};
ghost use Rattle.sl_route.specs.Places.{Places, sites, first_server, most_servers, server_of};
ghost use Rattle.sl_route.specs.Tables.{IsServer, AreServers, IsTable, count, AreCounts, IsEven, table_text};

use crate::class::Class;
use std::marker::Model;

/// Which server carries each logical site of a volume: a server is the number of its actor.
#[derive(Drop, Debug)]
pub struct Table {
    dirs: [u8; 64],
    small: [u8; 16],
    nodes: [u8; 64],
}

impl Model for Table {
    ghost use Rattle.sl_route.specs.Places.{Places};
    ghost use Rattle.sl_route.specs.Tables.{IsTable};

    ghost Value = { Places };

    ghost view = { λ t. record { dirs = t.dirs; small = t.small; nodes = t.nodes } };

    ghost invariant = { λ t. IsTable (record { dirs = t.dirs; small = t.small; nodes = t.nodes }) };
}

impl Table {
    /// The table in which so many servers of each class take its sites in turn; None where there are not 1 to 8
    /// directory servers, 1 to 4 small-file servers and 1 to 8 storage nodes.
    pub fn even(dirs: u8, small: u8, nodes: u8) -> Option<Table>
        ensures even { IfSome result (λ t. IsEven (count dirs small nodes) t) }
        ensures counts { IfSome result (λ t. AreCounts (count dirs small nodes)) }
        ensures table { IfSome result IsTable }
        ensures none { IfNone result (AreCounts (count dirs small nodes) → ⊥) }
    {
        if !is_count(Class::Dir, dirs)
            || !is_count(Class::Small, small)
            || !is_count(Class::Node, nodes)
        {
            return None;
        }
        Some(Table {
            dirs: in_turn(Class::Dir, dirs),
            small: in_turn(Class::Small, small),
            nodes: in_turn(Class::Node, nodes),
        })
    }

    /// The table that these 144 bytes spell: an actor for each of the 64 sites of directory servers (16 to 23),
    /// the 16 of small-file servers (32 to 35) and the 64 of storage nodes (48 to 55).
    pub fn read(bytes: &[u8]) -> Option<Table>
        ensures found { IfSome result (λ t. bytes.now ≡ table_text t) }
        ensures table { IfSome result IsTable }
        ensures none { IfNone result ((p : Places) → IsTable p → bytes.now ≡ table_text p → ⊥) }
    {
        if bytes.len() != 144 {
            return None;
        }
        let (dirs, rest) = bytes.split_at(64);
        let (small, nodes) = rest.split_at(16);
        if !are_servers(Class::Dir, dirs)
            || !are_servers(Class::Small, small)
            || !are_servers(Class::Node, nodes)
        {
            return None;
        }
        Some(Table {
            dirs: array(dirs),
            small: array(small),
            nodes: array(nodes),
        })
    }

    /// The server that carries this site of the class.
    pub fn server(&self, class: Class, logical: u8) -> u8
        requires { logical < sites class }
        ensures server { result ≡ server_of self.now class logical }
        ensures class { IsServer class result }
    {
        let site = usize::from(logical);
        match class {
            Class::Dir => self.dirs[site],
            Class::Small => self.small[site],
            Class::Node => self.nodes[site],
        }
    }

    /// Each class of a table has all its sites, and each site a server of its class.
    pub fn is_whole(&self)
        ensures { IsTable self.now }
    {
        let _ = &self.dirs;
    }
}

/// Whether a volume may have so many servers of the class.
fn is_count(class: Class, servers: u8) -> bool
    ensures { IsTrue result ↔ ((1 ≤ servers) × (servers ≤ most_servers class)) }
{
    1 <= servers && servers <= class.most_servers()
}

/// The actors of the class's sites, where so many servers take them in turn.
fn in_turn<const N: usize>(class: Class, servers: u8) -> [u8; N]
    requires some { 1 ≤ servers }
    requires few { servers ≤ most_servers class }
    ensures { EachIndex result (λ site. slice_index result site ≡ first_server class + site % servers) }
{
    let mut places = [0; N];
    deal(&mut places, class.first_server(), servers);
    places
}

/// Gives sites in turn to so many servers from the first on.
fn deal(places: &mut [u8], first: u8, servers: u8)
    requires some { 1 ≤ servers }
    requires fits { first + servers ≤ 256 }
    ensures { EachIndex places.new (λ site. slice_index places.new site ≡ first + site % servers) }
{
    for (site, place) in places.iter_mut().enumerate() {
        *place = first + (site % usize::from(servers)) as u8;
    }
}

/// Whether all these actors are servers of the class.
fn are_servers(class: Class, actors: &[u8]) -> bool
    ensures { IsTrue result ↔ AreServers class actors.now }
{
    actors.iter().all(|actor| class.has_server(*actor))
}

/// The bytes as an array.
fn array<const N: usize>(bytes: &[u8]) -> [u8; N]
    requires { length bytes.now ≡ N }
    ensures { result ≡ bytes.now }
{
    let mut array = [0; N];
    array.copy_from_slice(bytes);
    array
}
