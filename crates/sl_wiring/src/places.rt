//! Where the parts of a volume lie. The numbers of a setup, of a fileid and of a directory may be any.
ghost use Rattle.std.specs.Prelude.{◌≡◌, ◌^◌, ◌<◌, ℕ, List, true};
ghost use Rattle.sl_defs.specs.declared.setup.Policy.TheVariants as policy;
ghost use Rattle.sl_policy.specs.Sites.{site_of, hash, hash_site, is_switched, name_site, object_site};
ghost use Rattle.sl_history.specs.Placing.{servers, carrier, object_server, name_server, byte_server};

use md5::{Digest, Md5};
use sl_defs::{Policy, Setup};
use sl_route::{Class, THRESHOLD, UNIT};

/// How many servers of a class there are.
fn servers(setup: Setup, class: Class) -> u8
    ensures { result ≡ servers setup class }
{
    match class {
        Class::Dir => setup.dirs,
        Class::Small => setup.small,
        Class::Node => setup.nodes,
    }
}

/// The server that carries a site. Where there are no servers of its class, no actor has that number.
fn carrier(setup: Setup, class: Class, site: u64) -> u64
    requires { site < 2 ^ 32 }
    ensures { result ≡ carrier setup class site }
{
    let count = u64::from(servers(setup, class));
    let turn = if count == 0 { site } else { site % count };
    u64::from(class.first_server()) + turn
}

/// The site of an object, which its fileid tells.
pub fn site_of(fileid: u64) -> u64
    ensures exact { result ≡ site_of fileid }
    ensures small { result < 2 ^ 32 }
{
    fileid >> 40
}

/// The MD5 of the directory's fileid, in eight bytes, and the name.
#[tactic(auto, unfolding(sl_policy::specs::Sites::hash, sl_defs::specs::Items::u64_text))]
fn hash(dir: u64, name: &[u8]) -> [u8; 16]
    ensures { result ≡ hash dir name.now }
{
    let mut hasher = Md5::new();
    hasher.update(dir.to_be_bytes().as_slice());
    hasher.update(name);
    hasher.finalize()
}

/// The site that a hash gives: its first eight bytes as a number, modulo 64 sites.
#[tactic(auto, unfolding(sl_policy::specs::Sites::hash_site))]
fn hash_site(digest: &[u8; 16]) -> u64
    ensures exact { (dir : ℕ) (name : List ℕ) → digest.now ≡ hash dir name → result ≡ hash_site dir name }
    ensures small { result < 2 ^ 32 }
{
    let [a, b, c, d, e, f, g, h, ..] = *digest;
    u64::from_be_bytes([a, b, c, d, e, f, g, h]) % 64
}

/// The site of a name's cell in a directory.
fn name_site(policy: Policy, dir: u64, name: &[u8]) -> u64
    ensures exact { result ≡ name_site policy dir name.now }
    ensures small { result < 2 ^ 32 }
{
    match policy {
        Policy::Hash => hash_site(&hash(dir, name)),
        Policy::Switch(_) => site_of(dir),
    }
}

/// The site of a new directory under Switch.
#[tactic(auto, unfolding(sl_policy::specs::Sites::is_switched))]
fn switched_site(bound: u8, dir: u64, name: &[u8]) -> u64
    ensures { result ≡ object_site (policy.Switch bound) dir name.now true }
{
    let digest = hash(dir, name);
    if digest[8] < bound {
        hash_site(&digest)
    } else {
        site_of(dir)
    }
}

/// The site of a new object of that name in a directory.
pub fn object_site(policy: Policy, dir: u64, name: &[u8], is_dir: bool) -> u64
    ensures { result ≡ object_site policy dir name.now is_dir }
{
    match policy {
        Policy::Switch(bound) if is_dir => switched_site(bound, dir, name),
        // It is with its name's cell.
        Policy::Switch(_) | Policy::Hash => name_site(policy, dir, name),
    }
}

/// The server of an object's attributes.
pub fn object_server(setup: Setup, fileid: u64) -> u64
    ensures { result ≡ object_server setup fileid }
{
    carrier(setup, Class::Dir, site_of(fileid))
}

/// The server of a name in a directory.
pub fn name_server(setup: Setup, dir: u64, name: &[u8]) -> u64
    ensures { result ≡ name_server setup dir name.now }
{
    carrier(setup, Class::Dir, name_site(setup.policy, dir, name))
}

/// The server of a byte of a file.
pub fn byte_server(setup: Setup, fileid: u64, offset: u64) -> u64
    ensures { result ≡ byte_server setup fileid offset }
{
    if offset < THRESHOLD {
        carrier(setup, Class::Small, fileid % 16)
    } else {
        // The sum of the two may pass the end of u64.
        carrier(setup, Class::Node, (fileid % 64 + offset / UNIT % 64) % 64)
    }
}
