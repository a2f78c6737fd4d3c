ghost use Rattle.std.specs.Prelude.{◌≡◌, ◌^◌, ◌<◌, ℕ, List, true};
ghost use Rattle.sl_defs.specs.declared.setup.Policy.TheVariants as policy;
ghost use Rattle.sl_policy.specs.Sites.{site_of, hash, hash_site, is_switched, name_site, object_site};

use md5::{Digest, Md5};
use sl_defs::Policy;

/// The site of an object, which its fileid tells: the six bits from 2^40 on.
pub fn site_of(fileid: u64) -> u8
    requires { fileid < 2 ^ 46 }
    ensures { result ≡ site_of fileid }
{
    (fileid >> 40) as u8
}

/// The site of a name's cell in a directory.
pub fn name_site(policy: Policy, dir: u64, name: &[u8]) -> u8
    requires { dir < 2 ^ 46 }
    ensures { result ≡ name_site policy dir name.now }
{
    match policy {
        Policy::Hash => hash_site(&hash(dir, name)),
        Policy::Switch(_) => site_of(dir),
    }
}

/// The site of a new object of that name in a directory.
pub fn object_site(policy: Policy, dir: u64, name: &[u8], is_dir: bool) -> u8
    requires { dir < 2 ^ 46 }
    ensures { result ≡ object_site policy dir name.now is_dir }
{
    match policy {
        Policy::Switch(bound) if is_dir => switched_site(bound, dir, name),
        // It is with its name's cell.
        Policy::Switch(_) | Policy::Hash => name_site(policy, dir, name),
    }
}

/// The site of a new directory under Switch.
#[tactic(auto, unfolding(crate::specs::Sites::is_switched))]
fn switched_site(bound: u8, dir: u64, name: &[u8]) -> u8
    requires { dir < 2 ^ 46 }
    ensures { result ≡ object_site (policy.Switch bound) dir name.now true }
{
    let digest = hash(dir, name);
    if digest[8] < bound {
        hash_site(&digest)
    } else {
        site_of(dir)
    }
}

/// The MD5 of the directory's fileid, in eight bytes, and the name.
#[tactic(auto, unfolding(crate::specs::Sites::hash, sl_defs::specs::Items::u64_text))]
fn hash(dir: u64, name: &[u8]) -> [u8; 16]
    ensures { result ≡ hash dir name.now }
{
    let mut hasher = Md5::new();
    hasher.update(dir.to_be_bytes().as_slice());
    hasher.update(name);
    hasher.finalize()
}

/// The site that a hash gives: its first eight bytes as a number, modulo 64 sites.
#[tactic(auto, unfolding(crate::specs::Sites::hash_site))]
fn hash_site(digest: &[u8; 16]) -> u8
    ensures { (dir : ℕ) (name : List ℕ) → digest.now ≡ hash dir name → result ≡ hash_site dir name }
{
    let [a, b, c, d, e, f, g, h, ..] = *digest;
    (u64::from_be_bytes([a, b, c, d, e, f, g, h]) % 64) as u8
}
