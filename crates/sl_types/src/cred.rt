ghost use Rattle.std.specs.Prelude.{◌≡◌, ◌≤◌, ◌<◌, ◌++◌, ◌∷◌, [], length, take};

use std::marker::Model;

/// At most 16 groups, which contracts see as that list.
#[derive(Drop, Debug)]
pub struct Gids {
    items: [u32; 16],
    count: usize,
}

impl Model for Gids {
    ghost use Rattle.std.specs.Prelude.{ℕ, List, ◌≤◌, take};

    ghost Value = { List ℕ };

    ghost view = { λ g. take g.count g.items };

    ghost invariant = { λ g. g.count ≤ 16 };
}

impl Gids {
    /// No group.
    pub fn new() -> Gids
        ensures { result ≡ [] }
    {
        Gids {
            items: [0; 16],
            count: 0,
        }
    }

    /// The groups, in order.
    pub fn as_slice(&self) -> &[u32]
        ensures groups { result.now ≡ self.now }
        ensures few { length result.now ≤ 16 }
    {
        &self.items[..self.count]
    }

    /// Puts one more behind the others.
    pub fn push(&mut self, gid: u32)
        requires { length self.old < 16 }
        ensures { self.new ≡ self.old ++ gid ∷ [] }
    {
        self.items[self.count] = gid;
        self.count += 1;
    }

    /// The same groups.
    pub fn copy(&self) -> Gids
        ensures { result ≡ self.now }
    {
        Gids {
            items: self.items,
            count: self.count,
        }
    }
}

/// Whom a call is made for (RFC 5531, appendix A, `authsys_parms`).
#[derive(Drop, Debug)]
pub struct Cred {
    pub uid: u32,
    pub gid: u32,
    pub gids: Gids,
}

impl Cred {
    /// The same credential.
    pub fn copy(&self) -> Cred
        ensures { result ≡ self.now }
    {
        Cred {
            uid: self.uid,
            gid: self.gid,
            gids: self.gids.copy(),
        }
    }
}
