ghost use Rattle.std.specs.Prelude.{◌≡◌, length};
ghost use Rattle.sl_journal.specs.Format.{head_text};

use sl_defs::{Policy, Setup};

/// The head of an actor's journal in a volume.
#[tactic(auto, unfolding(sl_defs::specs::Items::u64_text))]
pub(crate) fn head(actor: u8, setup: &Setup) -> [u8; 20]
    ensures { result ≡ head_text actor setup.now }
{
    let (policy, p) = match setup.policy {
        Policy::Switch(p) => (0, p),
        Policy::Hash => (1, 0),
    };
    let [a, b, c, d, e, f, g, h] = setup.volume.to_be_bytes();
    [
        b'S',
        b'L',
        b'J',
        b'1',
        actor,
        policy,
        p,
        setup.dirs,
        setup.small,
        setup.nodes,
        0,
        0,
        a,
        b,
        c,
        d,
        e,
        f,
        g,
        h,
    ]
}
