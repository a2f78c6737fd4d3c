//! Which actors are up.
ghost use Rattle.std.specs.Prelude.{◌≡◌, ◌==◌, ◌<◌, ℕ, false, if◌then◌else◌, slice_index_or};
ghost use Rattle.sl_history.specs.Frames.{has_actor, is_among, up_by};
ghost use Rattle.sl_past.specs.Words.{happening_of};
ghost use Rattle.sl_ledger.specs.Ups.{up_at};

use sl_defs::{Event, Setup};
use sl_past::Happening;

/// Which actors are up, by their numbers.
#[derive(Clone, Copy)]
pub(crate) struct Actors {
    up: [bool; 256],
}

/// Whether the number is one of so many from this one on.
fn is_among(first: u8, count: u8, actor: usize) -> bool
    ensures { result ≡ is_among first count actor }
{
    let first = usize::from(first);
    first <= actor && actor < first + usize::from(count)
}

/// Whether the volume has this actor: the proxy, the coordinator, or one of its servers.
fn has_actor(setup: &Setup, actor: usize) -> bool
    ensures { result ≡ has_actor setup.now actor }
{
    actor == 0
        || actor == 1
        || is_among(16, setup.dirs, actor)
        || is_among(32, setup.small, actor)
        || is_among(48, setup.nodes, actor)
}

/// A volume's actors, by their numbers.
fn actors_of(setup: &Setup) -> [bool; 256]
    ensures { (a : ℕ) → a < 256 → slice_index_or result a false ≡ has_actor setup.now a }
{
    let mut up = [false; 256];
    for actor in 0..256 {
        up[actor] = has_actor(setup, actor);
    }
    up
}

impl Actors {
    /// No one is up.
    pub(crate) fn new() -> Actors
        ensures { (a : ℕ) → up_at result a ≡ false }
    {
        Actors { up: [false; 256] }
    }

    /// Whether this actor is up.
    pub(crate) fn has(&self, actor: u8) -> bool
        ensures { result ≡ up_at self.now actor }
    {
        self.up[usize::from(actor)]
    }

    /// This actor is up from here on, or isn't.
    pub(crate) fn put(&mut self, actor: u8, is_up: bool)
        ensures { (a : ℕ) → a < 256 → up_at self.new a ≡ (if a == actor then is_up else up_at self.old a) }
    {
        self.up[usize::from(actor)] = is_up;
    }

    /// What happens may open the volume, or stop or start an actor.
    pub(crate) fn begin(&mut self, happening: &Happening)
        ensures { (a : ℕ) → a < 256 → up_at self.new a ≡ up_by (happening_of happening.now) a (up_at self.old a) }
    {
        match happening {
            Happening::Opens(setup) => self.up = actors_of(setup),
            Happening::Happens(Event::Stop { actor, .. }) => self.put(*actor, false),
            Happening::Happens(Event::Start(actor)) => self.put(*actor, true),
            Happening::Reaches(_) | Happening::Happens(_) => {}
        }
    }
}
