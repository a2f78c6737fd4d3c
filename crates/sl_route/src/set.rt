ghost use Rattle.std.specs.Prelude.{◌≡◌, ℕ, ◌⊎◌, ◌↔◌, ◌<◌};
ghost use Rattle.sl_route.specs.Spans.{Has};

use sl_types::ActorSet;

/// The set with one actor more.
pub fn with_actor(set: ActorSet, actor: u8) -> ActorSet
    requires { actor < 64 }
    ensures { (a : ℕ) → Has result a ↔ (Has set a ⊎ (a ≡ actor)) }
{
    ActorSet(set.0 | 1 << actor)
}
