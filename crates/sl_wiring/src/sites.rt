//! Whether new objects are of the right sites.
ghost use Rattle.std.specs.Prelude.{◌≡◌, ◌↔◌, None, Some, true, All, IfNone, IfSome};
ghost use Rattle.std.specs.FinMap as map;
ghost use Rattle.sl_defs.specs.declared.setup.Setup.{Setup};
ghost use Rattle.sl_policy.specs.Sites.{object_site};
ghost use Rattle.sl_model.specs.Volume.{is_dir};
ghost use Rattle.sl_model.specs.declared.node.Node.{Node};
ghost use Rattle.sl_plain.specs.declared.names.Place.{Place};
ghost use Rattle.sl_history.specs.Deciding.{Says};
ghost use Rattle.sl_history.specs.Wired.{IsOfSite};

use crate::places::{object_site, site_of};
use sl_defs::{NoMemory, Policy};
use sl_model::Node;
use sl_plain::{Place, Volume};
use sl_types::Kind;
use std::alloc::Global;

fn is_dir(kind: Kind) -> bool
    ensures { result ≡ is_dir kind }
{
    matches!(kind, Kind::Dir)
}

/// Whether the policy gives this site to a new object of any of these names.
fn are_of_site(policy: Policy, site: u64, is_dir: bool, places: &[Place]) -> bool
    ensures { (result ≡ true) ↔ All (λ (p : Place). site ≡ object_site policy p.dir p.name.items is_dir) places.now }
{
    for place in places {
        if object_site(policy, place.dir, place.name.as_slice(), is_dir) != site {
            return false;
        }
    }
    true
}

/// The node of an object that is new in the second volume.
fn new_node(before: &Volume, after: &Volume, fileid: u64) -> Option<Node>
    ensures none { IfNone result ((n : Node) → map.get before.now.nodes fileid ≡ None → map.get after.now.nodes fileid ≡ Some n → ⊥) }
    ensures some { IfSome result (λ n. (map.get before.now.nodes fileid ≡ None) × (map.get after.now.nodes fileid ≡ Some n)) }
{
    match before.node(fileid) {
        Some(_) => None,
        None => after.node(fileid),
    }
}

/// Whether a new object's fileid is of the site that the policy gives its directory, name and kind.
pub fn is_of_site(
    alloc: Global,
    policy: Policy,
    before: &Volume,
    after: &Volume,
    fileid: u64,
) -> Result<bool, NoMemory>
    ensures { (setup : Setup) → setup.policy ≡ policy → Says result (IsOfSite setup before.now after.now fileid) }
{
    let Some(node) = new_node(before, after, fileid) else {
        return Ok(true);
    };
    let places = after.places_of(alloc, fileid)?;
    Ok(are_of_site(
        policy,
        site_of(fileid),
        is_dir(node.kind),
        places.as_slice(),
    ))
}
