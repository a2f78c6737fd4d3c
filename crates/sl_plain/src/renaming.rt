//! What RENAME finds.
ghost use Rattle.std.specs.Prelude.{◌≡◌, Ok, IfOk};
ghost use Rattle.sl_model.specs.Plan.{run};
ghost use Rattle.sl_model.specs.Volume.{sight};
ghost use Rattle.sl_model.specs.Changing as changing;
ghost use Rattle.sl_plain.specs.Steps.{ended};
ghost use Rattle.sl_plain.specs.Found as found;

use crate::checks::{checked_both, is_dir, is_dots, refuse};
use crate::names::Place;
use crate::volume::Volume;
use crate::walks::{entry, find, live, see};
use sl_defs::Time;
use sl_model::{Entry, Node};
use sl_types::{Cred, Handle, Status};

/// What a RENAME finds: both names are of one object, or it moves an object.
#[derive(Clone, Copy, Debug, PartialEq, Eq)]
pub(crate) enum Renamed {
    Same,
    Moved {
        from: Node,
        to: Node,
        object: Node,
        /// The object at the new name, if there is one.
        target: Option<Node>,
    },
}

#[tactic(auto, unfolding(sl_model::specs::Changing::see_if))]
fn see_if(volume: &Volume, there: Option<Entry>) -> Result<Option<Node>, Status>
    ensures { run (sight volume.now) (changing.see_if there) ≡ result }
{
    match there {
        Some(e) => {
            let n = see(volume, e.fileid)?;
            Ok(Some(n))
        }
        None => Ok(None),
    }
}

fn is_one(e: Entry, there: Option<Entry>) -> bool
    ensures { result ≡ changing.is_one e there }
{
    match there {
        Some(t) => e.fileid == t.fileid,
        None => false,
    }
}

fn is_bad_target(n: Node, target: Option<Node>) -> bool
    ensures { result ≡ changing.is_bad_target n target }
{
    match target {
        Some(t) => is_dir(n.kind) != is_dir(t.kind) || (is_dir(t.kind) && t.entries != 0),
        None => false,
    }
}

fn is_full(n: Node, d: Node, target: Option<Node>) -> bool
    ensures { result ≡ changing.is_full n d target }
{
    match target {
        Some(_) => false,
        None => is_dir(n.kind) && d.nlink >= 65000,
    }
}

/// Whether the directory is the moved one or below it, where it may be.
#[tactic(auto, unfolding(sl_model::specs::Changing::climbs, sl_model::specs::Plan::run))]
fn climbs(volume: &Volume, may: bool, object: u64, dir: u64) -> bool
    ensures { run (sight volume.now) (changing.climbs may object dir) ≡ Ok result }
{
    if may {
        volume.is_below(object, dir)
    } else {
        false
    }
}

fn rename_to(
    volume: &Volume,
    from: Node,
    _from_place: &Place,
    to: Node,
    _to_place: &Place,
    e: Entry,
    there: Option<Entry>,
    _now: Time,
) -> Result<Renamed, Status>
    ensures { run (sight volume.now) (changing.rename_to from _from_place.now.name.items to _to_place.now.name.items e there _now) ≡ ended (found.renamed _from_place.now.name.items _to_place.now.name.items _now) result }
{
    let is_below = climbs(
        volume,
        is_dir(e.kind) && from.fileid != to.fileid,
        e.fileid,
        to.fileid,
    );
    refuse(is_below, Status::Inval)?;
    let object = see(volume, e.fileid)?;
    let target = see_if(volume, there)?;
    refuse(is_bad_target(object, target), Status::Exist)?;
    refuse(
        from.fileid != to.fileid && is_full(object, to, target),
        Status::MLink,
    )?;
    Ok(Renamed::Moved {
        from,
        to,
        object,
        target,
    })
}

#[tactic(auto, unfolding(sl_model::specs::Changing::rename_in, sl_model::specs::Plan::run))]
fn rename_in(
    volume: &Volume,
    from: Node,
    from_place: &Place,
    to: Node,
    to_place: &Place,
    e: Entry,
    there: Option<Entry>,
    now: Time,
) -> Result<Renamed, Status>
    ensures { run (sight volume.now) (changing.rename_in from from_place.now.name.items to to_place.now.name.items e there now) ≡ ended (found.renamed from_place.now.name.items to_place.now.name.items now) result }
{
    if is_one(e, there) {
        Ok(Renamed::Same)
    } else {
        rename_to(volume, from, from_place, to, to_place, e, there, now)
    }
}

/// What a RENAME finds.
pub(crate) fn rename(
    volume: &Volume,
    _cred: &Cred,
    a: Handle,
    from_place: &Place,
    b: Handle,
    to_place: &Place,
    now: Time,
) -> Result<Renamed, Status>
    requires from { from_place.now.dir ≡ a.fileid }
    requires to { to_place.now.dir ≡ b.fileid }
    ensures { run (sight volume.now) (changing.rename _cred.now a from_place.now.name.items b to_place.now.name.items now) ≡ ended (found.renamed from_place.now.name.items to_place.now.name.items now) result }
{
    checked_both(from_place.name.as_slice(), to_place.name.as_slice())?;
    let from = live(volume, a)?;
    let to = live(volume, b)?;
    refuse(!is_dir(a.kind), Status::NotDir)?;
    refuse(!is_dir(b.kind), Status::NotDir)?;
    refuse(
        is_dots(from_place.name.as_slice()) || is_dots(to_place.name.as_slice()),
        Status::Inval,
    )?;
    let e = entry(volume, a.fileid, from_place)?;
    let there = find(volume, b.fileid, to_place);
    rename_in(volume, from, from_place, to, to_place, e, there, now)
}
