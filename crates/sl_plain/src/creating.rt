//! What CREATE, SYMLINK and MKNOD find.
ghost use Rattle.std.specs.Prelude.{◌≡◌, length};
ghost use Rattle.std.specs.Option.{option_map};
ghost use Rattle.sl_model.specs.Plan.{run};
ghost use Rattle.sl_model.specs.Volume.{sight};
ghost use Rattle.sl_model.specs.Changing as changing;
ghost use Rattle.sl_plain.specs.Steps.{ended};
ghost use Rattle.sl_plain.specs.Found as found;

use crate::after::same_create;
use crate::checks::{
    checked, given, has_bad_time, is_dots, is_guarded, is_reg, is_too_big, refuse,
};
use crate::names::Place;
use crate::special::{Special, has_bad_special_time, special_of};
use crate::volume::Volume;
use crate::walks::{absent, directory, find, see};
use sl_defs::{Choice, Time};
use sl_model::{Entry, Node};
use sl_types::{CreateHow, Cred, Handle, NodeData, Sattr, Status};

/// What a CREATE finds: the file of the name, or the directory that it is made in.
#[derive(Clone, Copy, Debug, PartialEq, Eq)]
pub(crate) enum Creation {
    Present(Node),
    Absent(Node),
}

fn create_present(volume: &Volume, e: Entry, how: CreateHow, _now: Time) -> Result<Node, Status>
    ensures { run (sight volume.now) (changing.create_present e how _now) ≡ ended (λ n. changing.recreating n how _now) result }
{
    refuse(is_guarded(how) || !is_reg(e.kind), Status::Exist)?;
    let n = see(volume, e.fileid)?;
    refuse(!same_create(how, n), Status::Exist)?;
    Ok(n)
}

#[tactic(auto, unfolding(sl_model::specs::Changing::create_at))]
fn create_at(
    volume: &Volume,
    _cred: &Cred,
    d: Node,
    _place: &Place,
    how: CreateHow,
    now: Time,
    choice: Choice,
    there: Option<Entry>,
) -> Result<Creation, Status>
    ensures { run (sight volume.now) (changing.create_at d _place.now.name.items how _cred.now now choice there) ≡ ended (found.created _place.now.name.items how _cred.now now choice.fileid) result }
{
    match there {
        Some(e) => {
            let n = create_present(volume, e, how, now)?;
            Ok(Creation::Present(n))
        }
        None => {
            refuse(choice.fileid == 0, Status::NoSpc)?;
            Ok(Creation::Absent(d))
        }
    }
}

/// The file of a name, or the directory that it is made in.
pub(crate) fn create(
    volume: &Volume,
    cred: &Cred,
    to: Handle,
    place: &Place,
    how: CreateHow,
    now: Time,
    choice: Choice,
) -> Result<Creation, Status>
    requires { place.now.dir ≡ to.fileid }
    ensures { run (sight volume.now) (changing.create cred.now to place.now.name.items how now choice) ≡ ended (found.created place.now.name.items how cred.now now choice.fileid) result }
{
    checked(place.name.as_slice())?;
    refuse(has_bad_time(given(how)), Status::Inval)?;
    let d = directory(volume, cred, to)?;
    refuse(is_too_big(given(how).size), Status::FBig)?;
    refuse(is_dots(place.name.as_slice()), Status::Exist)?;
    let there = find(volume, to.fileid, place);
    create_at(volume, cred, d, place, how, now, choice, there)
}

/// The directory that a symbolic link is made in.
pub(crate) fn symlink(
    volume: &Volume,
    cred: &Cred,
    to: Handle,
    place: &Place,
    s: Sattr,
    path: &[u8],
    _now: Time,
    choice: Choice,
) -> Result<Node, Status>
    requires { place.now.dir ≡ to.fileid }
    ensures { run (sight volume.now) (changing.symlink cred.now to place.now.name.items s path.now _now choice) ≡ ended (λ d. changing.making_link d place.now.name.items s cred.now path.now _now choice.fileid) result }
{
    checked(place.name.as_slice())?;
    refuse(path.len() > 1024, Status::NameTooLong)?;
    refuse(has_bad_time(s), Status::Inval)?;
    let d = directory(volume, cred, to)?;
    absent(volume, to, place)?;
    refuse(choice.fileid == 0, Status::NoSpc)?;
    Ok(d)
}

/// What is asked for, if it is made by MKNOD.
#[tactic(auto, unfolding(sl_model::specs::Plan::run))]
fn special_or(_volume: &Volume, special: Option<Special>) -> Result<Special, Status>
    ensures { run (sight _volume.now) (changing.special_or (option_map found.special special)) ≡ ended found.special result }
{
    match special {
        Some(s) => Ok(s),
        None => Err(Status::BadType),
    }
}

/// The directory that a special object is made in, and that object.
pub(crate) fn mknod(
    volume: &Volume,
    cred: &Cred,
    to: Handle,
    place: &Place,
    what: NodeData,
    _now: Time,
    choice: Choice,
) -> Result<(Node, Special), Status>
    requires { place.now.dir ≡ to.fileid }
    ensures { run (sight volume.now) (changing.mknod cred.now to place.now.name.items what _now choice) ≡ ended (λ p. changing.making_special p.0 place.now.name.items (found.special p.1) cred.now _now choice.fileid) result }
{
    let special = special_of(what);
    checked(place.name.as_slice())?;
    refuse(has_bad_special_time(special), Status::Inval)?;
    let d = directory(volume, cred, to)?;
    let s = special_or(volume, special)?;
    absent(volume, to, place)?;
    refuse(choice.fileid == 0, Status::NoSpc)?;
    Ok((d, s))
}
