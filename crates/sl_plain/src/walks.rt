//! What each procedure finds, or the status that it ends with.
ghost use Rattle.std.specs.Prelude.{◌≡◌, ◌==◌, [], ◌∷◌, Ok, Some, None, not, is_some, bit_and, take, if◌then◌else◌, length};
ghost use Rattle.sl_types.specs.declared.reply.Reply.TheVariants as reply;
ghost use Rattle.sl_model.specs.Plan.{run};
ghost use Rattle.sl_model.specs.Volume.{sight};
ghost use Rattle.sl_model.specs.Checks as checks;
ghost use Rattle.sl_model.specs.Looking as looking;
ghost use Rattle.sl_model.specs.Changing as changing;
ghost use Rattle.sl_plain.specs.Steps.{ended};
ghost use Rattle.sl_plain.specs.Found as found;

use crate::after::same_time;
use crate::checks::{
    checked, has_bad_time, is_dir, is_dot, is_dot_dot, is_dots, is_lnk, is_reg, is_too_big, refuse,
};
use crate::names::Place;
use crate::volume::Volume;
use sl_defs::{Choice, Time};
use sl_model::{Entry, Node};
use sl_types::{Cred, Handle, Sattr, Status};

// Whether the caller may do what it asks for.
fn is_granted(_cred: &Cred, _node: &Node) -> bool
    ensures { result ≡ checks.is_granted _cred.now _node.now }
{
    true
}

fn is_of(h: Handle, n: Node) -> bool
    ensures { result ≡ checks.is_of h n }
{
    n.fsid == h.volume && n.kind.number() == h.kind.number()
}

/// The live object of a handle.
#[tactic(auto, unfolding(sl_model::specs::Plan::run))]
pub(crate) fn live(volume: &Volume, h: Handle) -> Result<Node, Status>
    ensures { run (sight volume.now) (checks.live h) ≡ result }
{
    match volume.node(h.fileid) {
        Some(n) => {
            if is_of(h, n) {
                Ok(n)
            } else {
                Err(Status::Stale)
            }
        }
        None => Err(Status::Stale),
    }
}

/// An object with its unstable writes.
#[tactic(auto, unfolding(sl_model::specs::Plan::run))]
pub(crate) fn see(volume: &Volume, fileid: u64) -> Result<Node, Status>
    ensures { run (sight volume.now) (checks.see fileid) ≡ result }
{
    match volume.seen(fileid) {
        Some(n) => Ok(n),
        None => Err(Status::Stale),
    }
}

/// What a name leads to that has to be there.
#[tactic(auto, unfolding(sl_model::specs::Plan::run))]
pub(crate) fn entry(volume: &Volume, dir: u64, place: &Place) -> Result<Entry, Status>
    requires { place.now.dir ≡ dir }
    ensures { run (sight volume.now) (checks.entry dir place.now.name.items) ≡ result }
{
    match volume.entry_at(place) {
        Some(e) => Ok(e),
        None => Err(Status::NoEnt),
    }
}

/// The object of a handle, if the caller may use it.
#[tactic(auto, unfolding(crate::specs::Steps::refused))]
pub(crate) fn object(volume: &Volume, cred: &Cred, h: Handle) -> Result<Node, Status>
    ensures { run (sight volume.now) (checks.object cred.now h) ≡ result }
{
    let n = live(volume, h)?;
    refuse(!is_granted(cred, &n), Status::Acces)?;
    Ok(n)
}

/// The directory of a handle, if the caller may use it.
#[tactic(auto, unfolding(crate::specs::Steps::refused))]
pub(crate) fn directory(volume: &Volume, cred: &Cred, h: Handle) -> Result<Node, Status>
    ensures { run (sight volume.now) (checks.directory cred.now h) ≡ result }
{
    let d = live(volume, h)?;
    refuse(!is_dir(h.kind), Status::NotDir)?;
    refuse(!is_granted(cred, &d), Status::Acces)?;
    Ok(d)
}

/// The object whose attributes are asked for.
pub(crate) fn getattr(volume: &Volume, cred: &Cred, h: Handle) -> Result<Node, Status>
    ensures { run (sight volume.now) (looking.getattr cred.now h) ≡ ended (λ n. looking.answering (reply.Getattr (Ok (looking.attributes n)))) result }
{
    object(volume, cred, h)?;
    see(volume, h.fileid)
}

/// What a LOOKUP finds: a directory by its own name, its parent, or the object of a name.
#[derive(Clone, Copy, Debug, PartialEq, Eq)]
pub(crate) enum Looked {
    Object(Node),
    Parent(Node),
}

fn lookup_name(volume: &Volume, h: Handle, place: &Place) -> Result<Looked, Status>
    requires { place.now.dir ≡ h.fileid }
    ensures { run (sight volume.now) (looking.lookup_name h place.now.name.items) ≡ ended found.looked result }
{
    let e = entry(volume, h.fileid, place)?;
    let n = see(volume, e.fileid)?;
    Ok(Looked::Object(n))
}

#[tactic(auto, unfolding(sl_model::specs::Plan::run, sl_model::specs::Looking::lookup_in))]
fn lookup_in(volume: &Volume, h: Handle, d: Node, place: &Place) -> Result<Looked, Status>
    requires { place.now.dir ≡ h.fileid }
    ensures { run (sight volume.now) (looking.lookup_in h d place.now.name.items) ≡ ended found.looked result }
{
    if is_dot(place.name.as_slice()) {
        Ok(Looked::Object(d))
    } else if is_dot_dot(place.name.as_slice()) {
        Ok(Looked::Parent(d))
    } else {
        lookup_name(volume, h, place)
    }
}

/// What a LOOKUP finds.
pub(crate) fn lookup(
    volume: &Volume,
    cred: &Cred,
    h: Handle,
    place: &Place,
) -> Result<Looked, Status>
    requires { place.now.dir ≡ h.fileid }
    ensures { run (sight volume.now) (looking.lookup cred.now h place.now.name.items) ≡ ended found.looked result }
{
    checked(place.name.as_slice())?;
    let d = directory(volume, cred, h)?;
    lookup_in(volume, h, d, place)
}

/// The object whose rights are asked for.
pub(crate) fn access(volume: &Volume, cred: &Cred, h: Handle, bits: u32) -> Result<Node, Status>
    ensures { run (sight volume.now) (looking.access cred.now h bits) ≡ ended (λ n. looking.answering (reply.Access (Ok (record { attributes = Some (looking.attributes n); bits = bit_and bits 63 })))) result }
{
    object(volume, cred, h)?;
    see(volume, h.fileid)
}

/// The symbolic link that is read.
pub(crate) fn readlink(volume: &Volume, cred: &Cred, h: Handle) -> Result<Node, Status>
    ensures { run (sight volume.now) (looking.readlink cred.now h) ≡ ended (λ n. looking.answering (reply.Readlink (Ok (record { attributes = Some (looking.attributes n); path = (sight volume.now).text h.fileid })))) result }
{
    let n = object(volume, cred, h)?;
    refuse(!is_lnk(h.kind), Status::Inval)?;
    Ok(n)
}

/// The file that is read.
pub(crate) fn read(
    volume: &Volume,
    cred: &Cred,
    h: Handle,
    offset: u64,
    count: u32,
) -> Result<Node, Status>
    ensures { run (sight volume.now) (looking.read cred.now h offset count) ≡ ended (λ n. looking.reading n offset count ((sight volume.now).bytes h.fileid offset (looking.readable n offset count))) result }
{
    object(volume, cred, h)?;
    refuse(!is_reg(h.kind), Status::Inval)?;
    see(volume, h.fileid)
}

/// The file that is flushed.
pub(crate) fn commit(volume: &Volume, cred: &Cred, h: Handle) -> Result<Node, Status>
    ensures { run (sight volume.now) (looking.commit cred.now h) ≡ ended (λ n. looking.committing n volume.now.verifier) result }
{
    object(volume, cred, h)?;
    refuse(!is_reg(h.kind), Status::Inval)?;
    see(volume, h.fileid)
}

#[tactic(auto, unfolding(sl_model::specs::Changing::guarded, sl_model::specs::Plan::run))]
fn guarded(volume: &Volume, fileid: u64, guard: Option<Time>) -> Result<(), Status>
    ensures { run (sight volume.now) (changing.guarded fileid guard) ≡ result }
{
    let Some(ctime) = guard else {
        return Ok(());
    };
    guarded_by(volume, fileid, ctime)
}

fn guarded_by(volume: &Volume, f: u64, t: Time) -> Result<(), Status>
    ensures { run (sight volume.now) (changing.guarded_by f t) ≡ result }
{
    let n = see(volume, f)?;
    refuse(!same_time(n.ctime, t), Status::NotSync)
}

/// The object whose attributes are set, as it was before.
pub(crate) fn setattr(
    volume: &Volume,
    cred: &Cred,
    h: Handle,
    s: Sattr,
    guard: Option<Time>,
    _now: Time,
) -> Result<Node, Status>
    ensures { run (sight volume.now) (changing.setattr cred.now h s guard _now) ≡ ended (λ n. changing.setting n s _now) result }
{
    refuse(has_bad_time(s), Status::Inval)?;
    object(volume, cred, h)?;
    guarded(volume, h.fileid, guard)?;
    refuse(s.size.is_some() && !is_reg(h.kind), Status::Inval)?;
    refuse(is_too_big(s.size), Status::FBig)?;
    see(volume, h.fileid)
}

/// That nothing is there yet under a name.
#[tactic(auto, unfolding(sl_model::specs::Changing::absent))]
pub(crate) fn absent(volume: &Volume, h: Handle, place: &Place) -> Result<(), Status>
    requires { place.now.dir ≡ h.fileid }
    ensures { run (sight volume.now) (changing.absent h place.now.name.items) ≡ result }
{
    refuse(is_dots(place.name.as_slice()), Status::Exist)?;
    refuse(find(volume, h.fileid, place).is_some(), Status::Exist)
}

/// What a name leads to, if it is there.
pub(crate) fn find(volume: &Volume, dir: u64, place: &Place) -> Option<Entry>
    requires { place.now.dir ≡ dir }
    ensures { result ≡ (sight volume.now).find dir place.now.name.items }
{
    volume.entry_at(place)
}

/// The directory that a new directory is made in.
pub(crate) fn mkdir(
    volume: &Volume,
    cred: &Cred,
    to: Handle,
    place: &Place,
    s: Sattr,
    _now: Time,
    choice: Choice,
) -> Result<Node, Status>
    requires { place.now.dir ≡ to.fileid }
    ensures { run (sight volume.now) (changing.mkdir cred.now to place.now.name.items s _now choice) ≡ ended (λ d. changing.making_directory d place.now.name.items s cred.now _now choice.fileid) result }
{
    checked(place.name.as_slice())?;
    refuse(has_bad_time(s), Status::Inval)?;
    let d = directory(volume, cred, to)?;
    absent(volume, to, place)?;
    refuse(d.nlink >= 65000, Status::MLink)?;
    refuse(choice.fileid == 0, Status::NoSpc)?;
    Ok(d)
}

/// The directory that loses a name, and the object of that name.
pub(crate) fn remove(
    volume: &Volume,
    cred: &Cred,
    h: Handle,
    place: &Place,
    _now: Time,
) -> Result<(Node, Node), Status>
    requires { place.now.dir ≡ h.fileid }
    ensures { run (sight volume.now) (changing.remove cred.now h place.now.name.items _now) ≡ ended (λ p. changing.removal p.0 place.now.name.items p.1 _now) result }
{
    checked(place.name.as_slice())?;
    let d = directory(volume, cred, h)?;
    refuse(is_dots(place.name.as_slice()), Status::Inval)?;
    let e = entry(volume, h.fileid, place)?;
    refuse(is_dir(e.kind), Status::IsDir)?;
    let n = see(volume, e.fileid)?;
    Ok((d, n))
}

/// The directory that loses a name, and the directory of that name.
pub(crate) fn rmdir(
    volume: &Volume,
    cred: &Cred,
    h: Handle,
    place: &Place,
    _now: Time,
) -> Result<(Node, Node), Status>
    requires { place.now.dir ≡ h.fileid }
    ensures { run (sight volume.now) (changing.rmdir cred.now h place.now.name.items _now) ≡ ended (λ p. changing.directory_removal p.0 place.now.name.items p.1 _now) result }
{
    checked(place.name.as_slice())?;
    let d = directory(volume, cred, h)?;
    refuse(is_dot(place.name.as_slice()), Status::Inval)?;
    refuse(is_dot_dot(place.name.as_slice()), Status::Exist)?;
    let e = entry(volume, h.fileid, place)?;
    refuse(!is_dir(e.kind), Status::NotDir)?;
    let n = see(volume, e.fileid)?;
    refuse(n.entries != 0, Status::NotEmpty)?;
    Ok((d, n))
}

/// The directory that gets a name, and the object that it is to lead to.
pub(crate) fn link(
    volume: &Volume,
    cred: &Cred,
    h: Handle,
    to: Handle,
    place: &Place,
    _now: Time,
) -> Result<(Node, Node), Status>
    requires { place.now.dir ≡ to.fileid }
    ensures { run (sight volume.now) (changing.link cred.now h to place.now.name.items _now) ≡ ended (λ p. changing.linking p.0 place.now.name.items p.1 _now) result }
{
    checked(place.name.as_slice())?;
    let o = live(volume, h)?;
    let d = live(volume, to)?;
    refuse(!is_dir(to.kind), Status::NotDir)?;
    refuse(is_dir(h.kind), Status::Inval)?;
    absent(volume, to, place)?;
    refuse(o.nlink >= 65000, Status::MLink)?;
    let n = see(volume, h.fileid)?;
    Ok((d, n))
}
