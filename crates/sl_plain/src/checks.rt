//! The checks that look nothing up.
ghost use Rattle.std.specs.Prelude.{◌≡◌, ◌==◌, ◌||◌};
ghost use Rattle.std.specs.List.{list_any};
ghost use Rattle.sl_model.specs.Checks as checks;
ghost use Rattle.sl_model.specs.Changing as changing;
ghost use Rattle.sl_model.specs.Volume as volume;
ghost use Rattle.sl_plain.specs.Steps as steps;

use sl_types::{CreateHow, Kind, Sattr, SetTime, Status};

/// Fails where the test is true.
#[tactic(auto, unfolding(crate::specs::Steps::refused))]
pub(crate) fn refuse(test: bool, status: Status) -> Result<(), Status>
    ensures { steps.refused test status ≡ result }
{
    if test { Err(status) } else { Ok(()) }
}

/// Whether the name is `.`.
pub(crate) fn is_dot(name: &[u8]) -> bool
    ensures { result ≡ checks.is_dot name.now }
{
    name == b".".as_slice()
}

/// Whether the name is `..`.
pub(crate) fn is_dot_dot(name: &[u8]) -> bool
    ensures { result ≡ checks.is_dot_dot name.now }
{
    name == b"..".as_slice()
}

/// Whether the name is `.` or `..`.
pub(crate) fn is_dots(name: &[u8]) -> bool
    ensures { result ≡ checks.is_dots name.now }
{
    is_dot(name) || is_dot_dot(name)
}

fn has_bad_byte(name: &[u8]) -> bool
    ensures { result ≡ list_any (λ b. b == 47 || b == 0) name.now }
{
    name.iter().any(|b| *b == 47 || *b == 0)
}

fn is_bad(name: &[u8]) -> bool
    ensures { result ≡ checks.is_bad name.now }
{
    name.len() == 0 || has_bad_byte(name)
}

/// The checks of a name.
#[tactic(auto, unfolding(crate::specs::Steps::checked_name))]
pub(crate) fn checked(name: &[u8]) -> Result<(), Status>
    ensures { steps.checked_name name.now ≡ result }
{
    refuse(name.len() > 255, Status::NameTooLong)?;
    refuse(is_bad(name), Status::Acces)
}

/// The checks of two names.
#[tactic(auto, unfolding(crate::specs::Steps::checked_names))]
pub(crate) fn checked_both(a: &[u8], b: &[u8]) -> Result<(), Status>
    ensures { steps.checked_names a.now b.now ≡ result }
{
    refuse(a.len() > 255 || b.len() > 255, Status::NameTooLong)?;
    refuse(is_bad(a) || is_bad(b), Status::Acces)
}

fn is_bad_time(set: SetTime) -> bool
    ensures { result ≡ checks.is_bad_time set }
{
    match set {
        SetTime::Client(t) => t.nsec > 999999999,
        SetTime::Keep => false,
        SetTime::Server => false,
    }
}

/// Whether a time that is given has nanoseconds past the second.
pub(crate) fn has_bad_time(s: Sattr) -> bool
    ensures { result ≡ checks.has_bad_time s }
{
    is_bad_time(s.atime) || is_bad_time(s.mtime)
}

/// Whether it is the kind of directories.
pub(crate) fn is_dir(kind: Kind) -> bool
    ensures { result ≡ volume.is_dir kind }
{
    match kind {
        Kind::Dir => true,
        _ => false,
    }
}

/// Whether it is the kind of regular files.
pub(crate) fn is_reg(kind: Kind) -> bool
    ensures { result ≡ volume.is_reg kind }
{
    match kind {
        Kind::Reg => true,
        _ => false,
    }
}

/// Whether it is the kind of symbolic links.
pub(crate) fn is_lnk(kind: Kind) -> bool
    ensures { result ≡ volume.is_lnk kind }
{
    match kind {
        Kind::Lnk => true,
        _ => false,
    }
}

/// Whether a size is given that is above the largest.
pub(crate) fn is_too_big(size: Option<u64>) -> bool
    ensures { result ≡ changing.is_too_big size }
{
    match size {
        Some(n) => n > 1 << 40,
        None => false,
    }
}

/// The attributes that a CREATE gives.
pub(crate) fn given(how: CreateHow) -> Sattr
    ensures { result ≡ changing.given how }
{
    match how {
        CreateHow::Unchecked(s) => s,
        CreateHow::Guarded(s) => s,
        CreateHow::Exclusive(_) => Sattr {
            mode: None,
            uid: None,
            gid: None,
            size: None,
            atime: SetTime::Keep,
            mtime: SetTime::Keep,
        },
    }
}

/// Whether a CREATE is GUARDED.
pub(crate) fn is_guarded(how: CreateHow) -> bool
    ensures { result ≡ changing.is_guarded how }
{
    match how {
        CreateHow::Guarded(_) => true,
        CreateHow::Unchecked(_) => false,
        CreateHow::Exclusive(_) => false,
    }
}
