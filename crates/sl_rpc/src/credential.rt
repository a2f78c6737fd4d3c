ghost use Rattle.std.specs.Prelude.{◌≡◌, ◌≤◌, length};
ghost use Rattle.sl_defs.specs.Items.{Gives};
ghost use Rattle.sl_defs.specs.Rpc.{u32s_at, counted_at, auth_sys_at};
ghost use Rattle.sl_rpc.specs.Heads.{named_by, nobody, CredentialsAreReadExactly};

use sl_types::{Cred, Gids};
use sl_xdr::{Cursor, Short};

/// The user that AUTH_NONE stands for.
const NOBODY: u32 = 65534;

/// AUTH_NONE names no user.
pub fn no_user() -> Cred
    ensures { result ≡ nobody }
{
    Cred {
        uid: NOBODY,
        gid: NOBODY,
        gids: Gids::new(),
    }
}

/// So many groups.
fn take_gids(cursor: &mut Cursor<'_>, count: u32) -> Result<Gids, Short>
    requires { count ≤ 16 }
    ensures { Gives (λ gids. (gids, cursor.new.rest)) result (u32s_at count cursor.old.rest) }
{
    let mut gids = Gids::new();
    for i in 0..count {
        gids.push(cursor.take_u32()?);
    }
    Ok(gids)
}

/// A count of at most 16, and so many groups.
#[tactic(auto, unfolding(sl_defs::specs::Rpc::counted_at))]
fn take_counted_gids(cursor: &mut Cursor<'_>) -> Result<Gids, Short>
    ensures { Gives (λ gids. (gids, cursor.new.rest)) result (counted_at 16 cursor.old.rest) }
{
    let count = cursor.take_u32()?;
    if count > 16 {
        return Err(Short);
    }
    let gids = take_gids(cursor, count)?;
    Ok(gids)
}

/// Whom the body of an AUTH_SYS credential names. The body may go on behind it.
#[tactic(auto, unfolding(sl_defs::specs::Rpc::auth_sys_at))]
pub fn read_auth_sys(body: &[u8]) -> Result<Cred, Short>
    ensures { Gives (λ cred. cred) result (named_by (auth_sys_at body.now)) }
{
    let mut cursor = Cursor::new(body);
    cursor.take_u32()?;
    cursor.opaque(255)?;
    let uid = cursor.take_u32()?;
    let gid = cursor.take_u32()?;
    let gids = take_counted_gids(&mut cursor)?;
    Ok(Cred { uid, gid, gids })
}

/// The body of a credential is read as AUTH_SYS exactly where one stands at its front.
pub fn credentials_are_read_exactly()
    ensures { CredentialsAreReadExactly }
{}
