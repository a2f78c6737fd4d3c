ghost use Rattle.std.specs.Prelude.{◌≡◌, ◌+◌, length};
ghost use Rattle.sl_defs.specs.Items.{Gives};
ghost use Rattle.sl_defs.specs.Rpc.{zero_at, auth_at, call_header_at};
ghost use Rattle.sl_rpc.specs.Heads.{view};

use sl_xdr::{Cursor, Short};

/// The fields of a call's header but its verifier, which isn't looked at.
#[derive(Clone, Copy)]
pub struct RawHeader<'a> {
    pub xid: u32,
    pub rpc_version: u32,
    pub program: u32,
    pub version: u32,
    pub procedure: u32,
    pub flavor: u32,
    pub credential: &'a [u8],
}

#[tactic(auto, unfolding(sl_defs::specs::Rpc::zero_at))]
fn take_zero(cursor: &mut Cursor<'_>) -> Result<(), Short>
    ensures exact { Gives (λ _. cursor.new.rest) result (zero_at cursor.old.rest) }
    ensures moved { cursor.new.place + length cursor.new.rest ≡ cursor.old.place + length cursor.old.rest }
{
    if cursor.take_u32()? == 0 {
        Ok(())
    } else {
        Err(Short)
    }
}

/// A flavor and its body.
#[tactic(auto, unfolding(sl_defs::specs::Rpc::auth_at))]
fn take_auth<'a>(cursor: &mut Cursor<'a>) -> Result<(u32, &'a [u8]), Short>
    ensures exact { Gives (λ a. ((a.0, a.1.now), cursor.new.rest)) result (auth_at cursor.old.rest) }
    ensures moved { cursor.new.place + length cursor.new.rest ≡ cursor.old.place + length cursor.old.rest }
{
    let flavor = cursor.take_u32()?;
    let body = cursor.opaque(400)?;
    Ok((flavor, body))
}

/// The header at the cursor's place.
#[tactic(auto, unfolding(sl_defs::specs::Rpc::call_header_at))]
pub fn take_header<'a>(cursor: &mut Cursor<'a>) -> Result<RawHeader<'a>, Short>
    ensures exact { Gives (λ h. (view h, cursor.new.rest)) result (call_header_at cursor.old.rest) }
    ensures moved { cursor.new.place + length cursor.new.rest ≡ cursor.old.place + length cursor.old.rest }
{
    let xid = cursor.take_u32()?;
    take_zero(cursor)?;
    let rpc_version = cursor.take_u32()?;
    let program = cursor.take_u32()?;
    let version = cursor.take_u32()?;
    let procedure = cursor.take_u32()?;
    let (flavor, credential) = take_auth(cursor)?;
    take_auth(cursor)?;
    Ok(RawHeader {
        xid,
        rpc_version,
        program,
        version,
        procedure,
        flavor,
        credential,
    })
}
