ghost use Rattle.std.specs.Prelude.{◌≡◌, ◌^◌, ◌<◌, IfSome, IfNone};
ghost use Rattle.sl_types.specs.declared.handle.Handle.{Handle};
ghost use Rattle.sl_types.specs.declared.handle.InternalHandle.{InternalHandle};
ghost use Rattle.sl_types.specs.Handles.{form_text, form_at, handle_text, handle_of, FitsHandle, internal_text, internal_of, FitsInternal, HandlesAreReadAgain, InternalHandlesAreReadAgain};

use crate::front::{take_u32, take_u64};
use crate::kind::Kind;

/// What a file handle of this server says: an object of a volume, by its fileid, and its kind.
#[derive(Clone, Copy, Debug, PartialEq, Eq)]
pub struct Handle {
    pub volume: u64,
    pub fileid: u64,
    pub kind: Kind,
}

impl Handle {
    /// The client's handle that these bytes spell.
    pub fn read(bytes: &[u8]) -> Option<Handle>
        ensures exact { result ≡ handle_of bytes.now }
        ensures found { IfSome result (λ h. bytes.now ≡ handle_text h) }
        ensures none { IfNone result ((h : Handle) → FitsHandle h → bytes.now ≡ handle_text h → ⊥) }
    {
        read_client(bytes)
    }

    /// The bytes of the handle as clients have it.
    pub fn bytes(&self) -> [u8; 32]
        ensures { result ≡ handle_text self.now }
    {
        form_bytes(self, 0)
    }
}

/// A handle as the servers pass it among themselves: with the logical directory site, and the number of the actor
/// that the packet goes to.
#[derive(Clone, Copy, Debug, PartialEq, Eq)]
pub struct InternalHandle {
    pub handle: Handle,
    pub site: u16,
    pub actor: u16,
}

impl InternalHandle {
    /// The handle among the servers that these bytes spell.
    pub fn read(bytes: &[u8]) -> Option<InternalHandle>
        ensures exact { result ≡ internal_of bytes.now }
        ensures found { IfSome result (λ i. bytes.now ≡ internal_text i) }
        ensures none { IfNone result ((i : InternalHandle) → FitsInternal i → bytes.now ≡ internal_text i → ⊥) }
    {
        read_internal(bytes)
    }

    /// The bytes of the handle as the servers have it.
    pub fn bytes(&self) -> [u8; 32]
        ensures { result ≡ internal_text self.now }
    {
        form_bytes(
            &self.handle,
            u32::from(self.site) * 65536 + u32::from(self.actor),
        )
    }
}

/// `SLH1`.
const MAGIC: u32 = 0x534c_4831;

/// A handle of any of the two forms, with its last number.
#[tactic(auto, unfolding(crate::specs::Handles::form_at, crate::specs::Handles::magic_at, sl_defs::specs::Rpc::zero_at))]
fn read_form(bytes: &[u8]) -> Option<(Handle, u32)>
    ensures { result ≡ form_at bytes.now }
{
    let (magic, rest) = take_u32(bytes)?;
    if magic != MAGIC {
        return None;
    }
    let (zero, rest) = take_u32(rest)?;
    if zero != 0 {
        return None;
    }
    let (volume, rest) = take_u64(rest)?;
    let (fileid, rest) = take_u64(rest)?;
    let (number, rest) = take_u32(rest)?;
    let kind = Kind::from_number(number)?;
    let (last, rest) = take_u32(rest)?;
    if !rest.is_empty() {
        return None;
    }
    Some((
        Handle {
            volume,
            fileid,
            kind,
        },
        last,
    ))
}

/// A client's handle.
#[tactic(auto, unfolding(crate::specs::Handles::handle_of))]
fn read_client(bytes: &[u8]) -> Option<Handle>
    ensures { result ≡ handle_of bytes.now }
{
    match read_form(bytes)? {
        (handle, 0) => Some(handle),
        _ => None,
    }
}

/// A handle among the servers.
#[tactic(auto, unfolding(crate::specs::Handles::internal_of))]
fn read_internal(bytes: &[u8]) -> Option<InternalHandle>
    ensures { result ≡ internal_of bytes.now }
{
    let (handle, last) = read_form(bytes)?;
    Some(InternalHandle {
        handle,
        site: (last / 65536) as u16,
        actor: (last % 65536) as u16,
    })
}

/// The bytes of a handle with this last number.
#[tactic(auto, unfolding(crate::specs::Handles::form_text, sl_defs::specs::Items::u32_text, sl_defs::specs::Items::u64_text))]
fn form_bytes(handle: &Handle, last: u32) -> [u8; 32]
    ensures { result ≡ form_text handle.now last }
{
    let v = handle.volume.to_be_bytes();
    let f = handle.fileid.to_be_bytes();
    let k = handle.kind.number().to_be_bytes();
    let l = last.to_be_bytes();
    [
        b'S', b'L', b'H', b'1', 0, 0, 0, 0, v[0], v[1], v[2], v[3], v[4], v[5], v[6], v[7], f[0],
        f[1], f[2], f[3], f[4], f[5], f[6], f[7], k[0], k[1], k[2], k[3], l[0], l[1], l[2], l[3],
    ]
}

/// What is printed of a handle is read again.
pub fn handles_are_read_again()
    ensures { HandlesAreReadAgain }
{}

/// What is printed of a handle among the servers is read again.
pub fn internal_handles_are_read_again()
    ensures { InternalHandlesAreReadAgain }
{}
