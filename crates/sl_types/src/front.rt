//! Numbers at the front of some bytes.
ghost use Rattle.std.specs.Prelude.{◌≡◌};
ghost use Rattle.sl_defs.specs.Items.{u32_at, u64_at};
ghost use Rattle.sl_types.specs.Handles.{Finds};

/// The number of four bytes at the front, the highest first, and what follows.
#[tactic(auto, unfolding(sl_defs::specs::Items::u32_at))]
pub fn take_u32(bytes: &[u8]) -> Option<(u32, &[u8])>
    ensures { Finds (λ x. (x.0, x.1.now)) result (u32_at bytes.now) }
{
    if bytes.len() < 4 {
        return None;
    }
    let (front, rest) = bytes.split_at(4);
    let number = u32::from_be_bytes([front[0], front[1], front[2], front[3]]);
    Some((number, rest))
}

/// The number of eight bytes at the front, the highest first, and what follows.
#[tactic(auto, unfolding(sl_defs::specs::Items::u64_at))]
pub fn take_u64(bytes: &[u8]) -> Option<(u64, &[u8])>
    ensures { Finds (λ x. (x.0, x.1.now)) result (u64_at bytes.now) }
{
    if bytes.len() < 8 {
        return None;
    }
    let (front, rest) = bytes.split_at(8);
    let number = u64::from_be_bytes([
        front[0], front[1], front[2], front[3], front[4], front[5], front[6], front[7],
    ]);
    Some((number, rest))
}
