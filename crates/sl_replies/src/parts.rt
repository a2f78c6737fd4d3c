//! Parts of results at the place of a cursor.
ghost use Rattle.std.specs.Prelude.{◌≡◌};
ghost use Rattle.sl_defs.specs.Items.{Gives};
ghost use Rattle.sl_replies.specs.Reading.{attr_fault_at, status_at, wcc_at, wcc_attr_at, wcc_fault_at};
ghost use Rattle.sl_types.specs.declared.fault.ArgsFault.TheVariants.{Garbage};

use sl_items::{take_optional_fattr, take_time};
use sl_types::{ArgsFault, AttrFault, Status, Wcc, WccFault};
use sl_xdr::{Cursor, Short};

/// What can't be read isn't in the grammar.
pub fn garbage(_short: Short) -> ArgsFault
    ensures { result ≡ Garbage }
{
    ArgsFault::Garbage
}

/// A status.
#[tactic(auto, unfolding(crate::specs::Reading::status_at))]
pub fn take_status(cursor: &mut Cursor<'_>) -> Result<Status, Short>
    ensures exact { Gives (λ s. (s, cursor.new.rest)) result (status_at cursor.old.rest) }
{
    let number = cursor.take_u32()?;
    match Status::from_number(number) {
        Some(status) => Ok(status),
        None => Err(Short),
    }
}

/// Weak cache consistency data. What stood there before the call may be given, and isn't looked at.
#[tactic(auto, unfolding(crate::specs::Reading::wcc_at, crate::specs::Reading::wcc_attr_at, sl_defs::specs::Parts::optional_at, sl_defs::specs::Parts::part_at))]
pub fn take_wcc(cursor: &mut Cursor<'_>) -> Result<Wcc, Short>
    ensures exact { Gives (λ w. (w, cursor.new.rest)) result (wcc_at cursor.old.rest) }
{
    match cursor.take_u32()? {
        0 => {}
        1 => {
            cursor.take_u64()?;
            take_time(cursor)?;
            take_time(cursor)?;
        }
        _ => return Err(Short),
    }
    let after = take_optional_fattr(cursor)?;
    Ok(Wcc { after })
}

/// What follows the status of a failure that gives attributes.
#[tactic(auto, unfolding(crate::specs::Reading::attr_fault_at))]
pub fn take_attr_fault(status: Status, cursor: &mut Cursor<'_>) -> Result<AttrFault, Short>
    ensures exact { Gives (λ f. (f, cursor.new.rest)) result (attr_fault_at status cursor.old.rest) }
{
    let attributes = take_optional_fattr(cursor)?;
    Ok(AttrFault { status, attributes })
}

/// What follows the status of a failure that gives weak cache consistency data.
#[tactic(auto, unfolding(crate::specs::Reading::wcc_fault_at))]
pub fn take_wcc_fault(status: Status, cursor: &mut Cursor<'_>) -> Result<WccFault, Short>
    ensures exact { Gives (λ f. (f, cursor.new.rest)) result (wcc_fault_at status cursor.old.rest) }
{
    let wcc = take_wcc(cursor)?;
    Ok(WccFault { status, wcc })
}
