//! Parts of results at the end of some bytes.
ghost use Rattle.std.specs.Prelude.{◌≡◌, ◌++◌, length, take, OnOk};
ghost use Rattle.sl_replies.specs.Texts.{attr_fault_text, status_text, wcc_fault_text, wcc_text};

use sl_items::put_optional_fattr;
use sl_types::{AttrFault, Status, Wcc, WccFault};
use sl_xdr::{NoMemory, put_flag, put_u32};

/// Appends a status.
#[tactic(auto, using(sl_items::proofs::Appended::appended))]
pub fn put_status(out: &mut Vec<u8>, status: Status) -> Result<(), NoMemory>
    ensures ok { OnOk result (out.new.items ≡ out.old.items ++ status_text status) }
    ensures kept { take (length out.old.items) out.new.items ≡ out.old.items }
{
    put_u32(out, status.number())?;
    Ok(())
}

/// Appends weak cache consistency data, with nothing from before the call.
#[tactic(auto, using(sl_items::proofs::Appended::appended), unfolding(crate::specs::Texts::wcc_text))]
pub fn put_wcc(out: &mut Vec<u8>, wcc: Wcc) -> Result<(), NoMemory>
    ensures ok { OnOk result (out.new.items ≡ out.old.items ++ wcc_text wcc) }
    ensures kept { take (length out.old.items) out.new.items ≡ out.old.items }
{
    put_flag(out, false)?;
    put_optional_fattr(out, wcc.after)?;
    Ok(())
}

/// Appends a failure that gives attributes.
#[tactic(auto, using(sl_items::proofs::Appended::appended), unfolding(crate::specs::Texts::attr_fault_text))]
pub fn put_attr_fault(out: &mut Vec<u8>, fault: AttrFault) -> Result<(), NoMemory>
    ensures ok { OnOk result (out.new.items ≡ out.old.items ++ attr_fault_text fault) }
    ensures kept { take (length out.old.items) out.new.items ≡ out.old.items }
{
    put_status(out, fault.status)?;
    put_optional_fattr(out, fault.attributes)?;
    Ok(())
}

/// Appends a failure that gives weak cache consistency data.
#[tactic(auto, using(sl_items::proofs::Appended::appended), unfolding(crate::specs::Texts::wcc_fault_text))]
pub fn put_wcc_fault(out: &mut Vec<u8>, fault: WccFault) -> Result<(), NoMemory>
    ensures ok { OnOk result (out.new.items ≡ out.old.items ++ wcc_fault_text fault) }
    ensures kept { take (length out.old.items) out.new.items ≡ out.old.items }
{
    put_status(out, fault.status)?;
    put_wcc(out, fault.wcc)?;
    Ok(())
}
