//! Lists of entries at the end of some bytes.
ghost use Rattle.std.specs.Prelude.{◌≡◌, ◌++◌, length, take, OnOk, All};
ghost use Rattle.sl_replies.specs.Texts.{FitsEntry, FitsEntryPlus, entry_plus_text, entry_text, list_text};

use sl_items::{put_name, put_optional_fattr, put_optional_fh};
use sl_types::{Entries, EntriesPlus, Entry, EntryPlus};
use sl_xdr::{NoMemory, put_flag, put_u64};

#[tactic(auto, using(sl_items::proofs::Appended::appended), unfolding(crate::specs::Texts::entry_text))]
fn put_entry(out: &mut Vec<u8>, entry: &Entry) -> Result<(), NoMemory>
    requires { FitsEntry entry.now }
    ensures ok { OnOk result (out.new.items ≡ out.old.items ++ entry_text entry.now) }
    ensures kept { take (length out.old.items) out.new.items ≡ out.old.items }
{
    put_u64(out, entry.fileid)?;
    put_name(out, &entry.name)?;
    put_u64(out, entry.cookie)?;
    Ok(())
}

#[tactic(auto, using(sl_items::proofs::Appended::appended), unfolding(crate::specs::Texts::entry_plus_text))]
fn put_entry_plus(out: &mut Vec<u8>, entry: &EntryPlus) -> Result<(), NoMemory>
    requires { FitsEntryPlus entry.now }
    ensures ok { OnOk result (out.new.items ≡ out.old.items ++ entry_plus_text entry.now) }
    ensures kept { take (length out.old.items) out.new.items ≡ out.old.items }
{
    put_u64(out, entry.fileid)?;
    put_name(out, &entry.name)?;
    put_u64(out, entry.cookie)?;
    put_optional_fattr(out, entry.attributes)?;
    put_optional_fh(out, &entry.handle)?;
    Ok(())
}

/// Appends the entries of READDIR.
#[tactic(auto, using(sl_items::proofs::Appended::appended))]
pub fn put_entries(out: &mut Vec<u8>, entries: &Entries) -> Result<(), NoMemory>
    requires { All FitsEntry entries.now }
    ensures ok { OnOk result (out.new.items ≡ out.old.items ++ list_text entry_text entries.now) }
    ensures kept { take (length out.old.items) out.new.items ≡ out.old.items }
{
    for entry in entries.as_slice() {
        put_flag(out, true)?;
        put_entry(out, entry)?;
    }
    put_flag(out, false)?;
    Ok(())
}

/// Appends the entries of READDIRPLUS.
#[tactic(auto, using(sl_items::proofs::Appended::appended))]
pub fn put_entries_plus(out: &mut Vec<u8>, entries: &EntriesPlus) -> Result<(), NoMemory>
    requires { All FitsEntryPlus entries.now }
    ensures ok { OnOk result (out.new.items ≡ out.old.items ++ list_text entry_plus_text entries.now) }
    ensures kept { take (length out.old.items) out.new.items ≡ out.old.items }
{
    for entry in entries.as_slice() {
        put_flag(out, true)?;
        put_entry_plus(out, entry)?;
    }
    put_flag(out, false)?;
    Ok(())
}
