ghost use Rattle.std.specs.Prelude.{◌≡◌, ◌++◌, length, take, IfOk, OnOk};
ghost use Rattle.sl_items.specs.Reading.{GivesArgs};

use crate::fault::RecordFault;
use crate::payload::{garbage, read_record, write_record};
use sl_cells::Item;
use sl_types::{ArgsFault, NoMemory};
use sl_xdr::{Cursor, put_u32};
use std::alloc::Global;

/// A record of the proxy's journal.
#[derive(Clone, Copy, Debug, PartialEq, Eq)]
pub enum ProxyRecord {
    /// It was started, for the so-manieth time.
    Start(u32),
}

impl Item for ProxyRecord {
    ghost use Rattle.sl_records.specs.Records.{proxy_at, proxy_text, ShortProxy};

    ghost at = { proxy_at };

    ghost text = { proxy_text };

    ghost is_short = { ShortProxy };

    #[tactic(auto, unfolding(crate::specs::Records::proxy_at, crate::specs::Records::proxy_body_at))]
    fn take(_alloc: Global, cursor: &mut Cursor<'_>) -> Result<ProxyRecord, ArgsFault> {
        match cursor.take_u32().map_err(garbage)? {
            1 => {
                let count = cursor.take_u32().map_err(garbage)?;
                Ok(ProxyRecord::Start(count))
            }
            _ => Err(ArgsFault::Garbage),
        }
    }

    #[tactic(auto, using(sl_items::proofs::Appended::appended), unfolding(crate::specs::Records::proxy_text))]
    fn put(&self, out: &mut Vec<u8>) -> Result<(), sl_xdr::NoMemory> {
        match self {
            ProxyRecord::Start(count) => {
                put_u32(out, 1)?;
                put_u32(out, *count)
            }
        }
    }

    fn copy(&self) -> Result<ProxyRecord, NoMemory> {
        Ok(*self)
    }
}

impl ProxyRecord {
    ghost use Rattle.std.specs.Prelude.{◌≡◌, ◌++◌, ℕ, List, Err, IfOk, OnOk, OnErr};
    ghost use Rattle.sl_records.specs.declared.proxy.ProxyRecord.{ProxyRecord};
    ghost use Rattle.sl_records.specs.Records.{IsProxyRecord, FitsProxy, ShortProxy, proxy_text};

    /// The record that the whole payload spells.
    pub fn read(alloc: Global, bytes: &[u8]) -> Result<ProxyRecord, RecordFault>
        // The bytes are this record's text, and no other record's.
        ensures found { IfOk result (λ r. IsProxyRecord r bytes.now) }
        ensures only { IfOk result (λ r. (other : ProxyRecord) → IsProxyRecord other bytes.now → other ≡ r) }
        // It can be written.
        ensures short { IfOk result ShortProxy }
        // They are no record's.
        ensures bad { result ≡ Err RecordFault.BadRecord → (r : ProxyRecord) → IsProxyRecord r bytes.now → ⊥ }
    {
        read_record(alloc, bytes)
    }

    /// Appends its payload. Without memory nothing is appended.
    pub fn write(&self, out: &mut Vec<u8>) -> Result<(), sl_xdr::NoMemory>
        requires { ShortProxy self.now }
        ensures ok { OnOk result (out.new.items ≡ out.old.items ++ proxy_text self.now) }
        // What is appended is in the grammar.
        ensures spelled { FitsProxy self.now → OnOk result ((text : List ℕ) × IsProxyRecord self.now text × (out.new.items ≡ out.old.items ++ text)) }
        ensures err { OnErr result (out.new.items ≡ out.old.items) }
    {
        write_record(self, out)
    }
}
