//! Words that stand for no packet and no text.
ghost use Rattle.std.specs.Prelude.{◌≡◌, IfOk};

use sl_text::put;
use sl_types::NoMemory;
use std::alloc::Global;

/// A word for itself.
pub fn word(alloc: Global, text: &[u8]) -> Result<Vec<u8>, NoMemory>
    ensures { IfOk result (λ out. out.items ≡ text.now) }
{
    let mut out = Vec::new(alloc);
    put(&mut out, text)?;
    Ok(out)
}
