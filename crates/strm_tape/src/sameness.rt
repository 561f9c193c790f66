//! Whether items are the same, by the bytes that spell them.
//!
//! Source: ours.

ghost use Rattle.std.specs.Prelude.{◌≡◌, ◌↔◌, IsTrue, IfOk};

use crate::taping::put_items;
use std::alloc::Global;
use strm_buffers::items::Items;
use strm_codes::counts::OutOfMemory;

/// Whether two lists of one payload have the same items. After `OutOfMemory` nothing was kept.
pub fn same_items(alloc: Global, a: &Items, b: &Items) -> Result<bool, OutOfMemory>
    requires { a.now.payload ≡ b.now.payload }
    ensures { IfOk result (λ same. IsTrue same ↔ (a.now.items ≡ b.now.items)) }
{
    if a.len() != b.len() {
        return Ok(false);
    }
    a.sound();
    b.sound();
    let mut one = Vec::new(alloc);
    put_items(&mut one, a)?;
    let mut other = Vec::new(alloc);
    put_items(&mut other, b)?;
    Ok(one.as_slice() == other.as_slice())
}
