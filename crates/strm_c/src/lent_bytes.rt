//! Bytes that an engine lends, as C names them: where the first of them lies, and how many there are.

ghost use Rattle.std.specs.Prelude.{◌≡◌, ℕ, List};
ghost use Rattle.std.specs.Vec.{vec_len, vec_ptr};

use std::marker::Model;
use std_alloc::vec::{Lodged, lodge};

/// Bytes that C lends. What is dropped is not freed: it is C's again.
#[repr(C)]
#[derive(Drop)]
pub struct LentBytes {
    at: *mut u8,
    len: usize,
    ghost items: { List ℕ },
}

impl Model for LentBytes {
    ghost use Rattle.strm_c.specs.Bytes.{run_at};

    ghost also_owns = { λ b. run_at b.at b.len b.items };
}

impl LentBytes {
    /// The same bytes, where they lie.
    pub(crate) fn into_vec(self) -> Vec<u8, Lodged>
        ensures { (result.items ≡ self.items) × (vec_len result ≡ self.len)
            × (vec_ptr result ≡ self.at) }
    {
        let LentBytes { at, len } = self;
        unsafe { lodge(at, len, len) }
    }
}
