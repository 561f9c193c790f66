//! Return codes as words, and counts as text.

use crate::answers::{debug_is, display_is, is};
use strm_codes::codes::ReturnCode;
use strm_codes::counts::ItemCount;

/// Zero where it is no count.
pub(crate) fn items(count: u32) -> ItemCount {
    ItemCount::new(count).unwrap_or(ItemCount::ZERO)
}

#[test]
fn counts_print_plainly(rt: HostRuntime) {
    debug_is(&rt, rt.alloc(), &items(268_435_455), "268435455");
    display_is(&rt, rt.alloc(), &items(268_435_455), "268435455");
}

#[test]
fn codes_are_words(rt: HostRuntime) {
    is(&rt, ReturnCode::Completed(items(3)).encode(), 0x30);
    is(&rt, ReturnCode::Dropped(items(2)).encode(), 0x21);
    is(&rt, ReturnCode::Cancelled(items(0)).encode(), 2);
    is(&rt, ReturnCode::Blocked.encode(), 0xffff_ffff);
}
