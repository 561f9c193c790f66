//! The set that each handle is in, in a vector by handle.
//!
//! Meaning: `Homes.antt`. Ours: handles are given from the least free number, so that the vector is no
//! longer than the guest's table.

ghost use Rattle.std.specs.Prelude.{◌≡◌, ℕ, ◌^◌, ◌<◌, ◌≤◌, true, false, length, slice_set, IfSome, IfNone, OnOk, OnErr};
ghost use Rattle.strm_codes.specs.OptionalNumbers.{is_number};
ghost use Rattle.strm_waitable_sets.specs.Homes.{home_at, AreSameHomes};

use strm_codes::counts::OutOfMemory;

/// Whether a handle's home, if it has one, is this set.
pub(crate) fn is_home(home: Option<u32>, set: u32) -> bool
    ensures { result ≡ is_number home set }
{
    match home {
        Some(number) => number == set,
        None => false,
    }
}

/// The set that a handle is in.
pub(crate) fn home_at(homes: &[Option<u32>], handle: u32) -> Option<u32>
    ensures { result ≡ home_at homes.now handle }
{
    match homes.get(handle as usize) {
        Some(home) => *home,
        None => None,
    }
}

/// A place for a handle. Where there is no memory, nothing changes.
pub(crate) fn make_place(homes: &mut Vec<Option<u32>>, handle: u32) -> Result<(), OutOfMemory>
    requires few { length homes.old.items ≤ 2 ^ 32 }
    ensures inside { OnOk result (handle < length homes.new.items) }
    ensures few { length homes.new.items ≤ 2 ^ 32 }
    ensures same { AreSameHomes homes.old.items homes.new.items }
{
    let place = handle as usize;
    if place >= homes.len() {
        homes.resize(place + 1, None)?;
    }
    Ok(())
}

/// Another home of a handle that has a place: answers the one that it had.
pub(crate) fn replace_home(
    homes: &mut Vec<Option<u32>>,
    handle: u32,
    home: Option<u32>,
) -> Option<u32>
    ensures old { result ≡ home_at homes.old.items handle }
    ensures new { homes.new.items ≡ slice_set homes.old.items handle home }
{
    let place = handle as usize;
    if place >= homes.len() {
        return None;
    }
    let old = homes[place];
    homes[place] = home;
    old
}

/// The least handle of a set that is ready. It looks at the handles by rising number, and at none behind
/// the one that it answers.
pub(crate) fn least_ready<F: Fn(u32) -> bool>(
    homes: &[Option<u32>],
    set: u32,
    ready: F,
) -> Option<u32>
    requires callable { F.IsAlwaysCallable ready }
    requires few { length homes.now ≤ 2 ^ 32 }
    ensures member { IfSome result (λ handle. is_number (home_at homes.now handle) set ≡ true) }
    ensures ready { IfSome result (λ handle. F.post ready handle true) }
    ensures least { IfSome result (λ handle. (other : ℕ) → other < handle
        → is_number (home_at homes.now other) set ≡ true → F.post ready other false) }
    ensures none { IfNone result ((other : ℕ) → is_number (home_at homes.now other) set ≡ true
        → F.post ready other false) }
{
    for place in 0..homes.len() {
        let handle = place as u32;
        if is_home(homes[place], set) && ready(handle) {
            return Some(handle);
        }
    }
    None
}
