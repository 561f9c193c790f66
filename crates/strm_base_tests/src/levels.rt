//! Numbers that are found across levels, and that are found no more.

ghost use Rattle.std.specs.Prelude.{◌≡◌, ℕ, IfOk, replicate};

use crate::answers::is;
use std::alloc::{AllocError, Global};
use std::test::Fail;
use strm_levels::levels::Levels;

// So many numbers, each of which has none.
fn levels_of(alloc: Global, many: usize) -> Result<Levels, AllocError>
    ensures { IfOk result (λ levels. levels ≡ replicate many 0) }
{
    let mut levels = Levels::new(alloc);
    for _ in 0..many {
        levels.push()?;
    }
    Ok(levels)
}

// Of so many numbers one has one: which is next, from another on.
fn next_of(
    alloc: Global,
    many: usize,
    number: usize,
    from: usize,
) -> Result<Option<usize>, AllocError> {
    let mut levels = levels_of(alloc, many)?;
    levels.raise(number);
    Ok(levels.next(from))
}

#[test]
fn a_number_is_found_across_levels(rt: HostRuntime) -> Result<(), Fail> {
    // How many numbers, which has one, from which it is looked for, and what is found.
    let rows = [
        (1, 0, 0, Some(0)),
        (1, 0, 1, None),
        (63, 62, 0, Some(62)),
        (64, 63, 0, Some(63)),
        (65, 64, 0, Some(64)),
        (4096, 4095, 1, Some(4095)),
        (4097, 4096, 0, Some(4096)),
        (4097, 4095, 4096, None),
        (9000, 8191, 4000, Some(8191)),
        (9000, 8191, 8191, Some(8191)),
        (9000, 8191, 8192, None),
        (9000, 9000, 0, None),
    ];
    for (many, number, from, found) in rows {
        is(&rt, next_of(rt.alloc(), many, number, from)?, found);
    }
    Ok(())
}
