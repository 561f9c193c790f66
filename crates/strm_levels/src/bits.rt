//! Words of 64 bits, bit by bit. Ours.

ghost use Rattle.std.specs.Prelude.{◌≡◌, ◌≢◌, ℕ, ◌<◌, ◌≤◌, IfSome, IfNone, if◌then◌else◌};
ghost use Rattle.std.specs.Int.{bit_at};
ghost use Rattle.strm_levels.specs.Marks.{IsLowestFrom};

// A word with one bit set, or not set.
#[inline(always)]
pub(crate) fn with_bit(word: u64, bit: usize, is_set: bool) -> u64
    requires { bit < 64 }
    ensures here { bit_at result bit ≡ (if is_set then 1 else 0) }
    ensures others { (i : ℕ) → i < 64 → i ≢ bit → bit_at result i ≡ bit_at word i }
{
    if is_set {
        word | (1 << bit)
    } else {
        word & !(1 << bit)
    }
}

// The lowest bit of a word, from one on, that is set.
#[inline(always)]
pub(crate) fn lowest_from(word: u64, from: usize) -> Option<usize>
    requires { from < 64 }
    ensures some { IfSome result (λ bit. IsLowestFrom word from bit) }
    ensures none { IfNone result ((i : ℕ) → from ≤ i → bit_at word i ≡ 0) }
{
    let rest = word >> from;
    if rest == 0 {
        return None;
    }
    Some(from + rest.trailing_zeros() as usize)
}
