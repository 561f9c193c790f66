//! What follows of waitable sets from their definitions.
//!
//! Meaning: `Sets.antt`.

ghost use Rattle.std.specs.Prelude.{◌≡◌, ℕ, false, nat_eq};
ghost use Rattle.strm_waitable_sets.specs.Sets.{Sets, is_member, members, handle_joined, handle_left, ListsHandles};

/// A set's members are the handles whose set it is. After a leave a handle is in no set, and after a
/// join in that set alone.
pub fn one_set_each()
    ensures members { (sets : Sets) (number : ℕ) → ListsHandles sets number (members sets number) }
    ensures left { (sets : Sets) (handle number : ℕ) →
        is_member (handle_left sets handle) number handle ≡ false }
    ensures joined { (sets : Sets) (handle number other : ℕ) →
        is_member (handle_joined sets handle number) other handle ≡ nat_eq number other }
{}
