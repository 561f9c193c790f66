//! Laws of items in memories. Each function does nothing: its contract is the law.

ghost use Rattle.std.specs.Prelude.{◌≡◌, ℕ, ◌+◌, ◌*◌, ◌≤◌, ℤ, List, length, Some, IsTrue, IsSome};
ghost use Rattle.strm_codes.specs.Layout.{item_type};
ghost use Rattle.strm_codes.specs.ItemTypes.{item_size, ItemType};
ghost use Rattle.strm_codes.specs.declared.payloads.Payload.{Payload};
ghost use Rattle.strm_memory.specs.Bytes.{bytes_at, IsBytes, IsApart};
ghost use Rattle.strm_memory.specs.Items.{items, items_at, stored_at, AreItems, is_number_or_none};

/// What is lowered is lifted again: items that fit lie where they were stored, and what lies
/// somewhere fits.
pub fn lowered_items_lift()
    ensures lifted { (t : ItemType) (memory : List ℕ) (address : ℕ) (xs : List (List ℤ)) →
        AreItems t xs → address + item_size t * length xs ≤ length memory →
        items_at t (stored_at t memory address xs) address (length xs) ≡ Some xs }
    ensures fit { (t : ItemType) (memory : List ℕ) (n : ℕ) (xs : List (List ℤ)) →
        IsBytes memory → items t memory n ≡ Some xs → AreItems t xs }
    ensures count { (t : ItemType) (memory : List ℕ) (n : ℕ) (xs : List (List ℤ)) →
        items t memory n ≡ Some xs → length xs ≡ n }
    ensures number_or_none { (payload : Payload) (memory : List ℕ) (n : ℕ) →
        IsTrue (is_number_or_none payload) → IsSome (items (item_type payload) memory n) }
{}

/// Items stored in a region leave the memory's length and all bytes outside the region.
pub fn stored_items_stay_inside()
    ensures len { (t : ItemType) (memory : List ℕ) (address : ℕ) (xs : List (List ℤ)) →
        address + item_size t * length xs ≤ length memory →
        length (stored_at t memory address xs) ≡ length memory }
    ensures outside { (t : ItemType) (memory : List ℕ) (address : ℕ) (xs : List (List ℤ)) →
        (other n : ℕ) → address + item_size t * length xs ≤ length memory →
        IsApart address (item_size t * length xs) other n →
        bytes_at (stored_at t memory address xs) other n ≡ bytes_at memory other n }
{}
