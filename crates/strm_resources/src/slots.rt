//! One slot of a table.
//!
//! Ours.

ghost use Rattle.std.specs.Prelude.{◌≡◌, true, is_some, Some};
ghost use Rattle.std.specs.Borrow.{sem};
ghost use Rattle.strm_resources.specs.Slots.{lends_slot};

/// The value of a slot that has one.
pub(crate) fn value_of<V>(slot: &mut Option<V>) -> &mut V
    requires { is_some slot.old ≡ true }
    ensures* writes_back { sem 𝓛 (lends_slot V.row slot.entry result) }
    ensures value { slot.old ≡ Some result.now }
{
    match slot {
        Some(value) => value,
        None => unreachable!(),
    }
}
