//! The Rust types whose values are items: nothing and a scalar, here, and tuples of one to eight
//! scalars (`tuples.rt`).
//!
//! Source: ours; wasmtime has `Lift` and `Lower`, which read and write a guest's memory.

ghost use Rattle.std.specs.Prelude.{◌≡◌, ◌+◌, ◌*◌, ◌≤◌, ◌↔◌, [], ◌∷◌, length, map, Some, IsSome, IsNone, IfSome};
ghost use Rattle.strm_codes.specs.Begins.{FitsItem};
ghost use Rattle.strm_codes.specs.Layout.{item_type};
ghost use Rattle.strm_codes.specs.ItemTypes.{item_size};
ghost use Rattle.strm_codes.specs.declared.payloads.Payload.TheVariants.{One};
ghost use Rattle.strm_codes.specs.declared.scalars.Scalar.TheVariants.{U8};
ghost use Rattle.strm_memory.specs.Items.{stored, stored_at, AreItems, byte_items};

use crate::field_lists::{Fields, value_of};
use crate::fields::lower_field;
use crate::items::lower_item_at;
use crate::typed_fields::Field;
use strm_codes::payloads::Payload;
use strm_codes::values::Value;

/// A type whose values are the items of a payload.
pub trait Payloaded: Copy {
    ghost use Rattle.std.specs.Prelude.{◌≡◌, ℤ, List};
    ghost use Rattle.strm_codes.specs.declared.payloads.Payload.{Payload};

    // The payload.
    ghost payload: { Payload };

    // The item that a value is.
    ghost item: { Self → List ℤ };

    /// The payload.
    fn payload() -> Payload
        ensures { result ≡ payload };

    /// The value of an item; none where it is no item of the payload.
    fn lift(value: &Value) -> Option<Self>
        ensures some { IsSome result ↔ FitsItem (item_type payload) value.now }
        ensures value { IfSome result (λ x. item x ≡ value.now) };

    /// The item that the value is.
    fn lower(&self) -> Value
        ensures exact { result ≡ item self.now }
        ensures fits { FitsItem (item_type payload) result };

    /// Stores the item that the value is in the bytes from a place on. Padding stays as it was. Takes
    /// no memory.
    fn put(&self, bytes: &mut [u8], at: usize)
        requires { at + item_size (item_type payload) ≤ length bytes.old }
        ensures stored { bytes.new
            ≡ stored_at (item_type payload) bytes.old at (item self.now ∷ []) }
        ensures fits { FitsItem (item_type payload) (item self.now) }
    {
        lower_item_at(&self.lower(), Self::payload(), bytes, at);
    }

    /// The values taken out as the bytes that they are, exactly where they are bytes; others stay. Takes
    /// no memory.
    fn take_bytes(values: &mut Vec<Self>) -> Option<Vec<u8>>
        ensures payload { IsSome result ↔ payload ≡ One U8 }
        ensures bytes { IfSome result
            (λ bytes. map item values.old.items ≡ byte_items bytes.items) }
        ensures gone { IsSome result → values.new.items ≡ [] }
        ensures others { IsNone result → values.new ≡ values.old };

    // No two values are one item: so what is lowered is lifted again.
    ghost apart: { (x y : Self) → item x ≡ item y → x ≡ y };
}

/// The value that its own item is lifted to: the value itself.
pub fn lifted_again<T: Payloaded>(value: &T) -> Option<T>
    ensures { result ≡ Some value.now }
{
    T::lift(&value.lower())
}

/// Stores the items that these values are from the front of the bytes on, one behind the other.
/// Padding stays as it was. Takes no memory.
pub fn put_values<T: Payloaded>(values: &[T], bytes: &mut [u8])
    requires { item_size (item_type T.payload) * length values.now ≤ length bytes.old }
    ensures stored { bytes.new ≡ stored (item_type T.payload) bytes.old (map T.item values.now) }
    ensures fit { AreItems (item_type T.payload) (map T.item values.now) }
{
    let size = T::payload().size() as usize;
    for k in 0..values.len() {
        values[k].put(bytes, size * k);
    }
}

impl Payloaded for () {
    ghost use Rattle.std.proofs.Common.{rules};
    ghost use Rattle.std.specs.Prelude.{[]};
    ghost use Rattle.strm_codes.specs.declared.payloads.Payload.TheVariants.{Nothing};

    ghost payload = { Nothing };

    ghost item = { λ x. [] };

    ghost apart = { Prim.search rules };

    fn payload() -> Payload {
        Payload::Nothing
    }

    fn lift(value: &Value) -> Option<()> {
        <()>::read(value.as_slice())
    }

    fn lower(&self) -> Value {
        value_of(())
    }

    fn take_bytes(_values: &mut Vec<()>) -> Option<Vec<u8>> {
        None
    }
}

impl<T: Field> Payloaded for T {
    ghost use Rattle.std.specs.Prelude.{[], ◌∷◌};
    ghost use Rattle.strm_memory.specs.Apart.{one_apart};

    ghost payload = { One T.scalar };

    ghost item = { λ x. T.number x ∷ [] };

    ghost apart = { one_apart T.number T.apart };

    fn payload() -> Payload {
        Payload::One(T::scalar())
    }

    fn lift(value: &Value) -> Option<T> {
        let (field, ()) = <(T, ())>::read(value.as_slice())?;
        Some(field)
    }

    fn lower(&self) -> Value {
        value_of((*self, ()))
    }

    fn put(&self, bytes: &mut [u8], at: usize) {
        lower_field(bytes, at, T::scalar(), self.to_number());
    }

    fn take_bytes(values: &mut Vec<T>) -> Option<Vec<u8>> {
        <T as Field>::take_bytes(values)
    }
}
