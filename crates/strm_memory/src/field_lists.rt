//! Values of fields, one behind the other, as the numbers of an item: what the types whose values are
//! items share.
//!
//! Source: ours.

ghost use Rattle.std.specs.Prelude.{◌≡◌, ◌≤◌, ◌↔◌, length, IsSome, IfSome};
ghost use Rattle.strm_codes.specs.Fields.{FitsFields};
ghost use Rattle.strm_codes.specs.declared.payloads.Payload.TheVariants.{Tuple};

use crate::typed_fields::Field;
use strm_codes::payloads::{Payload, Shape};
use strm_codes::scalars::Scalar;
use strm_codes::values::Value;

// Values of some fields, one behind the other: `(a, (b, (c, ())))`.
pub(crate) trait Fields: Copy {
    ghost use Rattle.std.specs.Prelude.{◌≡◌, ℤ, List, length};
    ghost use Rattle.strm_codes.specs.declared.scalars.Scalar.{Scalar};

    // Their scalars.
    ghost scalars: { List Scalar };

    // Their numbers.
    ghost numbers: { Self → List ℤ };

    /// How many there are.
    fn count() -> usize
        requires { length scalars ≤ 8 }
        ensures { result ≡ length scalars };

    /// The fields of these numbers; none where one doesn't fit, or their count is another.
    fn read(of: &[i128]) -> Option<Self>
        ensures some { IsSome result ↔ FitsFields scalars of.now }
        ensures value { IfSome result (λ x. numbers x ≡ of.now) };

    /// Writes their numbers.
    fn write(self, out: &mut [i128])
        requires { length out.old ≡ length scalars }
        ensures exact { out.new ≡ numbers self }
        ensures fits { FitsFields scalars out.new };

    // No two values have the same numbers.
    ghost apart: { (x y : Self) → numbers x ≡ numbers y → x ≡ y };
}

impl Fields for () {
    ghost use Rattle.std.proofs.Common.{rules};
    ghost use Rattle.std.specs.Prelude.{[]};

    ghost scalars = { [] };

    ghost numbers = { λ x. [] };

    ghost apart = { Prim.search rules };

    fn count() -> usize {
        0
    }

    fn read(of: &[i128]) -> Option<()> {
        if of.is_empty() { Some(()) } else { None }
    }

    fn write(self, _out: &mut [i128]) {}
}

impl<A: Field, R: Fields> Fields for (A, R) {
    ghost use Rattle.std.specs.Prelude.{◌∷◌};
    ghost use Rattle.strm_memory.specs.Apart.{more_apart};

    ghost scalars = { A.scalar ∷ R.scalars };

    ghost numbers = { λ x. A.number x.0 ∷ R.numbers x.1 };

    ghost apart = { more_apart A.number R.numbers A.apart R.apart };

    fn count() -> usize {
        1 + R::count()
    }

    fn read(of: &[i128]) -> Option<(A, R)> {
        let Some((first, rest)) = of.split_first() else {
            return None;
        };
        let Some(field) = A::from_number(*first) else {
            return None;
        };
        let Some(fields) = R::read(rest) else {
            return None;
        };
        Some((field, fields))
    }

    fn write(self, out: &mut [i128]) {
        let Some((first, rest)) = out.split_first_mut() else {
            return;
        };
        *first = self.0.to_number();
        self.1.write(rest);
    }
}

// The item of fields.
pub(crate) fn value_of<F: Fields>(fields: F) -> Value
    requires { length F.scalars ≤ 8 }
    ensures exact { result ≡ F.numbers fields }
    ensures fits { FitsFields F.scalars result }
{
    let mut numbers = [0i128; 8];
    let len = F::count();
    fields.write(&mut numbers[..len]);
    match Value::new(&numbers[..len]) {
        Some(value) => value,
        None => unreachable!(),
    }
}

// The tuple of these scalars.
pub(crate) fn tuple_of(scalars: &[Scalar]) -> Payload
    requires some { 1 ≤ length scalars.now }
    requires most { length scalars.now ≤ 8 }
    ensures { result ≡ Tuple scalars.now }
{
    match Shape::new(scalars) {
        Some(shape) => Payload::Tuple(shape),
        None => unreachable!(),
    }
}
