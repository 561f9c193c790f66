//! The Rust types that stand for the twelve scalars. Floats stand as their bits: no NaN becomes another.
//!
//! Source: ours; wasmtime has `Lift` and `Lower`, which read and write a guest's memory.

ghost use Rattle.std.specs.Prelude.{◌≡◌, ◌↔◌, [], IsSome, IsNone, IfSome, pos, map};
ghost use Rattle.strm_codes.specs.Scalars.{FitsScalar};
ghost use Rattle.strm_codes.specs.declared.scalars.Scalar.TheVariants.{U8};

use std::mem;
use strm_codes::scalars::Scalar;

/// A type whose values are the items of one scalar.
pub trait Field: Copy {
    ghost use Rattle.std.specs.Prelude.{◌≡◌, ℤ};
    ghost use Rattle.strm_codes.specs.declared.scalars.Scalar.{Scalar};

    // The scalar.
    ghost scalar: { Scalar };

    // The number that a value is.
    ghost number: { Self → ℤ };

    /// The scalar.
    fn scalar() -> Scalar
        ensures { result ≡ scalar };

    /// The value of a number; none where the number is no item of the scalar.
    fn from_number(of: i128) -> Option<Self>
        ensures some { IsSome result ↔ FitsScalar scalar of }
        ensures value { IfSome result (λ x. number x ≡ of) };

    /// The number that the value is.
    fn to_number(self) -> i128
        ensures exact { result ≡ number self }
        ensures fits { FitsScalar scalar result };

    /// The values taken out as the bytes that they are, exactly where the scalar is u8; of another
    /// scalar they stay. Takes no memory.
    fn take_bytes(values: &mut Vec<Self>) -> Option<Vec<u8>>
        ensures scalar { IsSome result ↔ scalar ≡ U8 }
        ensures bytes { IfSome result
            (λ bytes. map number values.old.items ≡ map (λ b. pos b) bytes.items) }
        ensures gone { IsSome result → values.new.items ≡ [] }
        ensures others { IsNone result → values.new ≡ values.old };

    // No two values are one number.
    ghost apart: { (x y : Self) → number x ≡ number y → x ≡ y };
}

/// A float of 32 bits, by these bits.
#[derive(Clone, Copy, Debug, PartialEq, Eq)]
pub struct Float32(pub u32);

/// A float of 64 bits, by these bits.
#[derive(Clone, Copy, Debug, PartialEq, Eq)]
pub struct Float64(pub u64);

impl Field for bool {
    ghost use Rattle.std.specs.Prelude.{pos, true, false};
    ghost use Rattle.std.proofs.Common.{rules};
    ghost use Rattle.strm_codes.specs.declared.scalars.Scalar.TheVariants.{Bool as Flag};

    ghost scalar = { Flag };

    ghost number = { elim [ false ↦ pos 0 | true ↦ pos 1 ] };

    ghost apart = { Prim.search rules };

    fn scalar() -> Scalar {
        Scalar::Bool
    }

    fn from_number(of: i128) -> Option<bool> {
        match of {
            0 => Some(false),
            1 => Some(true),
            _ => None,
        }
    }

    fn to_number(self) -> i128 {
        i128::from(self)
    }

    fn take_bytes(_values: &mut Vec<bool>) -> Option<Vec<u8>> {
        None
    }
}

impl Field for i8 {
    ghost use Rattle.std.proofs.Common.{rules};
    ghost use Rattle.strm_codes.specs.declared.scalars.Scalar.TheVariants.{S8};

    ghost scalar = { S8 };

    ghost number = { λ x. x };

    ghost apart = { Prim.search rules };

    fn scalar() -> Scalar {
        Scalar::S8
    }

    fn from_number(of: i128) -> Option<i8> {
        if Scalar::S8.fits(of) {
            Some(of as i8)
        } else {
            None
        }
    }

    fn to_number(self) -> i128 {
        i128::from(self)
    }

    fn take_bytes(_values: &mut Vec<i8>) -> Option<Vec<u8>> {
        None
    }
}

impl Field for u8 {
    ghost use Rattle.std.specs.Prelude.{pos};
    ghost use Rattle.std.proofs.Common.{rules};
    ghost use Rattle.strm_codes.specs.declared.scalars.Scalar.TheVariants.{U8};

    ghost scalar = { U8 };

    ghost number = { λ x. pos x };

    ghost apart = { Prim.search rules };

    fn scalar() -> Scalar {
        Scalar::U8
    }

    fn from_number(of: i128) -> Option<u8> {
        if Scalar::U8.fits(of) {
            Some(of as u8)
        } else {
            None
        }
    }

    fn to_number(self) -> i128 {
        i128::from(self)
    }

    fn take_bytes(values: &mut Vec<u8>) -> Option<Vec<u8>> {
        let none = Vec::new(*values.allocator());
        Some(mem::replace(values, none))
    }
}

impl Field for i16 {
    ghost use Rattle.std.proofs.Common.{rules};
    ghost use Rattle.strm_codes.specs.declared.scalars.Scalar.TheVariants.{S16};

    ghost scalar = { S16 };

    ghost number = { λ x. x };

    ghost apart = { Prim.search rules };

    fn scalar() -> Scalar {
        Scalar::S16
    }

    fn from_number(of: i128) -> Option<i16> {
        if Scalar::S16.fits(of) {
            Some(of as i16)
        } else {
            None
        }
    }

    fn to_number(self) -> i128 {
        i128::from(self)
    }

    fn take_bytes(_values: &mut Vec<i16>) -> Option<Vec<u8>> {
        None
    }
}

impl Field for u16 {
    ghost use Rattle.std.specs.Prelude.{pos};
    ghost use Rattle.std.proofs.Common.{rules};
    ghost use Rattle.strm_codes.specs.declared.scalars.Scalar.TheVariants.{U16};

    ghost scalar = { U16 };

    ghost number = { λ x. pos x };

    ghost apart = { Prim.search rules };

    fn scalar() -> Scalar {
        Scalar::U16
    }

    fn from_number(of: i128) -> Option<u16> {
        if Scalar::U16.fits(of) {
            Some(of as u16)
        } else {
            None
        }
    }

    fn to_number(self) -> i128 {
        i128::from(self)
    }

    fn take_bytes(_values: &mut Vec<u16>) -> Option<Vec<u8>> {
        None
    }
}

impl Field for i32 {
    ghost use Rattle.std.proofs.Common.{rules};
    ghost use Rattle.strm_codes.specs.declared.scalars.Scalar.TheVariants.{S32};

    ghost scalar = { S32 };

    ghost number = { λ x. x };

    ghost apart = { Prim.search rules };

    fn scalar() -> Scalar {
        Scalar::S32
    }

    fn from_number(of: i128) -> Option<i32> {
        if Scalar::S32.fits(of) {
            Some(of as i32)
        } else {
            None
        }
    }

    fn to_number(self) -> i128 {
        i128::from(self)
    }

    fn take_bytes(_values: &mut Vec<i32>) -> Option<Vec<u8>> {
        None
    }
}

impl Field for u32 {
    ghost use Rattle.std.specs.Prelude.{pos};
    ghost use Rattle.std.proofs.Common.{rules};
    ghost use Rattle.strm_codes.specs.declared.scalars.Scalar.TheVariants.{U32};

    ghost scalar = { U32 };

    ghost number = { λ x. pos x };

    ghost apart = { Prim.search rules };

    fn scalar() -> Scalar {
        Scalar::U32
    }

    fn from_number(of: i128) -> Option<u32> {
        if Scalar::U32.fits(of) {
            Some(of as u32)
        } else {
            None
        }
    }

    fn to_number(self) -> i128 {
        i128::from(self)
    }

    fn take_bytes(_values: &mut Vec<u32>) -> Option<Vec<u8>> {
        None
    }
}

impl Field for i64 {
    ghost use Rattle.std.proofs.Common.{rules};
    ghost use Rattle.strm_codes.specs.declared.scalars.Scalar.TheVariants.{S64};

    ghost scalar = { S64 };

    ghost number = { λ x. x };

    ghost apart = { Prim.search rules };

    fn scalar() -> Scalar {
        Scalar::S64
    }

    fn from_number(of: i128) -> Option<i64> {
        if Scalar::S64.fits(of) {
            Some(of as i64)
        } else {
            None
        }
    }

    fn to_number(self) -> i128 {
        i128::from(self)
    }

    fn take_bytes(_values: &mut Vec<i64>) -> Option<Vec<u8>> {
        None
    }
}

impl Field for u64 {
    ghost use Rattle.std.specs.Prelude.{pos};
    ghost use Rattle.std.proofs.Common.{rules};
    ghost use Rattle.strm_codes.specs.declared.scalars.Scalar.TheVariants.{U64};

    ghost scalar = { U64 };

    ghost number = { λ x. pos x };

    ghost apart = { Prim.search rules };

    fn scalar() -> Scalar {
        Scalar::U64
    }

    fn from_number(of: i128) -> Option<u64> {
        if Scalar::U64.fits(of) {
            Some(of as u64)
        } else {
            None
        }
    }

    fn to_number(self) -> i128 {
        i128::from(self)
    }

    fn take_bytes(_values: &mut Vec<u64>) -> Option<Vec<u8>> {
        None
    }
}

impl Field for char {
    ghost use Rattle.std.specs.Prelude.{pos};
    ghost use Rattle.std.proofs.Common.{rules};
    ghost use Rattle.strm_codes.specs.declared.scalars.Scalar.TheVariants.{Char};

    ghost scalar = { Char };

    ghost number = { λ x. pos x };

    ghost apart = { Prim.search rules };

    fn scalar() -> Scalar {
        Scalar::Char
    }

    fn from_number(of: i128) -> Option<char> {
        if Scalar::Char.fits(of) {
            char::from_u32(of as u32)
        } else {
            None
        }
    }

    fn to_number(self) -> i128 {
        i128::from(self as u32)
    }

    fn take_bytes(_values: &mut Vec<char>) -> Option<Vec<u8>> {
        None
    }
}

impl Field for Float32 {
    ghost use Rattle.std.specs.Prelude.{pos};
    ghost use Rattle.std.proofs.Common.{refl, rules};
    ghost use Rattle.strm_codes.specs.declared.scalars.Scalar.TheVariants.{F32};
    ghost use Rattle.strm_memory.specs.Apart.{held_apart};

    ghost scalar = { F32 };

    ghost number = { λ x. pos x.0 };

    ghost apart = { held_apart (λ n. pos n) (λ x. x.0) (λ n. record { 0 = n }) (λ x. refl)
        (Prim.search rules) };

    fn scalar() -> Scalar {
        Scalar::F32
    }

    fn from_number(of: i128) -> Option<Float32> {
        if Scalar::F32.fits(of) {
            Some(Float32(of as u32))
        } else {
            None
        }
    }

    fn to_number(self) -> i128 {
        i128::from(self.0)
    }

    fn take_bytes(_values: &mut Vec<Float32>) -> Option<Vec<u8>> {
        None
    }
}

impl Field for Float64 {
    ghost use Rattle.std.specs.Prelude.{pos};
    ghost use Rattle.std.proofs.Common.{refl, rules};
    ghost use Rattle.strm_codes.specs.declared.scalars.Scalar.TheVariants.{F64};
    ghost use Rattle.strm_memory.specs.Apart.{held_apart};

    ghost scalar = { F64 };

    ghost number = { λ x. pos x.0 };

    ghost apart = { held_apart (λ n. pos n) (λ x. x.0) (λ n. record { 0 = n }) (λ x. refl)
        (Prim.search rules) };

    fn scalar() -> Scalar {
        Scalar::F64
    }

    fn from_number(of: i128) -> Option<Float64> {
        if Scalar::F64.fits(of) {
            Some(Float64(of as u64))
        } else {
            None
        }
    }

    fn to_number(self) -> i128 {
        i128::from(self.0)
    }

    fn take_bytes(_values: &mut Vec<Float64>) -> Option<Vec<u8>> {
        None
    }
}
