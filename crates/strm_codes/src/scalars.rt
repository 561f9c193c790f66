//! The scalars that payloads are made of.
//!
//! Source: Canonical ABI, "Alignment" and "Element Size".

ghost use Rattle.std.specs.Prelude.{◌≡◌, ◌<◌, ◌≤◌, ◌↔◌, IsTrue};
ghost use Rattle.strm_codes.specs.Scalars.{FitsScalar};
ghost use Rattle.strm_codes.specs.declared.scalars.Scalar.TheVariants.{Char};

/// A scalar type. An item of a float is the number that its bits spell.
#[derive(Clone, Copy, Debug)]
pub enum Scalar {
    Bool,
    S8,
    U8,
    S16,
    U16,
    S32,
    U32,
    S64,
    U64,
    Char,
    F32,
    F64,
}

impl Scalar {
    ghost use Rattle.strm_codes.specs.Scalars.{size_of, is_numeric};

    /// The bytes that one takes, which is its alignment too.
    pub fn size(self) -> u32
        ensures exact { result ≡ size_of self }
        ensures some { 0 < result }
        ensures most { result ≤ 8 }
    {
        match self {
            Scalar::Bool | Scalar::S8 | Scalar::U8 => 1,
            Scalar::S16 | Scalar::U16 => 2,
            Scalar::S32 | Scalar::U32 | Scalar::Char | Scalar::F32 => 4,
            Scalar::S64 | Scalar::U64 | Scalar::F64 => 8,
        }
    }

    /// A whole number or a float: neither a bool nor a char.
    pub fn is_numeric(self) -> bool
        ensures { result ≡ is_numeric self }
    {
        !matches!(self, Scalar::Bool | Scalar::Char)
    }

    /// Whether a number is an item of this scalar.
    pub fn fits(self, number: i128) -> bool
        ensures { IsTrue result ↔ FitsScalar self number }
    {
        match self {
            Scalar::Bool => 0 <= number && number < 2,
            Scalar::S8 => -0x80 <= number && number < 0x80,
            Scalar::U8 => 0 <= number && number < 0x100,
            Scalar::S16 => -0x8000 <= number && number < 0x8000,
            Scalar::U16 => 0 <= number && number < 0x1_0000,
            Scalar::S32 => -0x8000_0000 <= number && number < 0x8000_0000,
            Scalar::U32 | Scalar::F32 => 0 <= number && number < 0x1_0000_0000,
            Scalar::S64 => -0x8000_0000_0000_0000 <= number && number < 0x8000_0000_0000_0000,
            Scalar::U64 | Scalar::F64 => 0 <= number && number < 0x1_0000_0000_0000_0000,
            Scalar::Char => is_scalar_value(number),
        }
    }
}

impl PartialEq for Scalar {
    ghost use Rattle.std.specs.Cmp.{partial_equiv_from_equiv, on_equiv, nat_eq_equiv};
    ghost use Rattle.strm_codes.specs.Sameness.{scalar_number, same_scalar};

    ghost eq = { same_scalar };

    ghost laws = { partial_equiv_from_equiv (on_equiv scalar_number nat_eq_equiv) };

    fn eq(&self, other: &Scalar) -> bool {
        *self as u8 == *other as u8
    }
}

impl Eq for Scalar {
    ghost use Rattle.std.specs.Cmp.{on_equiv, nat_eq_equiv};
    ghost use Rattle.strm_codes.specs.Sameness.{scalar_number};

    ghost laws = { on_equiv scalar_number nat_eq_equiv };
}

fn is_scalar_value(number: i128) -> bool
    ensures { IsTrue result ↔ FitsScalar Char number }
{
    0 <= number && (number < 0xD800 || (0xDFFF < number && number < 0x11_0000))
}
