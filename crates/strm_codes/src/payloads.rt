//! Payloads: what one item of a stream consists of.
//!
//! Source: Canonical ABI, "Alignment" and "Element Size"; the narrowing to types of fixed size, without
//! pointers and handles, is ours.

ghost use Rattle.std.specs.Prelude.{◌≡◌, ◌+◌, ◌%◌, ◌<◌, ◌≤◌, ◌↔◌, length, IsTrue, IsSome, IfSome, slice_get, Some};
ghost use Rattle.strm_codes.specs.Scalars.{size_of};
ghost use Rattle.strm_codes.specs.ItemTypes.{align_of, item_size};
ghost use Rattle.strm_codes.specs.Fields.{fields_align, fields_size};
ghost use Rattle.strm_codes.specs.Offsets.{gap_before};
ghost use Rattle.strm_codes.specs.Forms.{power_of, form_of, fields_of, align_in, size_in};

use crate::compounds::Compound;
use crate::scalars::Scalar;
use std::marker::Model;

/// One to eight scalars, the fields of a tuple in order.
#[derive(Clone, Copy, Debug)]
pub struct Shape {
    fields: [Scalar; 8],
    // How many fields there are, and the size and alignment of an item: found once, when the shape
    // is made, and in one byte, since shapes are copied in every step.
    form: u8,
}

impl Model for Shape {
    ghost use Rattle.std.specs.Prelude.{◌≡◌, ◌+◌, ◌%◌, List, take};
    ghost use Rattle.std.proofs.Common.{sym};
    ghost use Rattle.strm_codes.specs.declared.scalars.Scalar.{Scalar};
    ghost use Rattle.strm_codes.specs.declared.scalars.Scalar.TheVariants.{Bool as Flag};

    ghost Value = { List Scalar };

    ghost use Rattle.strm_codes.specs.Padded.{padded, IsPadded};
    ghost use Rattle.strm_codes.specs.Forms.{form_of, fields_of};

    ghost view = { λ s. take (s.form % 8 + 1) s.fields };

    ghost invariant = { λ s. IsPadded 8 Flag s.fields (fields_of s.form)
        × (s.form ≡ form_of (take (fields_of s.form) s.fields)) };

    ghost inverse = { λ xs. record { fields = padded 8 Flag xs; form = form_of xs } };

    ghost inverse_ok = { λ s h i. record { fields = sym h.0.behind i; form = sym h.1 i } };
}

impl Shape {
    /// A tuple of these scalars; none for no field, or more than eight.
    pub fn new(fields: &[Scalar]) -> Option<Shape>
        ensures some { IsSome result ↔ ((1 ≤ length fields.now) × (length fields.now ≤ 8)) }
        ensures value { IfSome result (λ shape. shape ≡ fields.now) }
    {
        let len = fields.len();
        if len < 1 || len > 8 {
            return None;
        }
        let mut array = [Scalar::Bool; 8];
        array[..len].copy_from_slice(fields);
        Some(Shape {
            fields: array,
            form: form(fields),
        })
    }

    /// The number of fields.
    pub fn len(&self) -> usize
        ensures exact { result ≡ length self.now }
        ensures some { 1 ≤ result }
        ensures most { result ≤ 8 }
    {
        fields_in(self.form)
    }

    /// The scalar of a field, from 0.
    pub fn get(&self, index: usize) -> Scalar
        requires { index < length self.now }
        ensures { slice_get self.now index ≡ Some result }
    {
        self.as_slice()[index]
    }

    /// All fields in order.
    pub fn as_slice(&self) -> &[Scalar]
        ensures exact { result.now ≡ self.now }
        ensures most { length result.now ≤ 8 }
    {
        &self.fields[..fields_in(self.form)]
    }

    // The bytes of an item.
    #[inline(always)]
    fn size(&self) -> u32
        ensures exact { result ≡ fields_size self.now }
        ensures most { result ≤ 64 }
    {
        size_in(self.form)
    }

    // The alignment of an item.
    #[inline(always)]
    fn align(&self) -> u32
        ensures exact { result ≡ fields_align self.now }
        ensures some { 1 ≤ result }
        ensures most { result ≤ 8 }
    {
        align_in(self.form)
    }
}

impl PartialEq for Shape {
    ghost use Rattle.std.specs.Cmp.{partial_equiv_from_equiv, on_equiv, nat_eq_equiv};
    ghost use Rattle.std.proofs.lemmas.Cmp.{lists_equiv};
    ghost use Rattle.strm_codes.specs.Sameness.{scalar_number, same_scalars};

    ghost eq = { same_scalars };

    ghost laws = { partial_equiv_from_equiv (lists_equiv (on_equiv scalar_number nat_eq_equiv)) };

    fn eq(&self, other: &Shape) -> bool {
        self.as_slice() == other.as_slice()
    }
}

impl Eq for Shape {
    ghost use Rattle.std.specs.Cmp.{on_equiv, nat_eq_equiv};
    ghost use Rattle.std.proofs.lemmas.Cmp.{lists_equiv};
    ghost use Rattle.strm_codes.specs.Sameness.{scalar_number};

    ghost laws = { lists_equiv (on_equiv scalar_number nat_eq_equiv) };
}

/// What one item is: nothing, a scalar, a tuple of scalars, or any other type of a fixed size that holds
/// no pointer and no handle.
#[derive(Clone, Copy, Debug)]
pub enum Payload {
    Nothing,
    One(Scalar),
    Tuple(Shape),
    Compound(Compound),
}

impl Payload {
    ghost use Rattle.strm_codes.specs.Layout.{scalars_of, item_type, is_number_payload};

    /// The scalars of an item that is nothing, a scalar or a tuple of scalars, in order; of any other none.
    pub fn scalars(&self) -> &[Scalar]
        ensures exact { result.now ≡ scalars_of self.now }
        ensures most { length result.now ≤ 8 }
    {
        match self {
            Payload::Nothing => &[],
            Payload::One(scalar) => std::slice::from_ref(scalar),
            Payload::Tuple(shape) => shape.as_slice(),
            Payload::Compound(_) => &[],
        }
    }

    /// The bytes of an item, padding included.
    #[inline(always)]
    pub fn size(&self) -> u32
        ensures exact { result ≡ item_size (item_type self.now) }
        ensures most { result ≤ 128 }
    {
        match self {
            Payload::Nothing => 0,
            Payload::One(scalar) => scalar.size(),
            Payload::Tuple(shape) => shape.size(),
            Payload::Compound(compound) => compound.size(),
        }
    }

    /// The alignment of an item, in bytes.
    #[inline(always)]
    pub fn align(&self) -> u32
        ensures exact { result ≡ align_of (item_type self.now) }
        ensures some { 1 ≤ result }
        ensures most { result ≤ 8 }
    {
        match self {
            Payload::Nothing => 1,
            Payload::One(scalar) => scalar.size(),
            Payload::Tuple(shape) => shape.align(),
            Payload::Compound(compound) => compound.align(),
        }
    }

    /// Whether an address is a multiple of the alignment of an item.
    #[inline(always)]
    pub fn is_aligned(&self, address: u32) -> bool
        ensures { IsTrue result ↔ (address % align_of (item_type self.now) ≡ 0) }
    {
        address & (self.align() - 1) == 0
    }

    /// A whole number or a float, alone.
    pub fn is_number(&self) -> bool
        ensures { result ≡ is_number_payload self.now }
    {
        match self {
            Payload::One(scalar) => scalar.is_numeric(),
            _ => false,
        }
    }
}

impl PartialEq for Payload {
    ghost use Rattle.std.specs.Cmp.{partial_equiv_from_equiv, and_equiv, on_equiv, nat_eq_equiv};
    ghost use Rattle.std.proofs.lemmas.Cmp.{lists_equiv};
    ghost use Rattle.strm_codes.specs.Layout.{scalars_of};
    ghost use Rattle.strm_codes.specs.Sameness.{scalar_number, node_kind, node_count, nodes_of, form_number, same_payload};

    ghost eq = { same_payload };

    ghost laws = { partial_equiv_from_equiv (and_equiv (on_equiv form_number nat_eq_equiv)
        (and_equiv (on_equiv scalars_of (lists_equiv (on_equiv scalar_number nat_eq_equiv)))
        (on_equiv nodes_of (lists_equiv (and_equiv (on_equiv node_kind nat_eq_equiv)
        (on_equiv node_count nat_eq_equiv)))))) };

    fn eq(&self, other: &Payload) -> bool {
        match (self, other) {
            (Payload::Nothing, Payload::Nothing) => true,
            (Payload::One(scalar), Payload::One(other)) => scalar == other,
            (Payload::Tuple(shape), Payload::Tuple(other)) => shape == other,
            (Payload::Compound(compound), Payload::Compound(other)) => compound == other,
            _ => false,
        }
    }
}

impl Eq for Payload {
    ghost use Rattle.std.specs.Cmp.{and_equiv, on_equiv, nat_eq_equiv};
    ghost use Rattle.std.proofs.lemmas.Cmp.{lists_equiv};
    ghost use Rattle.strm_codes.specs.Layout.{scalars_of};
    ghost use Rattle.strm_codes.specs.Sameness.{scalar_number, node_kind, node_count, nodes_of, form_number};

    ghost laws = { and_equiv (on_equiv form_number nat_eq_equiv)
        (and_equiv (on_equiv scalars_of (lists_equiv (on_equiv scalar_number nat_eq_equiv)))
        (on_equiv nodes_of (lists_equiv (and_equiv (on_equiv node_kind nat_eq_equiv)
        (on_equiv node_count nat_eq_equiv))))) };
}

// The bytes from an offset to the next multiple of a size.
fn gap(at: u32, size: u32) -> u32
    requires { 0 < size }
    ensures { result ≡ gap_before at size }
{
    (size - at % size) % size
}

// Where a field ends whose place is searched from an offset on.
fn end_after(at: u32, scalar: Scalar) -> u32
    requires { at ≤ 64 }
    ensures { result ≡ at + gap_before at (size_of scalar) + size_of scalar }
{
    let size = scalar.size();
    at + gap(at, size) + size
}

fn size_of_scalars(scalars: &[Scalar]) -> u32
    requires { length scalars.now ≤ 8 }
    ensures exact { result ≡ fields_size scalars.now }
    ensures most { result ≤ 64 }
{
    let mut at = 0;
    for scalar in scalars {
        at = end_after(at, *scalar);
    }
    at + gap(at, align_of_scalars(scalars))
}

fn align_of_scalars(scalars: &[Scalar]) -> u32
    ensures exact { result ≡ fields_align scalars.now }
    ensures some { 1 ≤ result }
    ensures most { result ≤ 8 }
{
    let mut align = 1;
    for scalar in scalars {
        align = align.max(scalar.size());
    }
    align
}

// How many fields there are, less 1, then the alignment as a power of two, then the size in
// alignments, less 1.
fn form(fields: &[Scalar]) -> u8
    requires some { 1 ≤ length fields.now }
    requires most { length fields.now ≤ 8 }
    ensures { result ≡ form_of fields.now }
{
    let power = power(align_of_scalars(fields));
    let units = size_of_scalars(fields) >> power;
    (fields.len() as u32 - 1 + 8 * power + 32 * (units - 1)) as u8
}

fn power(align: u32) -> u32
    ensures exact { result ≡ power_of align }
    ensures most { result ≤ 3 }
{
    match align {
        1 => 0,
        2 => 1,
        4 => 2,
        _ => 3,
    }
}

fn fields_in(form: u8) -> usize
    ensures exact { result ≡ fields_of form }
    ensures some { 1 ≤ result }
    ensures most { result ≤ 8 }
{
    form as usize % 8 + 1
}

#[inline(always)]
fn align_in(form: u8) -> u32
    ensures { result ≡ align_in form }
{
    1 << (u32::from(form) / 8 % 4)
}

#[inline(always)]
fn size_in(form: u8) -> u32
    ensures { result ≡ size_in form }
{
    (u32::from(form) / 32 + 1) << (u32::from(form) / 8 % 4)
}
