//! Items as lists of whole numbers.
//!
//! Ours: one type for the items of every payload.

ghost use Rattle.std.specs.Prelude.{◌≡◌, ◌<◌, ◌≤◌, ◌↔◌, [], ◌∷◌, ◌++◌, All, length, IsSome, IfSome, IsTrue, slice_get, Some};
ghost use Rattle.strm_codes.specs.Items.{IsNumber};
ghost use Rattle.strm_codes.specs.Begins.{FitsItem};
ghost use Rattle.strm_codes.specs.Fields.{FitsFields};
ghost use Rattle.strm_codes.specs.Layout.{item_type};

use crate::fits::fits_compound;
use crate::payloads::Payload;
use crate::scalars::Scalar;
use std::marker::Model;

/// At most sixteen whole numbers, each from -2^63 to 2^64 - 1: an item of a payload, a number for
/// each of its fields.
#[derive(Clone, Copy, PartialEq, Eq, Debug)]
pub struct Value {
    numbers: [i128; 16],
    len: u8,
}

impl Model for Value {
    ghost use Rattle.std.specs.Prelude.{ℤ, pos, List, take, length};
    ghost use Rattle.std.proofs.Common.{arith, length-take-le, sym};
    ghost use Rattle.strm_codes.specs.Padded.{padded};
    ghost use Rattle.strm_codes.specs.Items.{AreNumbers};

    ghost Value = { List ℤ };

    ghost view = { λ v. take v.len v.numbers };

    ghost invariant = { λ v. AreNumbers v.numbers v.len };

    ghost inverse = { λ xs. record { numbers = padded 16 (pos 0) xs; len = length xs } };

    ghost inverse_ok = { λ v h i. record {
      numbers = sym h.padded.behind i;
      len = length-take-le v.len v.numbers (omega (arith, h.padded.most, h.padded.whole)) i;
    } };
}

impl Value {
    /// An item of these numbers; none for more than sixteen, or for a number out of range.
    pub fn new(numbers: &[i128]) -> Option<Value>
        ensures some { IsSome result ↔ ((length numbers.now ≤ 16) × All IsNumber numbers.now) }
        ensures value { IfSome result (λ value. value ≡ numbers.now) }
    {
        let len = numbers.len();
        if len > 16 || !are_numbers(numbers) {
            return None;
        }
        let mut array = [0; 16];
        array[..len].copy_from_slice(numbers);
        Some(Value {
            numbers: array,
            len: len as u8,
        })
    }

    /// The item of no numbers, to be grown by `push`.
    pub fn empty() -> Value
        ensures { result ≡ [] }
    {
        Value {
            numbers: [0; 16],
            len: 0,
        }
    }

    /// Adds a number behind the others.
    pub fn push(&mut self, number: i128)
        requires few { length self.old < 16 }
        requires range { IsNumber number }
        ensures { self.new ≡ self.old ++ number ∷ [] }
    {
        self.numbers[self.len as usize] = number;
        self.len += 1;
    }

    /// How many numbers there are.
    pub fn len(&self) -> usize
        ensures exact { result ≡ length self.now }
        ensures most { result ≤ 16 }
    {
        self.len as usize
    }

    /// A number, from 0.
    pub fn get(&self, index: usize) -> i128
        requires { index < length self.now }
        ensures exact { slice_get self.now index ≡ Some result }
        ensures range { IsNumber result }
    {
        self.as_slice()[index]
    }

    /// All numbers in order.
    pub fn as_slice(&self) -> &[i128]
        ensures exact { result.now ≡ self.now }
        ensures most { length result.now ≤ 16 }
        ensures range { All IsNumber result.now }
    {
        &self.numbers[..self.len as usize]
    }

    /// Whether this is an item of the payload.
    pub fn fits(&self, payload: Payload) -> bool
        ensures { IsTrue result ↔ FitsItem (item_type payload) self.now }
    {
        match payload {
            Payload::Compound(compound) => fits_compound(compound.as_slice(), self.as_slice()),
            _ => fit_scalars(payload.scalars(), self.as_slice()),
        }
    }
}

fn is_number(number: i128) -> bool
    ensures { IsTrue result ↔ IsNumber number }
{
    -0x8000_0000_0000_0000 <= number && number < 0x1_0000_0000_0000_0000
}

fn are_numbers(numbers: &[i128]) -> bool
    ensures { IsTrue result ↔ All IsNumber numbers.now }
{
    numbers.iter().all(|number| is_number(*number))
}

fn fit_scalars(scalars: &[Scalar], numbers: &[i128]) -> bool
    ensures { IsTrue result ↔ FitsFields scalars.now numbers.now }
{
    if scalars.len() != numbers.len() {
        return false;
    }
    for k in 0..scalars.len() {
        let number = numbers[k];
        if !scalars[k].fits(number) {
            return false;
        }
    }
    true
}
