//! Buffers of typed items seen as values, and a buffer whose type is told apart by its payload.
//!
//! Source: wasmtime, `futures_and_streams/buffers.rs`, `UntypedWriteBuffer`; `ValueBuffer` is ours.

ghost use Rattle.std.specs.Prelude.{◌≡◌, ◌≢◌, ◌<◌, ◌≤◌, ◌↔◌, length, drop, map, slice_get, Some, Ok, Err, IsSome, IfSome, IsErr, IfErr, IfOk};

use crate::buffers::WriteBuffer;
use crate::vec_buffer::VecBuffer;
use strm_codes::payloads::Payload;
use strm_codes::values::Value;
use strm_memory::payloaded::Payloaded;
use thiserror::Error;

/// A buffer whose items are seen as values of one payload.
pub trait ValueBuffer {
    ghost use Rattle.std.specs.Prelude.{ℤ, List};
    ghost use Rattle.strm_codes.specs.declared.payloads.Payload.{Payload};

    // The payload.
    ghost payload: { Payload };

    // The items that are left.
    ghost values: { Self → List (List ℤ) };

    /// The payload of the items.
    fn payload(&self) -> Payload
        ensures { result ≡ payload };

    /// How many items are left.
    fn remaining(&self) -> usize
        ensures { result ≡ length (values self.now) };

    /// An item, from 0.
    fn item(&self, index: usize) -> Value
        requires { index < length (values self.now) }
        ensures { slice_get (values self.now) index ≡ Some result };

    /// Takes so many items off the front.
    fn skip(&mut self, count: usize)
        requires { count ≤ length (values self.old) }
        ensures { values self.new ≡ drop count (values self.old) };
}

impl<T: Payloaded> ValueBuffer for Option<T> {
    ghost use Rattle.std.specs.Prelude.{map};
    ghost use Rattle.strm_buffers.specs.Buffers.{option_items};

    ghost payload = { T.payload };

    ghost values = { λ b. map T.item (option_items b) };

    fn payload(&self) -> Payload {
        T::payload()
    }

    fn remaining(&self) -> usize {
        match self {
            Some(_) => 1,
            None => 0,
        }
    }

    fn item(&self, _index: usize) -> Value {
        match self {
            Some(item) => item.lower(),
            None => unreachable!(),
        }
    }

    fn skip(&mut self, count: usize) {
        WriteBuffer::skip(self, count);
    }
}

impl<T: Payloaded> ValueBuffer for VecBuffer<T> {
    ghost use Rattle.std.specs.Prelude.{map, drop};

    ghost payload = { T.payload };

    ghost values = { λ b. map T.item (drop b.first b.buffer.items) };

    fn payload(&self) -> Payload {
        T::payload()
    }

    fn remaining(&self) -> usize {
        self.as_slice().len()
    }

    fn item(&self, index: usize) -> Value {
        self.as_slice()[index].lower()
    }

    fn skip(&mut self, count: usize) {
        WriteBuffer::skip(self, count);
    }
}

/// Another payload was found than was expected.
#[derive(Clone, Copy, Debug, PartialEq, Eq, Error)]
#[error("the payloads differ")]
pub struct TypeMismatch {
    pub expected: Payload,
    pub found: Payload,
}

// That another payload was found than was expected.
fn mismatch_of(expected: Payload, found: Payload) -> Option<TypeMismatch>
    ensures some { IsSome result ↔ expected ≢ found }
    ensures names { IfSome result (λ error. (error.expected ≡ expected) × (error.found ≡ found)) }
{
    if expected == found {
        None
    } else {
        Some(TypeMismatch { expected, found })
    }
}

/// A buffer that is lent without its item's type.
#[derive(Drop)]
pub struct UntypedWriteBuffer<'a, B: ValueBuffer> {
    buffer: &'a mut B,
}

impl<'a, B: ValueBuffer> UntypedWriteBuffer<'a, B> {
    ghost use Rattle.std.specs.Borrow.{sem};
    ghost use Rattle.strm_buffers.specs.Untyped.{LendsBuffer};

    /// Lends a buffer.
    pub fn new(buffer: &'a mut B) -> UntypedWriteBuffer<'a, B>
        ensures same_reference { result.buffer.ghost_name ≡ buffer.entry.ghost_name }
        ensures value { result.buffer.now ≡ buffer.old }
    {
        UntypedWriteBuffer { buffer }
    }

    /// The buffer, where its items are of this type; else the payloads of both.
    pub fn get_mut<T: Payloaded>(&mut self) -> Result<&mut B, TypeMismatch>
        ensures* lends { sem 𝓛 (LendsBuffer B.row self.entry result) }
        ensures value { IfOk result (λ buffer. buffer.now ≡ self.old.buffer.now) }
        ensures mismatch { IsErr result ↔ T.payload ≢ B.payload }
        ensures names { IfErr result
            (λ error. (error.expected ≡ T.payload) × (error.found ≡ B.payload)) }
    {
        match mismatch_of(T::payload(), self.buffer.payload()) {
            None => Ok(&mut *self.buffer),
            Some(mismatch) => Err(mismatch),
        }
    }
}
