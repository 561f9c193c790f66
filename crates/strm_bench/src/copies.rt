//! Items copied from one slice to another, as they are between two guests.

ghost use Rattle.std.specs.Prelude.{◌≡◌, ◌*◌, ◌≤◌, length, IfOk, vec_len};
ghost use Rattle.strm_codes.specs.Layout.{item_type};
ghost use Rattle.strm_codes.specs.ItemTypes.{item_size};

use crate::sums::sum_of;
use std::alloc::Global;
use strm_codes::counts::{ItemCount, OutOfMemory};
use strm_codes::payloads::{Payload, Shape};
use strm_codes::scalars::Scalar;
use strm_memory::copies::copy_items;

/// The items of a copy.
pub const COUNTS: [u32; 4] = [8, 64, 512, 4096];

/// What is copied, and its name.
pub(crate) fn layouts() -> [(&'static str, Payload); 6] {
    let mixed = [
        Scalar::Bool,
        Scalar::U16,
        Scalar::U8,
        Scalar::U32,
        Scalar::Char,
        Scalar::S8,
        Scalar::S64,
        Scalar::U8,
    ];
    [
        ("bool", Payload::One(Scalar::Bool)),
        ("char", Payload::One(Scalar::Char)),
        ("(u8,u32)", tuple(&[Scalar::U8, Scalar::U32])),
        ("(u8,u16,u8)", tuple(&[Scalar::U8, Scalar::U16, Scalar::U8])),
        ("(u64,u8)", tuple(&[Scalar::U64, Scalar::U8])),
        ("(bool,u16,u8,u32,char,s8,s64,u8)", tuple(&mixed)),
    ]
}

// A tuple of one to eight fields.
fn tuple(fields: &[Scalar]) -> Payload
    requires some { 1 ≤ length fields.now }
    requires most { length fields.now ≤ 8 }
{
    match Shape::new(fields) {
        Some(shape) => Payload::Tuple(shape),
        None => unreachable!(),
    }
}

/// Two slices that hold so many items each.
#[derive(Drop)]
pub struct Copies {
    payload: Payload,
    count: ItemCount,
    source: Vec<u8>,
    destination: Vec<u8>,
    ghost source_holds: { item_size (item_type payload) * count ≤ vec_len source },
    ghost room: { item_size (item_type payload) * count ≤ vec_len destination },
}

impl Copies {
    /// Slices whose bytes are written to: every fourth byte of the source counts up, and all others
    /// are 0, so that each field of four bytes is a character.
    pub(crate) fn new(
        alloc: Global,
        payload: Payload,
        count: ItemCount,
    ) -> Result<Copies, OutOfMemory> {
        let len = payload.size() as usize * count.as_usize();
        let mut source = filled(alloc, 0, len)?;
        let destination = filled(alloc, 7, len)?;
        for k in 0..len {
            if k % 4 == 0 {
                source[k] = (k / 4 % 256) as u8;
            }
        }
        Ok(Copies {
            payload,
            count,
            source,
            destination,
        })
    }

    /// Copies all items, so many times.
    #[inline(never)]
    pub(crate) fn repeat(&mut self, rounds: u32) {
        for _ in 0..rounds {
            let _ = copy_items(
                self.source.as_slice(),
                self.destination.as_mut_slice(),
                self.payload,
                self.count,
            );
        }
    }

    /// The sum of the bytes that items were copied to, modulo 2^64.
    pub(crate) fn sum(&self) -> u64 {
        sum_of(&self.destination)
    }
}

fn filled(alloc: Global, byte: u8, len: usize) -> Result<Vec<u8>, OutOfMemory>
    ensures { IfOk result (λ bytes. vec_len bytes ≡ len) }
{
    let bytes = vec![in alloc; byte; len]?;
    Ok(bytes)
}
