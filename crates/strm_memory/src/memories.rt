//! The memory of a guest, and where regions of items may lie in it.
//!
//! Source: wasmtime, `futures_and_streams.rs`, `check_bounds`; Canonical ABI, `BufferGuestImpl`.

ghost use Rattle.std.specs.Prelude.{◌≡◌, ℕ, ◌+◌, ◌*◌, ◌^◌, ◌<◌, ◌≤◌, ◌↔◌, [], ◌++◌, length, replicate, take, drop, true, is_err, IsTrue, IfOk, OnOk, OnErr, IsOk, IsErr, IsErrOf, IsNone, IsSomeAnd, IfSome, Some, None, vec_len, vec_capacity};
ghost use Rattle.strm_codes.specs.Layout.{item_type};
ghost use Rattle.strm_codes.specs.ItemTypes.{item_size};
ghost use Rattle.std.specs.List.{slice_range};
ghost use Rattle.std.specs.Vec.{vec_ptr};
ghost use Rattle.strm_memory.specs.Linear.{untold, of_engine, is_lent_base, told_at, with_contents};
ghost use denote.RawPtr.{◌+ₚ◌};
ghost use Rattle.strm_memory.specs.Bytes.{put_at, bytes_at};
ghost use Rattle.strm_memory.specs.Items.{items_at, stored_at, AreItems, IsFirstBadItem, is_number_or_none};

use crate::copies::{BadItem, copy_region};
use crate::items::{LiftError, lift_from, lower_from};
use crate::joins::join;
use crate::moves::{append_zeros, copy_within_items};
use std::alloc::Global;
use std::marker::Model;
use std::mem;
use std_alloc::vec::Lodged;
use strm_codes::counts::{ItemCount, OutOfMemory};
use strm_codes::payloads::Payload;
use strm_codes::values::Value;
use thiserror::Error;

/// The bytes of a guest. Addresses begin at 0. Once somebody was told where they lie, they lie there.
/// They are the memory's own, which are freed with it; or an engine lent them, where they lie, and they are
/// never freed.
#[derive(Drop)]
pub struct GuestMemory {
    own: Vec<u8>,
    // Whether somebody was told where the memory's own bytes lie.
    is_told: bool,
    lent: Vec<u8, Lodged>,
    is_lent: bool,
}

impl Model for GuestMemory {
    ghost use Rattle.std.specs.Prelude.{if◌then◌else◌};
    ghost use Rattle.std.specs.Vec.{vec_ptr};
    ghost use Rattle.std.specs.Bool.{then_some};
    ghost use Rattle.strm_memory.specs.Linear.{LinearMemory, own_at, of_engine};

    ghost Value = { LinearMemory };

    ghost view = { λ m. if m.is_lent then of_engine m.lent.items (vec_ptr m.lent)
        else record { bytes = m.own.items; base = then_some m.is_told (own_at (vec_ptr m.own)) } };
}

/// Some bytes pass the memory's end.
#[derive(Clone, Copy, Debug, PartialEq, Eq, Error)]
#[error("the bytes pass the memory's end")]
pub struct OutOfBounds;

/// Why no items may lie there.
#[derive(Clone, Copy, Debug, PartialEq, Eq, Error)]
pub enum RegionError {
    /// The region passes the memory's end.
    #[error("the region passes the memory's end")]
    OutOfBounds,
    /// The address is no multiple of the payload's alignment.
    #[error("the address is not aligned")]
    NotAligned,
}

impl GuestMemory {
    ghost use Rattle.std.specs.Borrow.{sem};
    ghost use Rattle.strm_memory.specs.Lending.{LendsBytes, LendsRange};
    ghost use Rattle.strm_memory.specs.Region.{region_of, bytes_out_of_bounds};

    /// So many zero bytes. After `OutOfMemory` nothing was kept.
    pub fn new(alloc: Global, size: u32) -> Result<GuestMemory, OutOfMemory>
        ensures { IfOk result (λ memory. memory ≡ untold (replicate size 0)) }
    {
        let bytes = vec![in alloc; 0u8; size as usize]?;
        Ok(GuestMemory::of_bytes(bytes))
    }

    /// No bytes: what stands in place of a memory that is lent. Takes no memory.
    pub fn empty(alloc: Global) -> GuestMemory
        ensures { result ≡ untold [] }
    {
        GuestMemory::of_bytes(Vec::new(alloc))
    }

    /// The memory that consists of these bytes. Takes no memory.
    pub fn of_bytes(bytes: Vec<u8>) -> GuestMemory
        ensures { result ≡ untold bytes.items }
    {
        GuestMemory {
            own: bytes,
            is_told: false,
            lent: Vec::new(Lodged),
            is_lent: false,
        }
    }

    /// The memory that consists of these bytes, which an engine lends, where they lie. They are touched only
    /// as the guest's memory is, and never freed. Takes no memory.
    pub fn lent(alloc: Global, bytes: Vec<u8, Lodged>) -> GuestMemory
        ensures { result ≡ of_engine bytes.items (vec_ptr bytes) }
    {
        GuestMemory {
            own: Vec::new(alloc),
            is_told: true,
            lent: bytes,
            is_lent: true,
        }
    }

    /// Whether an engine lent the bytes.
    pub fn is_lent(&self) -> bool
        ensures { result ≡ is_lent_base self.now.base }
    {
        self.is_lent
    }

    /// A memory that an engine lent has these bytes too, which lie behind its end. It lies where it lay, and
    /// none of the bytes is touched. Takes no memory.
    pub fn grown(&mut self, more: Vec<u8, Lodged>)
        requires lent { is_lent_base self.old.base ≡ true }
        requires behind { IfSome self.old.base
            (λ base. vec_ptr more ≡ base.at +ₚ length self.old.bytes) }
        requires small { length self.old.bytes + length more.items < 2 ^ 63 }
        ensures { self.new ≡ with_contents self.old (self.old.bytes ++ more.items) }
    {
        if !self.is_lent {
            unreachable!()
        }
        let bytes = mem::replace(&mut self.lent, Vec::new(Lodged));
        self.lent = join(bytes, more);
    }

    /// A memory that an engine lent goes on in these bytes, which begin with all of its own, at another
    /// place. Answers the bytes in which it was; none of either is touched. Takes no memory.
    pub fn moved(&mut self, bytes: Vec<u8, Lodged>) -> Vec<u8, Lodged>
        requires lent { is_lent_base self.old.base ≡ true }
        requires begins { take (length self.old.bytes) bytes.items ≡ self.old.bytes }
        ensures moved { self.new ≡ of_engine bytes.items (vec_ptr bytes) }
        ensures left { of_engine result.items (vec_ptr result) ≡ self.old }
    {
        if !self.is_lent {
            unreachable!()
        }
        mem::replace(&mut self.lent, bytes)
    }

    /// All bytes of a memory of which nobody was told where they lie, and no memory behind: they are its
    /// own. Takes no memory.
    pub fn into_bytes(self) -> Vec<u8>
        requires { self.base ≡ None }
        ensures { result.items ≡ self.bytes }
    {
        let GuestMemory {
            own,
            is_told: _,
            lent: _,
            is_lent,
        } = self;
        if is_lent {
            unreachable!()
        }
        own
    }

    /// Cuts bytes off at a place, and appends so many that are 0, where nobody was told where they lie.
    /// After `OutOfMemory` nothing has changed.
    pub fn append_zeros(&mut self, at: usize, count: usize) -> Result<(), OutOfMemory>
        requires untold { self.old.base ≡ None }
        requires inside { at ≤ length self.old.bytes }
        ensures ok { OnOk result
            (self.new ≡ untold (take at self.old.bytes ++ replicate count 0)) }
        ensures err { OnErr result (self.new ≡ self.old) }
    {
        if self.is_lent {
            unreachable!()
        }
        append_zeros(&mut self.own, at, count)
    }

    /// What a memory of its own is taken from.
    pub fn alloc(&self) -> Global {
        *self.own.allocator()
    }

    /// Where the first byte lies, which is told: from now on they lie there.
    pub fn tell_base(&mut self) -> *const u8
        ensures told { self.new ≡ record self.old { base = Some (told_at self.old.base result) } }
        ensures again { IfSome self.old.base (λ base. result ≡ base.at) }
    {
        if self.is_lent {
            return self.lent.as_ptr();
        }
        self.is_told = true;
        self.own.as_ptr()
    }

    /// How many bytes there are.
    pub fn len(&self) -> usize
        ensures { result ≡ length self.now.bytes }
    {
        self.bytes().len()
    }

    /// All bytes.
    pub fn bytes(&self) -> &[u8]
        ensures { result.now ≡ self.now.bytes }
    {
        if self.is_lent {
            self.lent.as_slice()
        } else {
            self.own.as_slice()
        }
    }

    /// All bytes, to write.
    pub fn bytes_mut(&mut self) -> &mut [u8]
        ensures value { result.now ≡ self.old.bytes }
        ensures* lends { sem 𝓛 (LendsBytes self.entry result) }
    {
        if self.is_lent {
            self.lent.as_mut_slice()
        } else {
            self.own.as_mut_slice()
        }
    }

    /// The bytes from a place up to another, to write.
    pub fn range_mut(&mut self, from: usize, to: usize) -> &mut [u8]
        requires order { from ≤ to }
        requires inside { to ≤ length self.old.bytes }
        ensures value { result.now ≡ slice_range self.old.bytes from to }
        ensures* lends { sem 𝓛 (LendsRange self.entry from result) }
    {
        if self.is_lent {
            self.lent.slice_mut(from..to)
        } else {
            self.own.slice_mut(from..to)
        }
    }

    /// So many bytes from an address on.
    pub fn slice(&self, address: u32, len: u32) -> &[u8]
        requires { address + len ≤ length self.now.bytes }
        ensures { result.now ≡ bytes_at self.now.bytes address len }
    {
        &self.bytes()[address as usize..address as usize + len as usize]
    }

    /// Writes bytes from an address on. No bytes look at no address. Takes no memory.
    pub fn store(&mut self, address: u32, bytes: &[u8]) -> Result<(), OutOfBounds>
        ensures out_of_bounds { is_err result ≡
            bytes_out_of_bounds (length self.old.bytes) address (length bytes.now) }
        ensures ok { OnOk result
            (self.new ≡ with_contents self.old (put_at self.old.bytes address bytes.now)) }
        ensures err { OnErr result (self.new ≡ self.old) }
        ensures no_bytes { length bytes.now ≡ 0 → self.new ≡ self.old }
    {
        if bytes.is_empty() {
            return Ok(());
        }
        let from = address as usize;
        let size = self.len();
        if bytes.len() > size || from > size - bytes.len() {
            return Err(OutOfBounds);
        }
        self.bytes_mut()[from..from + bytes.len()].copy_from_slice(bytes);
        Ok(())
    }

    /// Whether so many items may lie from an address on. Takes no memory.
    #[inline(always)]
    pub fn region(
        &self,
        payload: Payload,
        address: u32,
        count: ItemCount,
    ) -> Result<(), RegionError>
        ensures { result ≡ region_of (length self.now.bytes) (item_type payload) address count }
    {
        let len = payload.size() as usize * count.as_usize();
        if len == 0 {
            return Ok(());
        }
        if self.len() < address as usize + len {
            return Err(RegionError::OutOfBounds);
        }
        if !payload.is_aligned(address) {
            return Err(RegionError::NotAligned);
        }
        Ok(())
    }

    /// Copies so many items from an address of another memory to one of this, as by lifting all of
    /// them and then lowering them. Takes no memory.
    #[inline(always)]
    pub fn receive(
        &mut self,
        address: u32,
        source: &GuestMemory,
        from: u32,
        payload: Payload,
        count: ItemCount,
    ) -> Result<(), BadItem>
        requires source_holds { from + item_size (item_type payload) * count
            ≤ length source.now.bytes }
        requires self_holds { address + item_size (item_type payload) * count
            ≤ length self.old.bytes }
        ensures ok { OnOk result (IsSomeAnd
            (items_at (item_type payload) source.now.bytes from count)
            (λ xs. self.new
            ≡ with_contents self.old (stored_at (item_type payload) self.old.bytes address xs))) }
        ensures bad { IsErr result
            ↔ IsNone (items_at (item_type payload) source.now.bytes from count) }
        ensures err { OnErr result (self.new ≡ self.old) }
        ensures number_or_none { IsTrue (is_number_or_none payload) → IsOk result }
        ensures numbers { IsTrue (is_number_or_none payload) → self.new
            ≡ with_contents self.old (put_at self.old.bytes address
            (bytes_at source.now.bytes from (item_size (item_type payload) * count))) }
    {
        let to = address as usize;
        copy_region(
            source.bytes(),
            from as usize,
            self.bytes_mut(),
            to,
            payload,
            count.as_usize(),
        )
    }

    /// Copies so many items from one address to another of this memory, as by lifting all of them
    /// and then lowering them, however the two regions overlap. Takes no memory.
    pub fn copy_within(&mut self, from: u32, to: u32, payload: Payload, count: ItemCount)
        requires number_or_none { IsTrue (is_number_or_none payload) }
        requires from_inside { from + item_size (item_type payload) * count
            ≤ length self.old.bytes }
        requires to_inside { to + item_size (item_type payload) * count ≤ length self.old.bytes }
        ensures { IsSomeAnd (items_at (item_type payload) self.old.bytes from count)
            (λ xs. self.new
            ≡ with_contents self.old (stored_at (item_type payload) self.old.bytes to xs)) }
    {
        copy_within_items(self.bytes_mut(), from, to, payload, count);
    }

    /// Appends so many items from an address on.
    pub fn lift(
        &self,
        address: u32,
        payload: Payload,
        count: ItemCount,
        out: &mut Vec<Value>,
    ) -> Result<(), LiftError>
        requires { address + item_size (item_type payload) * count ≤ length self.now.bytes }
        ensures ok { OnOk result (IsSomeAnd
            (items_at (item_type payload) self.now.bytes address count)
            (λ xs. out.new.items ≡ out.old.items ++ xs)) }
        ensures bad_item { (index : ℕ) → IsErrOf result (LiftError.BadItem index) →
            IsFirstBadItem (item_type payload) (drop address self.now.bytes) count index }
        ensures out_of_memory { IsErrOf result LiftError.OutOfMemory →
            vec_capacity out.old < vec_len out.old + count }
        ensures err { OnErr result (out.new.items ≡ out.old.items) }
    {
        lift_from(
            self.bytes(),
            address as usize,
            &payload,
            count.as_u32(),
            out,
        )
    }

    /// Stores items from an address on, one after the other. Padding stays. Takes no memory.
    pub fn lower(&mut self, address: u32, items: &[Value], payload: Payload)
        requires fit { AreItems (item_type payload) items.now }
        requires holds { address
            + item_size (item_type payload) * length items.now ≤ length self.old.bytes }
        ensures { self.new ≡ with_contents self.old
            (stored_at (item_type payload) self.old.bytes address items.now) }
    {
        lower_from(items, &payload, self.bytes_mut(), address as usize);
    }
}
