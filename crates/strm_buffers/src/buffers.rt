//! Buffers that host ends write from and read into. What is moved, followed by the rest, is what was
//! there. No call but `take_all` takes memory.
//!
//! Source: wasmtime, `futures_and_streams/buffers.rs`, `WriteBuffer` and `ReadBuffer`.

ghost use Rattle.std.specs.Prelude.{◌≡◌, ◌+◌, ◌-◌, ◌<◌, ◌≤◌, [], ◌∷◌, ◌++◌, length, take, drop, vec_len, vec_capacity, IfOk, OnOk, OnErr};
ghost use Rattle.std.specs.Mem.{FitsInMemory};

use std::alloc::Global;
use strm_codes::counts::OutOfMemory;

/// What items are taken from, in order.
pub trait WriteBuffer<T> {
    ghost use Rattle.std.specs.Prelude.{List};

    // The items that are left.
    ghost items: { Self → List T };

    /// A buffer with no items. Grows nothing.
    fn empty(alloc: Global) -> Self
        ensures { items result ≡ [] };

    /// The items that are left. The size of one must fit in memory, as that of every type of items
    /// does.
    fn remaining(&self) -> &[T]
        requires { FitsInMemory T.row }
        ensures { result.now ≡ items self.now };

    /// How many items are left. Unlike `remaining` it asks nothing of their size.
    fn len(&self) -> usize
        ensures { result ≡ length (items self.now) };

    /// Takes so many items off the front.
    fn skip(&mut self, count: usize)
        requires { count ≤ length (items self.old) }
        ensures { items self.new ≡ drop count (items self.old) };

    /// Moves so many items from the front to the end of `out`, which has room for them.
    fn take(&mut self, count: usize, out: &mut Vec<T>)
        requires items { count ≤ length (items self.old) }
        requires room { vec_len out.old + count ≤ vec_capacity out.old }
        ensures moved { out.new.items ≡ out.old.items ++ take count (items self.old) }
        ensures rest { items self.new ≡ drop count (items self.old) }
        ensures capacity { vec_capacity out.old ≤ vec_capacity out.new };

    /// Moves all items out, into a vector of their own. The one call that may take memory. After
    /// `OutOfMemory` nothing has changed.
    fn take_all(&mut self, alloc: Global) -> Result<Vec<T>, OutOfMemory>
        ensures taken { IfOk result (λ all. all.items ≡ items self.old) }
        ensures rest { OnOk result (items self.new ≡ []) }
        ensures err { OnErr result (items self.new ≡ items self.old) }
    {
        let count = self.len();
        let mut all = Vec::with_capacity(alloc, count)?;
        self.take(count, &mut all);
        Ok(all)
    }

    /// Moves the first item out.
    fn take_first(&mut self) -> T
        requires { 0 < length (items self.old) }
        ensures { items self.old ≡ result ∷ items self.new };
}

/// What items are put into, in order.
pub trait ReadBuffer<T> {
    ghost use Rattle.std.specs.Prelude.{ℕ, List};

    // The items that were put.
    ghost items: { Self → List T };

    // How many more there is room for.
    ghost room: { Self → ℕ };

    /// How many more items there is room for.
    fn remaining_capacity(&self) -> usize
        ensures { result ≡ room self.now };

    /// Puts items behind those that are there.
    fn extend(&mut self, more: Vec<T>)
        requires { length more.items ≤ room self.old }
        ensures items { items self.new ≡ items self.old ++ more.items }
        ensures room { room self.old ≤ room self.new + length more.items };

    /// Moves so many items from the front of `input` behind those that are there.
    fn move_from<W: WriteBuffer<T>>(&mut self, input: &mut W, count: usize)
        requires there { count ≤ length (W.items input.old) }
        requires fits { count ≤ room self.old }
        ensures moved { items self.new ≡ items self.old ++ take count (W.items input.old) }
        ensures rest { W.items input.new ≡ drop count (W.items input.old) }
        ensures room { room self.old ≤ room self.new + count };
}

impl<T: Drop> WriteBuffer<T> for Option<T> {
    ghost use Rattle.strm_buffers.specs.Buffers.{option_items};

    ghost items = { option_items };

    fn empty(_alloc: Global) -> Option<T> {
        None
    }

    fn remaining(&self) -> &[T] {
        self.as_slice()
    }

    fn len(&self) -> usize {
        match self {
            Some(_) => 1,
            None => 0,
        }
    }

    fn skip(&mut self, count: usize) {
        if count > 0 {
            *self = None;
        }
    }

    fn take(&mut self, count: usize, out: &mut Vec<T>) {
        if count > 0 {
            out.push_reserved(<Option<T> as WriteBuffer<T>>::take_first(self));
        }
    }

    fn take_first(&mut self) -> T {
        match Option::take(self) {
            Some(item) => item,
            None => unreachable!(),
        }
    }
}

impl<T: Drop> ReadBuffer<T> for Option<T> {
    ghost use Rattle.strm_buffers.specs.Buffers.{option_items, option_room};

    ghost items = { option_items };

    ghost room = { option_room };

    fn remaining_capacity(&self) -> usize {
        match self {
            Some(_) => 0,
            None => 1,
        }
    }

    fn extend(&mut self, mut more: Vec<T>)
        requires { length more.items ≤ option_room self.old }
        ensures items { option_items self.new ≡ option_items self.old ++ more.items }
        ensures room { option_room self.old ≤ option_room self.new + length more.items }
    {
        if let Some(item) = more.pop() {
            *self = Some(item);
        }
    }

    fn move_from<W: WriteBuffer<T>>(&mut self, input: &mut W, count: usize) {
        if count > 0 {
            *self = Some(input.take_first());
        }
    }
}

impl<T: Drop> ReadBuffer<T> for Vec<T> {
    ghost items = { λ v. v.items };

    ghost room = { λ v. vec_capacity v - vec_len v };

    fn remaining_capacity(&self) -> usize {
        self.capacity() - self.len()
    }

    fn extend(&mut self, mut more: Vec<T>)
        requires { length more.items ≤ vec_capacity self.old - vec_len self.old }
        ensures items { self.new.items ≡ self.old.items ++ more.items }
        ensures room { vec_capacity self.old - vec_len self.old
            ≤ vec_capacity self.new - vec_len self.new + length more.items }
    {
        match self.append(&mut more) {
            Ok(()) => {}
            Err(_) => unreachable!(),
        }
    }

    fn move_from<W: WriteBuffer<T>>(&mut self, input: &mut W, count: usize) {
        input.take(count, self);
    }
}
