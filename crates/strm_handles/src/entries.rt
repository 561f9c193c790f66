//! What a handle stands for.
//!
//! Source: wasmtime, `handle_table.rs`, `Slot`, `TypedResource`, `TypedResourceIndex`,
//! `TransmitLocalState`, `RemovedResource`, `Waitable`; Canonical ABI, "Table State".

ghost use Rattle.std.specs.Prelude.{◌≡◌, Ok, Err, IfOk, IfErr};

use crate::errors::HandleError;
use strm_codes::payloads::Payload;

/// 2^28: the first number that no handle has. Nor has one the number 0.
pub const MAX_HANDLE: u32 = 268_435_456;

/// The call that a resource is lent for.
#[derive(Clone, Copy, Debug, PartialEq, Eq)]
pub struct Scope(pub u32);

/// A resource: its type, and the number that stands for it on the host.
#[derive(Clone, Copy, Debug, PartialEq, Eq)]
pub struct TypedResource {
    pub ty: u32,
    pub rep: u32,
}

impl TypedResource {
    ghost use Rattle.strm_handles.specs.Lookups.{typed_rep};

    pub fn new(ty: u32, rep: u32) -> TypedResource
        ensures { result ≡ record { ty = ty; rep = rep } }
    {
        TypedResource { ty, rep }
    }

    #[inline(always)]
    pub(crate) fn typed_rep(&self, ty: u32) -> Result<u32, HandleError>
        ensures { result ≡ typed_rep ty self.now }
    {
        if self.ty == ty {
            Ok(self.rep)
        } else {
            Err(HandleError::WrongType)
        }
    }
}

/// A handle that is to stand for a resource of this type.
#[derive(Clone, Copy, Debug, PartialEq, Eq)]
pub struct TypedResourceIndex {
    pub ty: u32,
    pub index: u32,
}

impl TypedResourceIndex {
    pub fn new(ty: u32, index: u32) -> TypedResourceIndex
        ensures { result ≡ record { ty = ty; index = index } }
    {
        TypedResourceIndex { ty, index }
    }

    /// The handle's number.
    pub fn raw_index(&self) -> u32
        ensures { result ≡ self.now.index }
    {
        self.index
    }
}

/// Which end of a stream or future a handle is, and whether it has an operation.
#[derive(Clone, Copy, Debug, PartialEq, Eq)]
pub enum TransmitLocalState {
    /// The write end, idle. Done: it was told that the read end is gone.
    Write { done: bool },
    /// The read end, idle. Done: it was told that the write end is gone.
    Read { done: bool },
    /// The read end or the write end, with an operation.
    Busy { reading: bool },
}

impl TransmitLocalState {
    ghost use Rattle.strm_handles.specs.Ends.{readable, writable};

    /// Whether an idle read end is done.
    #[inline(always)]
    pub(crate) fn readable(&self) -> Result<bool, HandleError>
        ensures { result ≡ readable self.now }
    {
        match self {
            TransmitLocalState::Read { done } => Ok(*done),
            TransmitLocalState::Busy { reading: true } => Err(HandleError::Busy),
            _ => Err(HandleError::WrongEnd),
        }
    }

    /// Whether an idle write end is done.
    #[inline(always)]
    pub(crate) fn writable(&self) -> Result<bool, HandleError>
        ensures { result ≡ writable self.now }
    {
        match self {
            TransmitLocalState::Write { done } => Ok(*done),
            TransmitLocalState::Busy { reading: false } => Err(HandleError::Busy),
            _ => Err(HandleError::WrongEnd),
        }
    }
}

/// An end of a stream or future, as a table keeps it. `rep` is the stream's or future's number.
#[derive(Clone, Copy, Debug)]
pub struct TransmitEnd {
    pub rep: u32,
    pub ty: Payload,
    pub state: TransmitLocalState,
}

impl TransmitEnd {
    ghost use Rattle.strm_handles.specs.Ends.{read_end, write_end};
    ghost use Rattle.strm_handles.specs.Lookups.{end_typed};

    /// A new read end.
    #[inline(always)]
    pub(crate) fn read(ty: Payload, rep: u32) -> TransmitEnd
        ensures { result ≡ read_end ty rep }
    {
        TransmitEnd {
            rep,
            ty,
            state: TransmitLocalState::Read { done: false },
        }
    }

    /// A new write end.
    #[inline(always)]
    pub(crate) fn write(ty: Payload, rep: u32) -> TransmitEnd
        ensures { result ≡ write_end ty rep }
    {
        TransmitEnd {
            rep,
            ty,
            state: TransmitLocalState::Write { done: false },
        }
    }

    #[inline(always)]
    pub(crate) fn typed(&self, ty: &Payload) -> Result<&TransmitEnd, HandleError>
        ensures ok { IfOk result (λ end. end_typed ty.now self.now ≡ Ok end.now) }
        ensures err { IfErr result (λ e. end_typed ty.now self.now ≡ Err e) }
    {
        let same = match (&self.ty, ty) {
            (Payload::One(mine), Payload::One(other)) => mine == other,
            // A copy, so that only tuples go through memory.
            (_, other) => {
                let other = *other;
                self.ty == other
            }
        };
        if same {
            Ok(self)
        } else {
            Err(HandleError::WrongType)
        }
    }
}

/// What a handle stands for. A `rep` is the number by which the host knows it.
#[derive(Clone, Copy, Debug)]
pub enum Entry {
    /// A resource that the guest owns, and how often it is lent at the moment.
    ResourceOwn {
        resource: TypedResource,
        lend_count: u32,
    },
    /// A resource that is lent to the guest.
    ResourceBorrow {
        resource: TypedResource,
        scope: Scope,
    },
    /// An end of a stream.
    Stream(TransmitEnd),
    /// An end of a future.
    Future(TransmitEnd),
    ErrorContext {
        rep: u32,
    },
    /// A task of a guest or of the host.
    Subtask {
        rep: u32,
        is_host: bool,
    },
    WaitableSet {
        rep: u32,
    },
}

/// What a handle stood for that was removed.
#[derive(Clone, Copy, Debug, PartialEq, Eq)]
pub enum RemovedResource {
    Own { rep: u32 },
    Borrow { scope: Scope },
}

/// What may be waited for.
#[derive(Clone, Copy, Debug, PartialEq, Eq)]
pub enum Waitable {
    Subtask { is_host: bool },
    Future,
    Stream,
}
