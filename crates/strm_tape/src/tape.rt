//! Tapes: the steps of a run, and what its host ends recorded.
//!
//! Source: ours.

ghost use Rattle.std.specs.Prelude.{◌≡◌, ◌<◌, ◌∷◌, All, length, slice_get, Some, IfOk, OnErr};
ghost use Rattle.strm_codes.specs.Types.{payload_of};
ghost use Rattle.strm_lines.specs.Grammar.{IsU32};
ghost use Rattle.strm_tape.specs.Spelling.{IsWriterRecord, IsWriterTape, IsTape, tape_with};

use crate::spelled::SpelledRecords;
use crate::tapable::sound_type;
use std::alloc::Global;
use std::marker::Model;
use strm_buffers::answers::ReaderSaid;
use strm_buffers::said::WriterSaid;
use strm_codes::codes::TransmitIndex;
use strm_codes::counts::OutOfMemory;
use strm_machine::steps::Step;

/// What a tape has of a host writer: its type, and its records in order, which are kept in one piece of
/// memory.
#[derive(Drop)]
pub struct WriterTape {
    pub(crate) ty: TransmitIndex,
    pub(crate) records: SpelledRecords,
}

impl Model for WriterTape {
    ghost use Rattle.std.specs.Prelude.{◌≡◌};
    ghost use Rattle.strm_codes.specs.Types.{payload_of};
    ghost use Rattle.strm_tape.specs.Spelling.{WriterTape};

    ghost Value = { WriterTape };

    ghost view = { λ w. record { ty = w.ty; said = w.records.said } };

    ghost invariant = { λ w. w.records.payload ≡ payload_of w.ty };
}

impl WriterTape {
    /// A host writer of this type, and these records. After `OutOfMemory` nothing was kept.
    pub fn new(
        alloc: Global,
        ty: TransmitIndex,
        said: &[WriterSaid],
    ) -> Result<WriterTape, OutOfMemory>
        requires few { IsU32 (length said.now) }
        requires each { All (IsWriterRecord (payload_of ty)) said.now }
        ensures ty { IfOk result (λ writer. writer.ty ≡ ty) }
        ensures said { IfOk result (λ writer. writer.said ≡ said.now) }
    {
        let records = SpelledRecords::of(alloc, &ty.payload(), said)?;
        Ok(WriterTape { ty, records })
    }

    /// Its type.
    pub fn ty(&self) -> TransmitIndex
        ensures { result ≡ self.now.ty }
    {
        self.ty
    }

    /// How many records there are.
    pub fn len(&self) -> u32
        ensures { result ≡ length self.now.said }
    {
        self.records.len()
    }

    /// It can be spelled: what a caller may have to know of it. It does nothing.
    pub fn sound(&self)
        ensures { IsWriterTape self.now }
    {
        sound_type(&self.ty);
        self.records.sound();
        let _few = self.records.len();
    }

    /// A copy, in the same memory. After `OutOfMemory` nothing was kept.
    pub fn copy(&self) -> Result<WriterTape, OutOfMemory>
        ensures { IfOk result (λ writer. writer ≡ self.now) }
    {
        let records = self.records.copy()?;
        Ok(WriterTape {
            ty: self.ty,
            records,
        })
    }

    /// Takes the first record off. After `OutOfMemory` nothing has changed.
    pub fn take_first(&mut self, alloc: Global) -> Result<WriterSaid, OutOfMemory>
        requires { 0 < length self.old.said }
        ensures ok { IfOk result (λ first. self.old.said ≡ first ∷ self.new.said) }
        ensures ty { self.new.ty ≡ self.old.ty }
        ensures err { OnErr result (self.new ≡ self.old) }
    {
        self.records.take_first(alloc)
    }
}

/// What a tape has of a host reader: its type, and its records in order.
#[derive(Drop)]
pub struct ReaderTape {
    pub ty: TransmitIndex,
    pub said: Vec<ReaderSaid>,
}

impl Model for ReaderTape {
    ghost use Rattle.strm_tape.specs.Spelling.{ReaderTape};

    ghost Value = { ReaderTape };

    ghost view = { λ r. record { ty = r.ty; said = r.said.items } };
}

/// A run on tape: at most 2^32 - 1 steps, and of at most 64 host writers and 64 host readers each its
/// type and its records. Every tape has a spelling (`tape_bytes`), and no other tape has it.
#[derive(Drop)]
pub struct Tape {
    pub(crate) steps: Vec<Step>,
    pub(crate) writers: Vec<WriterTape>,
    pub(crate) readers: Vec<ReaderTape>,
}

impl Model for Tape {
    ghost use Rattle.strm_tape.specs.Spelling.{TapeOf, IsTape, tape_with};

    ghost Value = { TapeOf };

    ghost view = { λ t. tape_with t.steps.items t.writers.items t.readers.items };

    ghost invariant = { λ t. IsTape (tape_with t.steps.items t.writers.items t.readers.items) };
}

impl Tape {
    /// The tape of these steps and host ends. Takes no memory.
    pub fn new(steps: Vec<Step>, writers: Vec<WriterTape>, readers: Vec<ReaderTape>) -> Tape
        requires { IsTape (tape_with steps.items writers.items readers.items) }
        ensures steps { result.steps ≡ steps.items }
        ensures writers { result.writers ≡ writers.items }
        ensures readers { result.readers ≡ readers.items }
    {
        Tape {
            steps,
            writers,
            readers,
        }
    }

    /// The steps.
    pub fn steps(&self) -> &[Step]
        ensures { result.now ≡ self.now.steps }
    {
        &self.steps
    }

    /// How many host writers there are, at most 64.
    pub fn writers(&self) -> u32
        ensures { result ≡ length self.now.writers }
    {
        self.writers.len() as u32
    }

    /// How many host readers there are, at most 64.
    pub fn readers(&self) -> u32
        ensures { result ≡ length self.now.readers }
    {
        self.readers.len() as u32
    }

    /// What it has of a host writer, by its number.
    pub fn writer(&self, number: u32) -> &WriterTape
        requires { number < length self.now.writers }
        ensures { slice_get self.now.writers number ≡ Some result.now }
    {
        &self.writers[number as usize]
    }

    /// What it has of a host reader, by its number.
    pub fn reader(&self, number: u32) -> &ReaderTape
        requires { number < length self.now.readers }
        ensures { slice_get self.now.readers number ≡ Some result.now }
    {
        &self.readers[number as usize]
    }

    /// It can be spelled: what a caller may have to know of it. It does nothing.
    pub fn sound(&self)
        ensures { IsTape self.now }
    {
        let _ = &self.steps;
    }
}
