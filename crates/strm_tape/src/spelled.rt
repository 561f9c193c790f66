//! Records of a host writer, kept as they are spelled: in one piece of memory, which copies share.
//!
//! Meaning: `Spelled.antt`. Source: ours.

ghost use Rattle.std.specs.Prelude.{◌≡◌, ◌<◌, ◌∷◌, All, length, IfOk, IfSome, OnErr};
ghost use Rattle.std.specs.List.{flat_map};
ghost use Rattle.std.specs.Option.{option_map};
ghost use Rattle.strm_lines.specs.Grammar.{IsU32};
ghost use Rattle.strm_tape.specs.Spelling.{IsWriterRecord, writer_record_bytes};
ghost use Rattle.strm_tape.specs.Reading.{many, read_writer_record};

use crate::lists::after_records;
use crate::parts::are_bytes;
use crate::records::writer_record;
use crate::taping::put_writer_records;
use bytes::Bytes;
use std::alloc::Global;
use std::marker::Model;
use strm_buffers::said::WriterSaid;
use strm_codes::counts::OutOfMemory;
use strm_codes::payloads::Payload;

// So many records of host writers of one payload. Nothing stands behind the last.
#[derive(Drop)]
pub(crate) struct SpelledRecords {
    payload: Payload,
    count: u32,
    bytes: Bytes,
}

impl Model for SpelledRecords {
    ghost use Rattle.strm_tape.specs.Spelled.{Recorded, recorded_in, AreSpelledRecords};

    ghost Value = { Recorded };

    ghost view = { λ r. recorded_in r.payload r.count r.bytes };

    ghost invariant = { λ r. AreSpelledRecords r.payload r.count r.bytes };
}

impl SpelledRecords {
    // So many at the front of these bytes, copied in one piece, and what follows them. After
    // `OutOfMemory` nothing was kept.
    pub(crate) fn read<'a>(
        alloc: Global,
        payload: &Payload,
        count: u32,
        bytes: &'a [u8],
    ) -> Result<Option<(SpelledRecords, &'a [u8])>, OutOfMemory>
        ensures payload { IfOk result (λ found. IfSome found (λ p. p.0.payload ≡ payload.now)) }
        ensures said { IfOk result (λ found. option_map (λ p. (p.0.said, p.1.now)) found
            ≡ many (read_writer_record payload.now) count bytes.now) }
    {
        are_bytes(bytes);
        let Some(rest) = after_records(alloc, payload, count, bytes)? else {
            return Ok(None);
        };
        let (front, _) = bytes.split_at(bytes.len() - rest.len());
        let bytes = copied(alloc, front)?;
        Ok(Some((
            SpelledRecords {
                payload: *payload,
                count,
                bytes,
            },
            rest,
        )))
    }

    // These records. After `OutOfMemory` nothing was kept.
    pub(crate) fn of(
        alloc: Global,
        payload: &Payload,
        said: &[WriterSaid],
    ) -> Result<SpelledRecords, OutOfMemory>
        requires few { IsU32 (length said.now) }
        requires each { All (IsWriterRecord payload.now) said.now }
        ensures payload { IfOk result (λ records. records.payload ≡ payload.now) }
        ensures said { IfOk result (λ records. records.said ≡ said.now) }
    {
        let bytes = spelled(alloc, said)?;
        Ok(SpelledRecords {
            payload: *payload,
            count: said.len() as u32,
            bytes,
        })
    }

    // How many there are.
    pub(crate) fn len(&self) -> u32
        ensures { result ≡ length self.now.said }
    {
        are_bytes(self.bytes.as_slice());
        self.count
    }

    // Each can be spelled: what a caller may have to know of them. It does nothing.
    pub(crate) fn sound(&self)
        ensures { All (IsWriterRecord self.now.payload) self.now.said }
    {
        are_bytes(self.bytes.as_slice());
    }

    // The bytes that spell them, lent.
    pub(crate) fn as_slice(&self) -> &[u8]
        ensures { result.now ≡ flat_map writer_record_bytes self.now.said }
    {
        let bytes = self.bytes.as_slice();
        are_bytes(bytes);
        bytes
    }

    // The same records, in the same memory. After `OutOfMemory` nothing was kept.
    pub(crate) fn copy(&self) -> Result<SpelledRecords, OutOfMemory>
        ensures { IfOk result (λ copy. copy ≡ self.now) }
    {
        match self.bytes.clone() {
            Ok(bytes) => Ok(SpelledRecords {
                payload: self.payload,
                count: self.count,
                bytes,
            }),
            Err(_) => Err(OutOfMemory),
        }
    }

    // Takes the first off. After `OutOfMemory` nothing has changed.
    pub(crate) fn take_first(&mut self, alloc: Global) -> Result<WriterSaid, OutOfMemory>
        requires { 0 < length self.old.said }
        ensures ok { IfOk result (λ first. self.old.said ≡ first ∷ self.new.said) }
        ensures payload { self.new.payload ≡ self.old.payload }
        ensures err { OnErr result (self.new ≡ self.old) }
    {
        let bytes = self.bytes.as_slice();
        are_bytes(bytes);
        let Some((first, rest)) = writer_record(alloc, self.payload, bytes)? else {
            unreachable!();
        };
        let done = bytes.len() - rest.len();
        self.bytes.advance(done);
        self.count -= 1;
        Ok(first)
    }
}

// The bytes that spell these records, which may be shared.
fn spelled(alloc: Global, said: &[WriterSaid]) -> Result<Bytes, OutOfMemory>
    ensures { IfOk result (λ bytes. bytes ≡ flat_map writer_record_bytes said.now) }
{
    let mut written = Vec::new(alloc);
    put_writer_records(&mut written, said)?;
    shared(written)
}

// A copy of bytes that may be shared.
fn copied(alloc: Global, bytes: &[u8]) -> Result<Bytes, OutOfMemory>
    ensures { IfOk result (λ copy. copy ≡ bytes.now) }
{
    match Vec::from_slice(alloc, bytes) {
        Ok(copy) => shared(copy),
        Err(_) => Err(OutOfMemory),
    }
}

// The same bytes, which may be shared.
fn shared(bytes: Vec<u8>) -> Result<Bytes, OutOfMemory>
    ensures { IfOk result (λ same. same ≡ bytes.items) }
{
    match Bytes::from_vec(bytes) {
        Ok(same) => Ok(same),
        Err(_) => Err(OutOfMemory),
    }
}
