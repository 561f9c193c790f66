//! The mux: bytes of many lanes, written as frames.
//!
//! Meaning: `Muxes.antt`, over `Frames.antt`. Ours.

ghost use Rattle.std.specs.Prelude.{◌≡◌, ◌≢◌, ◌<◌, ◌++◌, ◌∷◌, ◌≤◌, ◌↔◌, ◌⊎◌, ℕ, List, [], true, false, length, take, drop, slice_index_or, slice_set, Err, OnOk, OnErr, IsTrue, IsErr};
ghost use Rattle.strm_frames.specs.Demuxes.{are_unset};
ghost use Rattle.strm_frames.specs.Frames.{Frame, Data, End, spelled, encoding};
ghost use Rattle.strm_frames.specs.Streams.{AreWhole};
ghost use Rattle.strm_frames.specs.Muxes.{Written, pieces_of, MuxCarries};

use crate::errors::MuxError;
use std::alloc::Global;
use std::marker::Model;

// The most bytes of a data frame.
const MOST: usize = 255;

/// Lanes on their way onto one stream.
#[derive(Drop)]
pub struct Mux {
    bytes: Vec<u8>,
    ended: [bool; 256],
}

impl Model for Mux {
    ghost use Rattle.strm_frames.specs.Muxes.{Written, IsMux};

    ghost Value = { Written };

    ghost view = { λ m. record {
      bytes = m.bytes.items;
      ended = m.ended;
    } };

    ghost invariant = { λ m. IsMux (record {
      bytes = m.bytes.items;
      ended = m.ended;
    }) };
}

impl Mux {
    /// A mux that was given nothing. It takes no memory.
    pub fn new(alloc: Global) -> Mux
        ensures bytes { result.bytes ≡ [] }
        ensures carries { MuxCarries result [] }
    {
        Mux {
            bytes: Vec::new(alloc),
            ended: no_ends(),
        }
    }

    /// Puts bytes on a lane, in data frames of 255 bytes and one for the rest; none for no bytes.
    pub fn put(&mut self, lane: u8, bytes: &[u8]) -> Result<(), MuxError>
        ensures ok { OnOk result (self.new ≡ record self.old {
          bytes = self.old.bytes ++ encoding (pieces_of lane bytes.now);
        }) }
        ensures carries { (given : List Frame) → MuxCarries self.old given →
            OnOk result (MuxCarries self.new (given ++ Data lane bytes.now ∷ [])) }
        ensures ended { (result ≡ Err (MuxError.Ended lane))
            ↔ (slice_index_or self.old.ended lane false ≡ true) }
        ensures known { IsErr result →
            (result ≡ Err (MuxError.Ended lane)) ⊎ (result ≡ Err MuxError.OutOfMemory) }
        ensures takes_no_memory { bytes.now ≡ [] → result ≢ Err MuxError.OutOfMemory }
        ensures err { OnErr result (self.new ≡ self.old) }
    {
        if self.ended[lane as usize] {
            return Err(MuxError::Ended { lane });
        }
        let before = self.bytes.len();
        if push_frames(&mut self.bytes, lane, bytes) {
            return Ok(());
        }
        self.bytes.truncate(before);
        Err(MuxError::OutOfMemory)
    }

    /// Ends a lane.
    pub fn end(&mut self, lane: u8) -> Result<(), MuxError>
        ensures ok { OnOk result (self.new ≡ record {
          bytes = self.old.bytes ++ spelled (End lane);
          ended = slice_set self.old.ended lane true;
        }) }
        ensures carries { (given : List Frame) → MuxCarries self.old given →
            OnOk result (MuxCarries self.new (given ++ End lane ∷ [])) }
        ensures ended { (result ≡ Err (MuxError.Ended lane))
            ↔ (slice_index_or self.old.ended lane false ≡ true) }
        ensures known { IsErr result →
            (result ≡ Err (MuxError.Ended lane)) ⊎ (result ≡ Err MuxError.OutOfMemory) }
        ensures err { OnErr result (self.new ≡ self.old) }
    {
        if self.ended[lane as usize] {
            return Err(MuxError::Ended { lane });
        }
        match self.bytes.extend_from_slice(&[1, lane]) {
            Ok(()) => {
                self.ended[lane as usize] = true;
                Ok(())
            }
            Err(_) => Err(MuxError::OutOfMemory),
        }
    }

    /// All frames so far, one after the other.
    pub fn bytes(&self) -> &[u8]
        ensures bytes { result.now ≡ self.now.bytes }
        ensures whole { AreWhole result.now }
    {
        &self.bytes
    }
}

// The flags where no lane has ended.
pub(crate) fn no_ends() -> [bool; 256]
    ensures { are_unset result ≡ true }
{
    [false; 256]
}

// One data frame at the end; where memory has run out, at most a part of it.
fn push_frame(out: &mut Vec<u8>, lane: u8, bytes: &[u8]) -> bool
    requires { length bytes.now < 256 }
    ensures ok { IsTrue result → out.new.items ≡ out.old.items ++ spelled (Data lane bytes.now) }
    ensures err { result ≡ false → (more : List ℕ) × (out.new.items ≡ out.old.items ++ more) }
{
    let head = [0, lane, bytes.len() as u8];
    if out.extend_from_slice(&head).is_err() {
        return false;
    }
    out.extend_from_slice(bytes).is_ok()
}

// The data frames of bytes at the end; where memory has run out, a part of them.
fn push_frames(out: &mut Vec<u8>, lane: u8, bytes: &[u8]) -> bool
    ensures ok { IsTrue result →
        out.new.items ≡ out.old.items ++ encoding (pieces_of lane bytes.now) }
    ensures none { bytes.now ≡ [] → IsTrue result }
    ensures err { result ≡ false → (more : List ℕ) × (out.new.items ≡ out.old.items ++ more) }
{
    let mut rest = bytes;
    'pieces: while !rest.is_empty() {
        let (piece, more) = rest.split_at(rest.len().min(MOST));
        if !push_frame(out, lane, piece) {
            return false;
        }
        rest = more;
    }
    true
}
