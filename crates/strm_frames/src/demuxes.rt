//! The demux: a stream in any pieces, taken apart into its lanes.
//!
//! Meaning: `Demuxes.antt`, over `Streams.antt`. Ours.

ghost use Rattle.std.specs.Prelude.{◌≡◌, ◌≢◌, ◌<◌, ◌++◌, ◌⊎◌, ◌≤◌, ℕ, List, [], false, length, drop, slice_index_or, Option, Some, None, Err, OnOk, All};
ghost use Rattle.strm_frames.specs.Streams.{Faults};
ghost use Rattle.strm_frames.specs.Demuxes.{LanesHeard, IsDemuxFed, error_of};
ghost use Rattle.strm_frames.specs.declared.errors.Fault.{Fault};

use crate::errors::{Fault, MuxError};
use crate::muxes::no_ends;
use crate::taking::{complete, put_both, survey_both};
use std::alloc::Global;
use std::array;
use std::marker::Model;

/// What a stream in pieces tells its lanes. It keeps each lane's bytes, and less than one frame more.
#[derive(Drop)]
pub struct Demux {
    lanes: [Vec<u8>; 256],
    ended: [bool; 256],
    rest: Vec<u8>,
    place: u64,
    fault: Option<Fault>,
}

impl Model for Demux {
    ghost use Rattle.std.specs.Prelude.{map};
    ghost use Rattle.strm_frames.specs.Demuxes.{LanesHeard};
    ghost use Rattle.strm_frames.specs.Streams.{IsPartOfFrame};

    ghost Value = { LanesHeard };

    ghost view = { λ d. record {
      lanes = map (λ v. v.items) d.lanes;
      ended = d.ended;
      rest = d.rest.items;
      place = d.place;
      fault = d.fault;
    } };

    ghost invariant = { λ d. IsPartOfFrame d.rest.items };
}

impl Demux {
    /// A demux that has heard nothing. It takes no memory.
    pub fn new(alloc: Global) -> Demux
        ensures fed { IsDemuxFed result [] }
        ensures well { result.fault ≡ None }
    {
        Demux {
            lanes: empty_lanes(alloc),
            ended: no_ends(),
            rest: Vec::new(alloc),
            place: 0,
            fault: None,
        }
    }

    /// Takes the next piece of the stream, whatever its length. A fault takes nothing of the piece, and
    /// each later feed answers it again; running out of memory changes nothing.
    pub fn feed(&mut self, piece: &[u8]) -> Result<(), MuxError>
        // However the stream was cut: what was fed is all pieces together.
        ensures ok { OnOk result ((bytes : List ℕ) →
            IsDemuxFed self.old bytes → IsDemuxFed self.new (bytes ++ piece.now)) }
        ensures well { OnOk result ((self.old.fault ≡ None) × (self.new.fault ≡ None)) }

        // A fault comes exactly where the stream so far has it, and nothing but that changes.
        ensures fault { (fault : Fault) → self.old.fault ≡ None → result ≡ Err (error_of fault) →
            (self.new ≡ record self.old { fault = Some fault })
            × ((bytes : List ℕ) → IsDemuxFed self.old bytes → Faults (bytes ++ piece.now) fault) }
        ensures exact { (bytes : List ℕ) (fault : Fault) → self.old.fault ≡ None →
            IsDemuxFed self.old bytes → Faults (bytes ++ piece.now) fault →
            (result ≡ Err (error_of fault)) ⊎ (result ≡ Err MuxError.OutOfMemory) }
        ensures again { (fault : Fault) → self.old.fault ≡ Some fault →
            (result ≡ Err (error_of fault)) × (self.new ≡ self.old) }
        ensures memory { result ≡ Err MuxError.OutOfMemory → self.new ≡ self.old }
        ensures known { (lane : ℕ) → result ≢ Err (MuxError.Ended lane) }
    {
        self.take_piece(piece)
    }

    // The same, of which `feed` says more.
    fn take_piece(&mut self, piece: &[u8]) -> Result<(), MuxError>
        // However the stream was cut: what was fed is all pieces together.
        ensures ok { OnOk result ((bytes : List ℕ) →
            IsDemuxFed self.old bytes → IsDemuxFed self.new (bytes ++ piece.now)) }
        ensures well { OnOk result ((self.old.fault ≡ None) × (self.new.fault ≡ None)) }

        // A fault comes exactly where the stream so far has it, and nothing but that changes.
        ensures fault { (fault : Fault) → self.old.fault ≡ None → result ≡ Err (error_of fault) →
            (self.new ≡ record self.old { fault = Some fault })
            × ((bytes : List ℕ) → IsDemuxFed self.old bytes → Faults (bytes ++ piece.now) fault) }
        ensures again { (fault : Fault) → self.old.fault ≡ Some fault →
            (result ≡ Err (error_of fault)) × (self.new ≡ self.old) }
        ensures memory { result ≡ Err MuxError.OutOfMemory → self.new ≡ self.old }
        ensures known { (lane : ℕ) → result ≢ Err (MuxError.Ended lane) }
    {
        if let Some(fault) = self.fault {
            return Err(fault.error());
        }
        let before = self.rest.len();
        let Some(begun) = complete(&mut self.rest, piece)? else {
            return Ok(());
        };
        let (_begun, more) = piece.split_at(begun);
        let first = self.rest.len();
        let mut ended = self.ended;
        match survey_both(&self.rest, more, self.place, &mut ended) {
            Err(fault) => {
                self.rest.truncate(before);
                self.fault = Some(fault);
                Err(fault.error())
            }
            Ok(used) => {
                if !put_both(&mut self.lanes, &mut self.rest, more, used) {
                    self.rest.truncate(before);
                    return Err(MuxError::OutOfMemory);
                }
                self.ended = ended;
                self.place = self.place.saturating_add((first + used) as u64);
                Ok(())
            }
        }
    }

    /// The bytes of a lane so far.
    pub fn lane(&self, lane: u8) -> &[u8]
        ensures { result.now ≡ slice_index_or self.now.lanes lane [] }
    {
        self.lanes[lane as usize].as_slice()
    }

    /// Whether a lane has ended.
    pub fn ended(&self, lane: u8) -> bool
        ensures { result ≡ slice_index_or self.now.ended lane false }
    {
        self.ended[lane as usize]
    }

    /// How many bytes of the next frame have come.
    pub fn rest(&self) -> usize
        ensures exact { result ≡ length self.now.rest }
        ensures few { result < 258 }
    {
        self.rest.len()
    }
}

// So many lists without an item.
fn empty_lanes(alloc: Global) -> [Vec<u8>; 256]
    ensures { All (λ v. v.items ≡ []) result }
{
    array::from_fn(
        |_lane: usize| -> Vec<u8>
            ensures { result.items ≡ [] }
        { Vec::new(alloc) },
    )
}
