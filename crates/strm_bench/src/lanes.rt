//! A demux that is fed a stream of data frames of 255 bytes, in pieces of 1, 64 and 65,536 bytes.

use std::alloc::Global;
use std::io;
use std::time::Instant;
use strm_frames::demuxes::Demux;
use strm_frames::errors::MuxError;
use strm_frames::muxes::Mux;

// The bytes of a data frame, and its own three.
const FRAME: usize = 258;

/// How many bytes a piece has.
const SIZES: [usize; 3] = [1, 64, 65_536];

/// Pieces of each size, of a stream of about so many bytes.
pub(crate) fn time_all(rt: &HostRuntime, bytes: usize) -> io::Result<()> {
    match frames(rt.alloc(), bytes) {
        Ok(mux) => {
            for size in SIZES {
                time_pieces(rt, rt.alloc(), &mux, size)?;
            }
            Ok(())
        }
        Err(error) => eprintln!(rt; "{error:?}"),
    }
}

// A demux is fed the whole stream.
fn time_pieces(rt: &HostRuntime, alloc: Global, mux: &Mux, size: usize) -> io::Result<()> {
    let mut demux = Demux::new(alloc);
    let start = Instant::now(rt)?;
    match feed_all(&mut demux, mux.bytes(), size) {
        Ok(()) => {
            let spent = start.elapsed(rt)?.as_nanos();
            let bytes = heard(&demux);
            println!(rt; "in pieces of {size}: {bytes} bytes in the lanes")?;
            eprintln!(rt; "pieces of {size}: {spent} ns")
        }
        Err(error) => eprintln!(rt; "{error:?}"),
    }
}

// Data frames of 255 bytes, of all lanes in turn, that have about so many bytes.
fn frames(alloc: Global, bytes: usize) -> Result<Mux, MuxError> {
    let data = [7u8; 255];
    let mut mux = Mux::new(alloc);
    for number in 0..bytes / FRAME {
        mux.put((number % 256) as u8, &data)?;
    }
    Ok(mux)
}

// Feeds all bytes, in pieces of this size.
fn feed_all(demux: &mut Demux, bytes: &[u8], size: usize) -> Result<(), MuxError> {
    for piece in bytes.chunks(size.max(1)) {
        demux.feed(piece)?;
    }
    Ok(())
}

// How many bytes all lanes have.
fn heard(demux: &Demux) -> u64 {
    let mut total = 0u64;
    for lane in 0..256usize {
        total = total.saturating_add(demux.lane(lane as u8).len() as u64);
    }
    total
}
