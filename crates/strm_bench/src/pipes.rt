//! Times of pipes from a host writer to a host reader.

ghost use Rattle.strm_host_machine.specs.Does.{Fits};

use crate::ends::of_both;
use crate::hosted::{BYTES, LISTED, list};
use crate::piped::{Piping, ROUNDS};
use crate::{tell_count, tell_error, tell_time};
use std::io;
use std::time::Instant;
use strm_codes::codes::TransmitKind;
use strm_host::erased::Erased;
use strm_host::erased_readers::ErasedReader;
use strm_host_tests::copying::Copying;
use strm_program_ends::credit_reader::CreditReader;
use strm_program_ends::queue_writer::QueueWriter;
use strm_transmit::host_ends::HostEnds;

/// A list of 64 MiB that a host writer gives, piped to a consumer.
pub(crate) fn time_list(rt: &HostRuntime) -> io::Result<()> {
    let alloc = rt.alloc();
    let writer = Erased::stream(alloc, list(alloc, LISTED)?);
    let bytes = Vec::with_capacity(alloc, LISTED as usize)?;
    let reader = ErasedReader::stream(alloc, Copying { bytes });
    let mut hosts = of_both(alloc, Box::new(alloc, writer)?, Box::new(alloc, reader)?)?;
    match Piping::new(alloc, &mut hosts) {
        Ok(mut piping) => time_piping(rt, &mut piping, &mut hosts, None),
        Err(error) => tell_error(rt, error),
    }
}

/// Rounds of a pipe, in each of which 64 bytes pass.
pub(crate) fn time_rounds(rt: &HostRuntime) -> io::Result<()> {
    let alloc = rt.alloc();
    let queue = QueueWriter::new(alloc, TransmitKind::Stream, BYTES);
    let credit = CreditReader::new(alloc, TransmitKind::Stream, BYTES);
    let mut hosts = of_both(alloc, Box::new(alloc, queue)?, Box::new(alloc, credit)?)?;
    match Piping::new(alloc, &mut hosts) {
        Ok(mut piping) => time_piping(rt, &mut piping, &mut hosts, Some(ROUNDS)),
        Err(error) => tell_error(rt, error),
    }
}

fn time_piping<H: HostEnds>(
    rt: &HostRuntime,
    piping: &mut Piping,
    hosts: &mut H,
    feeds: Option<u32>,
) -> io::Result<()>
    requires { Fits piping.old.store (H.tells hosts.old) }
{
    let start = Instant::now(rt)?;
    let done = piping.work(hosts, feeds);
    let spent = start.elapsed(rt)?.as_nanos();
    match (done, feeds) {
        (Err(error), _) => tell_error(rt, error),
        (Ok(()), Some(rounds)) => {
            tell_count(rt, "passed on", piping.passed())?;
            let round = spent / u128::from(rounds).max(1);
            tell_time(rt, "a round of a pipe of 64 bytes", round, "ns")
        }
        (Ok(()), None) => {
            tell_count(rt, "piped", piping.passed())?;
            tell_time(rt, "a pipe of 64 MiB", spent, "ns")
        }
    }
}
