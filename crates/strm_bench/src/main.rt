//! Times what a list of steps cannot time: calls of the store, copies of items, a demux that is fed in pieces, the
//! reading and writing of tapes, and the store that threads share. `words` has what the program's words choose of it.
//!
//! Sums go to standard output and are the same in every run; times go to standard error.
#![tactic(auto)]

mod copies;
mod ends;
mod hosted;
mod lanes;
mod piped;
mod pipes;
mod rounds;
mod sums;
mod taken;
mod tapes;
mod threads;
mod words;

ghost use Rattle.strm_host_machine.specs.Does.{Fits};

use crate::copies::{COUNTS, Copies};
use crate::hosted::{FED, LISTED, Reading};
use crate::taken::{BESIDE, DRIVES, Work, Writing};
use crate::threads::Part;
use crate::words::Timed;
use std::io;
use std::time::Instant;
use strm_codes::codes::TransmitKind;
use strm_codes::counts::{ItemCount, OutOfMemory};
use strm_codes::payloads::Payload;
use strm_codes::scalars::Scalar;
use strm_host::erased::Erased;
use strm_host::erased_readers::ErasedReader;
use strm_host_tests::copying::Copying;
use strm_program_ends::credit_reader::CreditReader;
use strm_program_ends::queue_writer::QueueWriter;
use strm_transmit::errors::StoreError;
use strm_transmit::host_ends::HostEnds;

/// The payload of every stream, and without a second word of the rounds'.
const BYTES: Payload = Payload::One(Scalar::U8);

fn main(rt: HostRuntime) -> io::Result<()> {
    match words::choice(&rt)? {
        Timed::All => {
            time_store(&rt)?;
            lanes::time_all(&rt, words::bytes(&rt)?)?;
            tapes::time_all(&rt, words::bytes(&rt)?)?;
            threads::time(&rt, rt.alloc(), Part::All, words::rounds(&rt)?)
        }
        Timed::Store => time_store(&rt),
        Timed::Frames => lanes::time_all(&rt, words::bytes(&rt)?),
        Timed::Tapes => tapes::time_all(&rt, words::bytes(&rt)?),
        Timed::Shared => threads::time(&rt, rt.alloc(), words::part(&rt)?, words::rounds(&rt)?),
    }
}

// All but frames, tapes and threads.
fn time_store(rt: &HostRuntime) -> io::Result<()> {
    let turns = words::turns(rt)?;
    time_rounds(rt, words::items(rt)?, turns)?;
    for (name, payload) in copies::layouts() {
        for count in COUNTS {
            time_copies(rt, name, payload, count, turns)?;
        }
    }
    time_feeds(rt, turns / 8)?;
    time_list(rt)?;
    time_granting(rt, 0, Work::Grants(turns / 8))?;
    time_consumer(rt)?;
    pipes::time_list(rt)?;
    pipes::time_rounds(rt)?;
    time_granting(rt, BESIDE, Work::Drives(DRIVES))
}

// How long something took.
pub(crate) fn tell_time(rt: &HostRuntime, what: &str, time: u128, unit: &str) -> io::Result<()> {
    eprintln!(rt; "{what}: {time} {unit}")
}

fn tell_copies(rt: &HostRuntime, name: &str, count: u32, sum: u64, item: u128) -> io::Result<()> {
    println!(rt; "copied {count} of {name}: {sum}")?;
    eprintln!(rt; "{name} {count} {item}")
}

fn tell_reading(rt: &HostRuntime, name: &str, reading: &Reading) -> io::Result<()> {
    let (received, sum) = (reading.received(), reading.sum());
    println!(rt; "{name} {received}: {sum}")
}

/// How many bytes went one way.
pub(crate) fn tell_count(rt: &HostRuntime, name: &str, bytes: u128) -> io::Result<()> {
    println!(rt; "{name} {bytes}")
}

/// Why a store did not do what is timed.
pub(crate) fn tell_error(rt: &HostRuntime, error: StoreError) -> io::Result<()> {
    eprintln!(rt; "{error:?}")
}

// Rounds of three calls on a store.
fn time_rounds(rt: &HostRuntime, items: Payload, turns: u32) -> io::Result<()> {
    let start = Instant::now(rt)?;
    match rounds::run(rt.alloc(), items, turns) {
        Ok(told) => {
            let spent = start.elapsed(rt)?.as_nanos();
            let (words, received) = (told.words, told.received);
            println!(rt; "words {words} received {received}")?;
            let round = spent / u128::from(turns).max(1);
            tell_time(rt, "a write, a read and an event of 8 items", round, "ns")
        }
        Err(error) => tell_error(rt, error),
    }
}

// Copies of so many items each, as many as there are items in all.
fn time_copies(
    rt: &HostRuntime,
    name: &str,
    payload: Payload,
    count: u32,
    items: u32,
) -> io::Result<()> {
    let each = ItemCount::new(count).unwrap_or(ItemCount::ZERO);
    match Copies::new(rt.alloc(), payload, each) {
        Ok(mut copies) => {
            let rounds = items / count.max(1);
            let start = Instant::now(rt)?;
            copies.repeat(rounds);
            let spent = start.elapsed(rt)?.as_nanos();
            let sum = copies.sum();
            let copied = u128::from(rounds).saturating_mul(u128::from(count));
            let item = spent.saturating_mul(1000) / copied.max(1);
            tell_copies(rt, name, count, sum, item)
        }
        Err(OutOfMemory) => tell_error(rt, StoreError::OutOfMemory),
    }
}

// Feeds of 64 bytes to a host writer, each read at once.
fn time_feeds(rt: &HostRuntime, rounds: u32) -> io::Result<()> {
    let alloc = rt.alloc();
    let queue = QueueWriter::new(alloc, TransmitKind::Stream, BYTES);
    let mut hosts = ends::of_writer(alloc, Box::new(alloc, queue)?)?;
    match Reading::new(alloc, &hosts, FED) {
        Ok(mut reading) => time_reading(rt, &mut reading, &mut hosts, Some(rounds)),
        Err(error) => tell_error(rt, error),
    }
}

// A list of 64 MiB that a host writer gives, read in pieces of 64 KiB.
fn time_list(rt: &HostRuntime) -> io::Result<()> {
    let alloc = rt.alloc();
    let erased = Erased::stream(alloc, hosted::list(alloc, LISTED)?);
    let mut hosts = ends::of_writer(alloc, Box::new(alloc, erased)?)?;
    match Reading::new(alloc, &hosts, LISTED) {
        Ok(mut reading) => time_reading(rt, &mut reading, &mut hosts, None),
        Err(error) => tell_error(rt, error),
    }
}

// So many feeds, each read at once, or a list.
fn time_reading<H: HostEnds>(
    rt: &HostRuntime,
    reading: &mut Reading,
    hosts: &mut H,
    feeds: Option<u32>,
) -> io::Result<()>
    requires { Fits reading.old.store (H.tells hosts.old) }
{
    let start = Instant::now(rt)?;
    let done = reading.work(hosts, feeds);
    let spent = start.elapsed(rt)?.as_nanos();
    match (done, feeds) {
        (Err(error), _) => tell_error(rt, error),
        (Ok(()), Some(rounds)) => {
            tell_reading(rt, "fed", reading)?;
            let round = spent / u128::from(rounds).max(1);
            tell_time(rt, "a feed and a read of 64 bytes", round, "ns")
        }
        (Ok(()), None) => {
            tell_reading(rt, "listed", reading)?;
            tell_time(rt, "a list of 64 MiB", spent, "ns")
        }
    }
}

// Of a host reader, beside so many streams: grants of 64 bytes, each followed by a write of as many; or drive
// rounds while one write waits.
fn time_granting(rt: &HostRuntime, beside: u32, work: Work) -> io::Result<()> {
    let alloc = rt.alloc();
    let credit = CreditReader::new(alloc, TransmitKind::Stream, BYTES);
    let mut hosts = ends::of_reader(alloc, Box::new(alloc, credit)?)?;
    match Writing::new(alloc, &mut hosts, FED, beside) {
        Ok(mut writing) => time_writing(rt, &mut writing, &mut hosts, work),
        Err(error) => tell_error(rt, error),
    }
}

// A list of 64 MiB that a consumer takes, written in pieces of 64 KiB.
fn time_consumer(rt: &HostRuntime) -> io::Result<()> {
    let alloc = rt.alloc();
    let bytes = Vec::with_capacity(alloc, LISTED as usize)?;
    let erased = ErasedReader::stream(alloc, Copying { bytes });
    let mut hosts = ends::of_reader(alloc, Box::new(alloc, erased)?)?;
    match Writing::new(alloc, &mut hosts, LISTED, 0) {
        Ok(mut writing) => time_writing(rt, &mut writing, &mut hosts, Work::List),
        Err(error) => tell_error(rt, error),
    }
}

// What a guest writes.
fn time_writing<H: HostEnds>(
    rt: &HostRuntime,
    writing: &mut Writing,
    hosts: &mut H,
    work: Work,
) -> io::Result<()>
    requires { Fits writing.old.store (H.tells hosts.old) }
{
    let start = Instant::now(rt)?;
    let done = writing.work(hosts, work);
    let spent = start.elapsed(rt)?.as_nanos();
    match done {
        Ok(()) => tell_writing(rt, work, writing.taken(), spent),
        Err(error) => tell_error(rt, error),
    }
}

// How many bytes were taken, and how long it took.
fn tell_writing(rt: &HostRuntime, work: Work, taken: u128, spent: u128) -> io::Result<()> {
    match work {
        Work::Grants(rounds) => {
            tell_count(rt, "granted", taken)?;
            let round = spent / u128::from(rounds).max(1);
            tell_time(rt, "a grant and a write of 64 bytes", round, "ns")
        }
        Work::List => {
            tell_count(rt, "consumed", taken)?;
            tell_time(rt, "a consumer of 64 MiB", spent, "ns")
        }
        Work::Drives(rounds) => {
            tell_count(rt, "driven", taken)?;
            let round = spent / u128::from(rounds).max(1);
            tell_time(rt, "a drive with one write waiting", round, "ns")
        }
    }
}
