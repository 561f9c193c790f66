//! A program's work among its host ends.
//!
//! Meaning: `HostEnds.antt`. Ours.

ghost use Rattle.std.specs.Prelude.{◌≡◌, ℕ, IfOk, OnErr};
ghost use Rattle.std.specs.Process.{exit_status};
ghost use Rattle.strm_buffers.specs.AllTells.{tells_of};
ghost use Rattle.strm_host.specs.Erasing.{erased_tells};
ghost use Rattle.strm_program_hosts.specs.HostEnds.{five, ready_writer, writers, readers};

use crate::ready::{Ready, ready_streams};
use std::alloc::{AllocError, Global};
use std::process::ExitCode;
use strm_buffers::hosts::Hosts;
use strm_buffers::readers::HostReader;
use strm_buffers::writers::HostWriter;
use strm_codes::codes::TransmitKind;
use strm_codes::payloads::Payload;
use strm_codes::scalars::Scalar;
use strm_memory::payloaded::Payloaded;
use strm_program_ends::credit_reader::CreditReader;
use strm_program_ends::queue_writer::QueueWriter;

const STREAM: TransmitKind = TransmitKind::Stream;

const FUTURE: TransmitKind = TransmitKind::Future;

const NOTHING: Payload = Payload::Nothing;

const BYTE: Payload = Payload::One(Scalar::U8);

const WORD: Payload = Payload::One(Scalar::U32);

const CHAR: Payload = Payload::One(Scalar::Char);

/// The work of a program, done once among its host ends.
pub trait AmongHosts {
    // From this work one came to that, with this status.
    ghost comes_to: { Self → Self → ℕ → Type 0 };

    /// Does it among the program's host ends, none of which was used before. It answers the program's status.
    fn serve_among(&mut self, hosts: &mut Hosts) -> ExitCode
        requires writers { (tells_of writer_tells reader_tells hosts.old).writers ≡ writers }
        requires readers { (tells_of writer_tells reader_tells hosts.old).readers ≡ readers }
        ensures { comes_to self.old self.new (exit_status result) };
}

/// Has a program do its work among its host ends, which are new. Without memory for these nothing is done.
pub fn served_among_hosts<P: AmongHosts>(
    alloc: Global,
    program: &mut P,
) -> Result<ExitCode, AllocError>
    ensures ok { IfOk result (λ code.
        P.comes_to program.old program.new (exit_status code)) }
    ensures err { OnErr result (program.new ≡ program.old) }
{
    let ready = ready_streams(alloc)?;
    served_among_boxes(alloc, program, ready)
}

// Boxes the host ends: eight writers, which are five queues and the three streams that are ready; and eight
// readers, each with a credit.
fn served_among_boxes<P: AmongHosts>(
    alloc: Global,
    program: &mut P,
    ready: Ready,
) -> Result<ExitCode, AllocError>
    requires first { ready.first.producer.items ≡ five }
    requires second { ready.second.producer.items ≡ five }
    requires first_unpolled { erased_tells ready.first ≡ ready_writer }
    requires second_unpolled { erased_tells ready.second ≡ ready_writer }
    requires none_unpolled { erased_tells ready.none ≡ ready_writer }
    ensures ok { IfOk result (λ code.
        P.comes_to program.old program.new (exit_status code)) }
    ensures err { OnErr result (program.new ≡ program.old) }
{
    let Ready {
        first,
        second,
        none,
    } = ready;
    let writers: [Box<dyn HostWriter>; 8] = [
        Box::new(alloc, QueueWriter::new(alloc, STREAM, BYTE))?,
        Box::new(alloc, QueueWriter::new(alloc, STREAM, WORD))?,
        Box::new(alloc, QueueWriter::new(alloc, STREAM, NOTHING))?,
        Box::new(alloc, QueueWriter::new(alloc, STREAM, CHAR))?,
        Box::new(alloc, QueueWriter::new(alloc, FUTURE, WORD))?,
        Box::new(alloc, first)?,
        Box::new(alloc, second)?,
        Box::new(alloc, none)?,
    ];
    let readers: [Box<dyn HostReader>; 8] = [
        Box::new(alloc, CreditReader::new(alloc, STREAM, BYTE))?,
        Box::new(alloc, CreditReader::new(alloc, STREAM, WORD))?,
        Box::new(alloc, CreditReader::new(alloc, STREAM, NOTHING))?,
        Box::new(alloc, CreditReader::new(alloc, STREAM, CHAR))?,
        Box::new(alloc, CreditReader::new(alloc, FUTURE, WORD))?,
        Box::new(alloc, CreditReader::new(alloc, STREAM, BYTE))?,
        Box::new(
            alloc,
            CreditReader::new(alloc, STREAM, <(u8, u32)>::payload()),
        )?,
        Box::new(alloc, CreditReader::new(alloc, FUTURE, NOTHING))?,
    ];
    let mut hosts = Hosts {
        writers: Vec::from_array(alloc, writers)?,
        readers: Vec::from_array(alloc, readers)?,
    };
    Ok(program.serve_among(&mut hosts))
}
