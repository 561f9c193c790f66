//! The program of tapes: runs the lines of its input and writes the run's tape, or plays a tape and writes
//! its replies, or the picture of its run.
#![tactic(auto)]

ghost use Rattle.std.specs.Prelude.{◌≡◌, ◌↔◌, map, string_bytes, IsTrue, IfOk, IsOkAnd, OnErr};
ghost use Rattle.std.specs.Process.{exit_status};
ghost use Rattle.strm_buffers.specs.AllTells.{tells_of};
ghost use Rattle.strm_tape_program.specs.Modes.{Names, NamesNone};
ghost use Rattle.tape.specs.HostEnds.{following, following_reader, followers};
ghost use Rattle.strm_input_output.specs.Serving.{port};
ghost use Rattle.tape.specs.Outcomes.{TakesScript, Plays, ShowsAmong, PlaysRead, TellsUsage, TellsToDraw, Answers};

use std::alloc::{AllocError, Global};
use std::io;
use std::process::ExitCode;
use strm_buffers::hosts::Hosts;
use strm_buffers::readers::HostReader;
use strm_buffers::writers::HostWriter;
use strm_drawing::serving::draw_list;
use strm_input_output::ports::{Sink, Source};
use strm_input_output::processes::Process;
use strm_program_hosts::among::{AmongHosts, served_among_hosts};
use strm_tape::tape::Tape;
use strm_tape_ends::replay_reader::ReplayReader;
use strm_tape_ends::replay_writer::ReplayWriter;
use strm_tape_program::modes::{Mode, tape_mode};
use strm_tape_program::playing::tape_play;
use strm_tape_program::reading::tape_read;
use strm_tape_program::statuses::OUT_OF_MEMORY;
use strm_tape_program::taking::tape_take;

// Where the program reads from and writes to.
#[derive(Drop)]
struct Ports<S, K> {
    alloc: Global,
    source: S,
    sink: K,
}

// A script is taken among the host ends of the program `strm`.
impl<S: Source, K: Sink> AmongHosts for Ports<S, K> {
    ghost use Rattle.std.specs.Prelude.{◌≡◌};
    ghost use Rattle.strm_input_output.specs.Serving.{port};
    ghost use Rattle.tape.specs.Outcomes.{TakesScript};

    ghost comes_to = { λ old new status.
        TakesScript (port (S.left old.source) (S.faults old.source))
        (port (S.left new.source) (S.faults new.source))
        (port (K.taken old.sink) (K.faults old.sink)) (port (K.taken new.sink) (K.faults new.sink))
        status × (status ≡ 9 → new.sink ≡ old.sink) };

    fn serve_among(&mut self, hosts: &mut Hosts) -> ExitCode {
        ExitCode::from(tape_take(self.alloc, &mut self.source, &mut self.sink, hosts))
    }
}

// What is written of a tape's run.
#[derive(Clone, Copy)]
enum Shown {
    // Its replies, where the host ends record what the tape says.
    Replies,
    // Its picture.
    Picture,
}

// Plays a tape among host ends that follow it, none of which was polled before.
fn played<K: Sink>(
    alloc: Global,
    shown: Shown,
    tape: &Tape,
    hosts: &mut Hosts,
    sink: &mut K,
) -> ExitCode
    requires writers { (tells_of writer_tells reader_tells hosts.old).writers
        ≡ map following tape.now.writers }
    requires readers { (tells_of writer_tells reader_tells hosts.old).readers
        ≡ map following_reader tape.now.readers }
    ensures plays { ShowsAmong shown (followers tape.now)
        (tells_of writer_tells reader_tells hosts.new) tape.now
        (port (K.taken sink.old) (K.faults sink.old)) (port (K.taken sink.new) (K.faults sink.new))
        (exit_status result) }
    ensures nothing { exit_status result ≡ OUT_OF_MEMORY → sink.new ≡ sink.old }
{
    match shown {
        Shown::Replies => ExitCode::from(tape_play(alloc, tape, hosts, sink)),
        Shown::Picture => ExitCode::from(draw_list(alloc, tape.steps(), hosts, sink)),
    }
}

// The same among new ones.
fn played_among_ends<K: Sink>(
    alloc: Global,
    shown: Shown,
    tape: &Tape,
    sink: &mut K,
) -> Result<ExitCode, AllocError>
    ensures plays { IfOk result (λ code. Plays shown tape.now
        (port (K.taken sink.old) (K.faults sink.old)) (port (K.taken sink.new) (K.faults sink.new))
        (exit_status code)) }
    ensures nothing { IfOk result (λ code. exit_status code ≡ OUT_OF_MEMORY → sink.new ≡ sink.old) }
    ensures out_of_memory { OnErr result (sink.new ≡ sink.old) }
{
    let mut writers: Vec<Box<dyn HostWriter>> = Vec::new(alloc);
    for n in 0..tape.writers() {
        let Ok(writer) = ReplayWriter::new(alloc, tape, n) else {
            return Ok(ExitCode::from(OUT_OF_MEMORY));
        };
        writers.push(Box::new(alloc, writer)?)?;
    }
    let mut readers: Vec<Box<dyn HostReader>> = Vec::new(alloc);
    for r in 0..tape.readers() {
        let Ok(reader) = ReplayReader::new(alloc, tape, r) else {
            return Ok(ExitCode::from(OUT_OF_MEMORY));
        };
        readers.push(Box::new(alloc, reader)?)?;
    }
    let mut hosts = Hosts { writers, readers };
    Ok(played(alloc, shown, tape, &mut hosts, sink))
}

// Plays the tape that a source has left, or writes why that is none.
fn played_from<S: Source, K: Sink>(
    alloc: Global,
    shown: Shown,
    source: &mut S,
    sink: &mut K,
) -> Result<ExitCode, AllocError>
    ensures plays { IfOk result (λ code. PlaysRead shown
        (port (S.left source.old) (S.faults source.old))
        (port (S.left source.new) (S.faults source.new))
        (port (K.taken sink.old) (K.faults sink.old)) (port (K.taken sink.new) (K.faults sink.new))
        (exit_status code)) }
    ensures nothing { IfOk result (λ code. exit_status code ≡ OUT_OF_MEMORY → sink.new ≡ sink.old) }
    ensures out_of_memory { OnErr result (sink.new ≡ sink.old) }
{
    match tape_read(alloc, source, sink) {
        Ok(tape) => {
            tape.sound();
            played_among_ends(alloc, shown, &tape, sink)
        }
        Err(why) => Ok(ExitCode::from(why)),
    }
}

// Whether the words tell the program to draw.
fn is_draw(words: &Vec<String>) -> bool
    ensures { IsTrue result ↔ TellsToDraw (map string_bytes words.now.items) }
{
    let words = words.as_slice();
    words.len() == 1 && words[0].as_bytes() == b"draw".as_slice()
}

// Does what the words say, or draws.
fn served<S: Source, K: Sink>(
    words: &Vec<String>,
    ports: &mut Ports<S, K>,
) -> Result<ExitCode, AllocError>
    ensures draws { TellsToDraw (map string_bytes words.now.items) → IfOk result (λ code.
        PlaysRead Shown.Picture
        (port (S.left ports.old.source) (S.faults ports.old.source))
        (port (S.left ports.new.source) (S.faults ports.new.source))
        (port (K.taken ports.old.sink) (K.faults ports.old.sink))
        (port (K.taken ports.new.sink) (K.faults ports.new.sink))
        (exit_status code)) }
    ensures answers { ¬ TellsToDraw (map string_bytes words.now.items) → IfOk result (λ code.
        Answers (map string_bytes words.now.items)
        (port (S.left ports.old.source) (S.faults ports.old.source))
        (port (S.left ports.new.source) (S.faults ports.new.source))
        (port (K.taken ports.old.sink) (K.faults ports.old.sink))
        (port (K.taken ports.new.sink) (K.faults ports.new.sink))
        (exit_status code)) }
    ensures nothing { IfOk result (λ code.
        exit_status code ≡ OUT_OF_MEMORY → ports.new.sink ≡ ports.old.sink) }
    ensures out_of_memory { OnErr result (ports.new.sink ≡ ports.old.sink) }
{
    if is_draw(words) {
        return played_from(
            ports.alloc,
            Shown::Picture,
            &mut ports.source,
            &mut ports.sink,
        );
    }
    answered(words, ports)
}

// Does what the words say.
fn answered<S: Source, K: Sink>(
    words: &Vec<String>,
    ports: &mut Ports<S, K>,
) -> Result<ExitCode, AllocError>
    ensures takes { Names (map string_bytes words.now.items) Mode.Take → IfOk result (λ code.
        TakesScript
        (port (S.left ports.old.source) (S.faults ports.old.source))
        (port (S.left ports.new.source) (S.faults ports.new.source))
        (port (K.taken ports.old.sink) (K.faults ports.old.sink))
        (port (K.taken ports.new.sink) (K.faults ports.new.sink))
        (exit_status code)) }
    ensures plays { Names (map string_bytes words.now.items) Mode.Play → IfOk result (λ code.
        PlaysRead Shown.Replies
        (port (S.left ports.old.source) (S.faults ports.old.source))
        (port (S.left ports.new.source) (S.faults ports.new.source))
        (port (K.taken ports.old.sink) (K.faults ports.old.sink))
        (port (K.taken ports.new.sink) (K.faults ports.new.sink))
        (exit_status code)) }
    ensures usage { NamesNone (map string_bytes words.now.items) → IsOkAnd result (λ code.
        TellsUsage
        (port (K.taken ports.old.sink) (K.faults ports.old.sink))
        (port (K.taken ports.new.sink) (K.faults ports.new.sink))
        (exit_status code)) }
    ensures unread { NamesNone (map string_bytes words.now.items) →
        ports.new.source ≡ ports.old.source }
    ensures nothing { IfOk result (λ code.
        exit_status code ≡ OUT_OF_MEMORY → ports.new.sink ≡ ports.old.sink) }
    ensures out_of_memory { OnErr result (ports.new.sink ≡ ports.old.sink) }
{
    match tape_mode(words, &mut ports.sink) {
        Ok(Mode::Take) => served_among_hosts(ports.alloc, ports),
        Ok(Mode::Play) => played_from(
            ports.alloc,
            Shown::Replies,
            &mut ports.source,
            &mut ports.sink,
        ),
        Err(status) => Ok(ExitCode::from(status)),
    }
}

fn main(rt: HostRuntime) -> io::Result<ExitCode> {
    let Ok(process) = Process::begin(&rt) else {
        return Ok(ExitCode::from(OUT_OF_MEMORY));
    };
    let mut ports = Ports {
        alloc: rt.alloc(),
        source: process.source,
        sink: process.sink,
    };
    match served(&process.words, &mut ports) {
        Ok(code) => Ok(code),
        Err(_) => Ok(ExitCode::from(OUT_OF_MEMORY)),
    }
}
