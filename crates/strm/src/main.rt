//! The program: runs the lines of its input, and writes their replies, or the picture of the run; or runs steps
//! that are drawn from a seed, and writes a summary.
#![tactic(auto)]

ghost use Rattle.std.specs.Prelude.{◌↔◌, IsTrue, IfOk, drop, map, string_bytes};
ghost use Rattle.std.specs.Process.{exit_status};
ghost use Rattle.std.specs.Vec.Iter.{into_iter_items};
ghost use Rattle.strm.specs.Served.{TellsToDraw, IsServed};

use std::alloc::{AllocError, Global};
use std::env::Args;
use std::io::{self, Read, Write};
use std::process::ExitCode;
use strm_buffers::hosts::Hosts;
use strm_drawing::serving::draw_script;
use strm_input_output::ports::{Sink, Source};
use strm_input_output::words::{process_args, words_behind};
use strm_program_hosts::among::{AmongHosts, served_among_hosts};
use strm_session::serving::{OUT_OF_MEMORY, serve};
use strm_session::standard::{StdinSource, StdoutSink};

// The words behind the program's name, and where it reads from and writes to.
#[derive(Drop)]
struct Work<S, K> {
    alloc: Global,
    words: Vec<String>,
    source: S,
    sink: K,
}

// The program's status is that of `serve`, and with it goes a text whose cause is known, from what the source
// had left.
impl<S: Source, K: Sink> AmongHosts for Work<S, K> {
    ghost use Rattle.std.specs.Prelude.{map, string_bytes};
    ghost use Rattle.strm.specs.Served.{IsServed};

    ghost comes_to = { λ old new status.
        IsServed (map string_bytes old.words.items) (S.left old.source) (S.faults old.source) status };

    fn serve_among(&mut self, hosts: &mut Hosts) -> ExitCode {
        if is_draw(&self.words) {
            let status = draw_script(self.alloc, &mut self.source, &mut self.sink, hosts);
            return ExitCode::from(status);
        }
        let status = serve(
            self.alloc,
            &self.words,
            &mut self.source,
            &mut self.sink,
            hosts,
        );
        ExitCode::from(status)
    }
}

// Whether the words tell the program to draw.
fn is_draw(words: &Vec<String>) -> bool
    ensures { IsTrue result ↔ TellsToDraw (map string_bytes words.now.items) }
{
    let words = words.as_slice();
    words.len() == 1 && words[0].as_bytes() == b"draw".as_slice()
}

// Serves the words behind the program's name, all of them, among the program's host ends.
fn served_words<R: Read + Drop, W: Write + Drop>(
    alloc: Global,
    args: Args,
    input: R,
    output: W,
) -> Result<ExitCode, AllocError>
    ensures { IfOk result (λ code.
        IsServed (map string_bytes (drop 1 (into_iter_items args))) (R.remaining input)
        0 (exit_status code)) }
{
    let words = words_behind(alloc, args)?;
    let mut work = Work {
        alloc,
        words,
        source: StdinSource::new(input),
        sink: StdoutSink::new(output),
    };
    served_among_hosts(alloc, &mut work)
}

fn main(rt: HostRuntime) -> io::Result<ExitCode> {
    let alloc = rt.alloc();
    let Ok(args) = process_args(&rt) else {
        return Ok(ExitCode::from(OUT_OF_MEMORY));
    };
    match served_words(alloc, args, rt.stdin(), rt.stdout()) {
        Ok(code) => Ok(code),
        Err(_) => Ok(ExitCode::from(OUT_OF_MEMORY)),
    }
}
