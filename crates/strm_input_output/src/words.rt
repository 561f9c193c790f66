//! The words that a process is given.
//!
//! Ours, over std's arguments.

ghost use Rattle.std.specs.Prelude.{◌≡◌, IfOk, drop};
ghost use Rattle.std.specs.Vec.Iter.{into_iter_items};

use std::alloc::{AllocError, Global};
use std::env::Args;
use std::{env, io};
use strm_codes::counts::OutOfMemory;

/// The arguments of the process, of which the first is the program's name; none where one is no UTF-8, since
/// no program here has such a word.
pub fn process_args(rt: &HostRuntime) -> Result<Args, OutOfMemory> {
    match env::args(rt) {
        Ok(args) => Ok(args),
        Err(error) if error.kind() == io::ErrorKind::OutOfMemory => Err(OutOfMemory),
        Err(_) => Ok(Vec::new(rt.alloc()).into_iter()),
    }
}

/// The words behind the program's name: all but the first.
pub fn words_behind(alloc: Global, mut args: Args) -> Result<Vec<String>, AllocError>
    ensures { IfOk result (λ words. words.items ≡ drop 1 (into_iter_items args)) }
{
    let _name = args.next();
    args.collect(alloc)
}
