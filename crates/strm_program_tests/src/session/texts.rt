//! Texts of the formats that no run of the program writes.

use std::process::Abort;
use strm_codes::counts::OutOfMemory;
use strm_codes::refusals::Refusal;
use strm_machine::replies::Reply;
use strm_session::lists::TextBytes;
use strm_session::texts::{bad_line_text, transcript_text};

const REFUSED: [Reply; 1] = [Reply::Refused(Refusal::UnknownGuest)];

const COUNTED: &str =
    "refused UnknownGuest\nstream 0 moved 340282366920938463463374607431768211455\n\
        stream 1 moved 0\ndone 1\n";

fn is_text(rt: &impl Abort, found: Result<TextBytes, OutOfMemory>, wanted: &str) {
    let is_same = match found {
        Ok(text) => text.as_slice() == wanted.as_bytes(),
        Err(_) => false,
    };
    assert!(rt; is_same, "{wanted}");
}

#[test]
fn texts_of_runs(rt: HostRuntime) {
    let text = transcript_text(rt.alloc(), &REFUSED, &[u128::MAX, 0]);
    is_text(&rt, text, COUNTED);
    is_text(&rt, transcript_text(rt.alloc(), &[], &[]), "done 0\n");
    is_text(&rt, bad_line_text(rt.alloc(), 262_144), "bad line 262144\n");
}
