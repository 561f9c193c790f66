//! Worked types that hold others: how their items lie, and words that spell none.

use crate::answers::is;
use crate::memories::{lifted, lowered, value};
use crate::payloads::has_layout;
use std::process::Abort;
use strm_codes::compounds::Compound;
use strm_codes::nodes::Node;
use strm_codes::payloads::Payload;
use strm_codes::scalars::Scalar;
use strm_memory::items::LiftError;

fn of_words(rt: &impl Abort, words: &[Node]) -> Payload {
    Payload::Compound(Compound::new(words).expect(rt, "a type"))
}

fn option(rt: &impl Abort) -> Payload {
    of_words(rt, &[Node::Option, Node::Plain(Scalar::U32)])
}

#[test]
fn an_option_is_lifted_and_lowered(rt: HostRuntime) {
    has_layout(&rt, option(&rt), 8, 4);
    let bytes = b"\x01\x07\xfe\x07\x07\x80\xfe\xff\x00\x02\x02\x02\x02\x02\x02\x02";
    let mut out = Vec::new(rt.alloc());
    is(&rt, lifted(option(&rt), 2, bytes, &mut out), Ok(()));
    let some = value(&rt, &[1, 0xfffe_8007]);
    let none = value(&rt, &[0]);
    is(&rt, out.as_slice(), [some, none].as_slice());
    is(
        &rt,
        lowered(option(&rt), some),
        *b"\x01\xaa\xaa\xaa\x07\x80\xfe\xff",
    );
    is(
        &rt,
        lowered(option(&rt), none),
        *b"\x00\xaa\xaa\xaa\xaa\xaa\xaa\xaa",
    );
}

fn result_of_a_code(rt: &impl Abort) -> Payload {
    of_words(rt, &[Node::Result, Node::Nothing, Node::Enum(38)])
}

#[test]
fn a_case_that_there_is_not_is_bad(rt: HostRuntime) {
    has_layout(&rt, result_of_a_code(&rt), 2, 1);
    let bytes = b"\x00\x07\x01\x25\x01\x7f\xd8\x01\x00\x00\x00\x00\x00\x00\x00\x00";
    let mut out = Vec::new(rt.alloc());
    is(
        &rt,
        lifted(result_of_a_code(&rt), 4, bytes, &mut out),
        Err(LiftError::BadItem { index: 2 }),
    );
    is(
        &rt,
        lifted(result_of_a_code(&rt), 2, bytes, &mut out),
        Ok(()),
    );
    let items = [value(&rt, &[0]), value(&rt, &[1, 37])];
    is(&rt, out.as_slice(), items.as_slice());
}

#[test]
fn some_words_spell_no_type(rt: HostRuntime) {
    let byte = Node::Plain(Scalar::U8);
    is(&rt, Compound::new(&[Node::Option]).is_none(), true);
    is(&rt, Compound::new(&[Node::Flags(33)]).is_none(), true);
    is(
        &rt,
        Compound::new(&[Node::Option, byte, byte]).is_none(),
        true,
    );
    is(
        &rt,
        Compound::new(&[Node::Tuple(2), byte, byte]).is_none(),
        true,
    );
}
