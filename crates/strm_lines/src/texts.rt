//! The text of replies and of a whole run, and the texts that stand for a run that was not.
//!
//! Source: ours.

ghost use Rattle.std.specs.Prelude.{◌≡◌, ◌∷◌, ◌++◌, [], ◌≤◌, ◌<◌, length, codes, decimal, Some, IfOk, OnOk, OnErr};
ghost use Rattle.std.specs.List.{flat_map, count_by};
ghost use Rattle.strm_lines.specs.Grammar.{words};
ghost use Rattle.strm_lines.specs.Words.{hex_digit, hex_pairs};
ghost use Rattle.strm_lines.specs.Text.{HasPart, line_ended, hex_word, count_text, reply_text, reply_lines, stream_text, stream_lines, done_text, transcript_text, is_refusal, summary_text, host_end_text, stop_text, stopped_text, usage_text, bad_line_text, too_long_text, read_fault_text};
ghost use Rattle.strm_machine.specs.Moments.{is_blocked};

use crate::lists::TextBytes;
use crate::tails::Tail;
use itoa::{Buffer, Integer};
use std::alloc::Global;
use strm_codes::codes::ReturnCode;
use strm_codes::counts::OutOfMemory;
use strm_codes::refusals::Refusal;
use strm_machine::replies::{Member, Pair, Reply};
use strm_machine::stops::Stop;
use strm_machine::streams::HostEnd;

// The lower-case hexadecimal digits.
const DIGITS: [u8; 16] = *b"0123456789abcdef";

/// A lower-case hexadecimal digit.
pub fn hex_digit(nibble: u8) -> u8
    requires { nibble < 16 }
    ensures { result ≡ hex_digit nibble }
{
    DIGITS[nibble as usize]
}

// A word as eight digits, and a line feed.
fn hex_line(word: u32) -> [u8; 9]
    ensures { result ≡ line_ended (hex_word word) }
{
    let [first, second, third, fourth] = word.to_be_bytes();
    [
        hex_digit(first / 16),
        hex_digit(first % 16),
        hex_digit(second / 16),
        hex_digit(second % 16),
        hex_digit(third / 16),
        hex_digit(third % 16),
        hex_digit(fourth / 16),
        hex_digit(fourth % 16),
        b'\n',
    ]
}

/// Adds a number in decimal.
pub fn push_number<I: Integer>(out: &mut TextBytes, number: I) -> Result<(), OutOfMemory>
    ensures { OnOk result (out.new ≡ out.old ++ I.text number) }
{
    let mut buffer = Buffer::new();
    out.push_slice(buffer.format(number).as_bytes())
}

// Adds bytes as pairs of digits, and a line feed.
fn push_hex(out: &mut TextBytes, bytes: &[u8]) -> Result<(), OutOfMemory>
    requires { length bytes.now ≤ 64 }
    ensures ok { OnOk result (out.new ≡ out.old ++ line_ended (hex_pairs bytes.now)) }
    ensures err { OnErr result (out.new ≡ out.old) }
{
    let mut digits = [b'\n'; 129];
    for k in 0..bytes.len() {
        digits[2 * k] = hex_digit(bytes[k] / 16);
        digits[2 * k + 1] = hex_digit(bytes[k] % 16);
    }
    digits[2 * bytes.len()] = b'\n';
    out.push_slice(&digits[..2 * bytes.len() + 1])
}

// Adds parts, one behind the other.
fn push_parts(out: &mut TextBytes, parts: &[&[u8]]) -> Result<(), OutOfMemory>
    ensures ok { OnOk result (out.new ≡ out.old ++ flat_map (λ part. part.now) parts.now) }
    ensures err { OnErr result (HasPart out.old out.new (flat_map (λ part. part.now) parts.now)) }
{
    for part in parts {
        out.push_slice(*part)?;
    }
    Ok(())
}

// Adds the line of a number.
fn push_number_line(out: &mut TextBytes, number: u32) -> Result<(), OutOfMemory>
    ensures ok { OnOk result (out.new ≡ out.old ++ line_ended (decimal number)) }
    ensures err { OnErr result (out.new ≡ out.old) }
{
    // Most have one digit.
    if number < 10 {
        return out.push_slice(&[b'0' + number as u8, b'\n']);
    }
    let mut line = Tail::new();
    line.put_number(u64::from(number));
    out.push_slice(line.as_slice())
}

// Adds the line of a new stream.
fn push_pair(out: &mut TextBytes, pair: &Pair) -> Result<(), OutOfMemory>
    ensures ok { OnOk result (out.new ≡ out.old ++ line_ended (reply_text (Reply.Pair pair.now))) }
    ensures err { OnErr result (out.new ≡ out.old) }
{
    let mut line = Tail::new();
    line.put_number(u64::from(pair.stream));
    line.put(b" stream ");
    line.put_number(u64::from(pair.write));
    line.put(b" write ");
    line.put_number(u64::from(pair.read));
    line.put(b"read ");
    out.push_slice(line.as_slice())
}

// Adds the line of a member of a set and of what it was told.
fn push_member(out: &mut TextBytes, member: &Member) -> Result<(), OutOfMemory>
    ensures ok { OnOk result
        (out.new ≡ out.old ++ line_ended (reply_text (Reply.Member (Some member.now)))) }
    ensures err { OnErr result
        (HasPart out.old out.new (line_ended (reply_text (Reply.Member (Some member.now))))) }
{
    let mut handle = Buffer::new();
    let code = hex_line(member.code.encode());
    push_parts(
        out,
        &[
            handle.format(member.handle).as_bytes(),
            b" ".as_slice(),
            code.as_slice(),
        ],
    )
}

// Adds the line of a refusal.
fn push_refusal(out: &mut TextBytes, refusal: Refusal) -> Result<(), OutOfMemory>
    ensures ok { OnOk result
        (out.new ≡ out.old ++ line_ended (reply_text (Reply.Refused refusal))) }
    ensures err { OnErr result
        (HasPart out.old out.new (line_ended (reply_text (Reply.Refused refusal)))) }
{
    push_parts(
        out,
        &[
            b"refused ".as_slice(),
            refusal.name().as_bytes(),
            b"\n".as_slice(),
        ],
    )
}

// Adds the line of a bad item.
fn push_bad_item(out: &mut TextBytes, stream: u32) -> Result<(), OutOfMemory>
    ensures ok { OnOk result (out.new ≡ out.old ++ line_ended (reply_text (Reply.BadItem stream))) }
    ensures err { OnErr result
        (HasPart out.old out.new (line_ended (reply_text (Reply.BadItem stream)))) }
{
    let mut digits = Buffer::new();
    push_parts(
        out,
        &[
            b"bad-item stream ".as_slice(),
            digits.format(stream).as_bytes(),
            b"\n".as_slice(),
        ],
    )
}

// Adds the line of a reply.
pub(crate) fn push_reply(out: &mut TextBytes, reply: &Reply) -> Result<(), OutOfMemory>
    ensures ok { OnOk result (out.new ≡ out.old ++ line_ended (reply_text reply.now)) }
    ensures err { OnErr result (HasPart out.old out.new (line_ended (reply_text reply.now))) }
{
    match reply {
        Reply::Code(code) | Reply::Event(Some(code)) => out.push_slice(&hex_line(code.encode())),
        Reply::Event(None) | Reply::Member(None) => out.push_slice(b"none\n"),
        Reply::Done => out.push_slice(b"ok\n"),
        Reply::Bytes(bytes) => push_hex(out, bytes.as_slice()),
        Reply::Number(number) => push_number_line(out, *number),
        Reply::Pair(pair) => push_pair(out, pair),
        Reply::Member(Some(member)) => push_member(out, member),
        Reply::Refused(refusal) => push_refusal(out, *refusal),
        Reply::BadItem { stream } => push_bad_item(out, *stream),
        Reply::StoreTrapped => out.push_slice(b"store-trapped\n"),
    }
}

/// Adds one line per reply.
pub fn push_replies(out: &mut TextBytes, replies: &[Reply]) -> Result<(), OutOfMemory>
    ensures ok { OnOk result (out.new ≡ out.old ++ reply_lines replies.now) }
    ensures err { OnErr result (HasPart out.old out.new (reply_lines replies.now)) }
{
    // Most lines are a code's. Where there is no room for all, each asks for its own.
    let _room = out.reserve(replies.len().saturating_mul(9));
    for reply in replies {
        push_reply(out, reply)?;
    }
    Ok(())
}

// Adds the line of a stream.
fn push_stream(out: &mut TextBytes, stream: usize, moved: u128) -> Result<(), OutOfMemory>
    ensures ok { OnOk result (out.new ≡ out.old ++ line_ended (stream_text stream moved)) }
    ensures err { OnErr result (HasPart out.old out.new (line_ended (stream_text stream moved))) }
{
    if moved > u128::from(u64::MAX) {
        return push_far_stream(out, stream, moved);
    }
    let mut line = Tail::new();
    line.put_number(moved as u64);
    line.put(b" moved ");
    line.put_number(stream as u64);
    line.put(b"stream ");
    out.push_slice(line.as_slice())
}

// The same, whatever the count.
#[inline(never)]
fn push_far_stream(out: &mut TextBytes, stream: usize, moved: u128) -> Result<(), OutOfMemory>
    ensures ok { OnOk result (out.new ≡ out.old ++ line_ended (stream_text stream moved)) }
    ensures err { OnErr result (HasPart out.old out.new (line_ended (stream_text stream moved))) }
{
    let (mut digits, mut count) = (Buffer::new(), Buffer::new());
    push_parts(
        out,
        &[
            b"stream ".as_slice(),
            digits.format(stream).as_bytes(),
            b" moved ".as_slice(),
            count.format(moved).as_bytes(),
            b"\n".as_slice(),
        ],
    )
}

/// Adds one line per stream, by number from 0: how many items were received on it.
pub fn push_streams(out: &mut TextBytes, moved: &[u128]) -> Result<(), OutOfMemory>
    ensures ok { OnOk result (out.new ≡ out.old ++ stream_lines 0 moved.now) }
    ensures err { OnErr result (HasPart out.old out.new (stream_lines 0 moved.now)) }
{
    for stream in 0..moved.len() {
        push_stream(out, stream, moved[stream])?;
    }
    Ok(())
}

/// Adds the line of how many steps were done.
pub fn push_done(out: &mut TextBytes, steps: usize) -> Result<(), OutOfMemory>
    ensures ok { OnOk result (out.new ≡ out.old ++ line_ended (done_text steps)) }
    ensures err { OnErr result (HasPart out.old out.new (line_ended (done_text steps))) }
{
    let mut digits = Buffer::new();
    push_parts(
        out,
        &[
            b"done ".as_slice(),
            digits.format(steps).as_bytes(),
            b"\n".as_slice(),
        ],
    )
}

// Adds what every run ends with: the lines of its streams, and how many steps were done.
pub(crate) fn push_ending(
    out: &mut TextBytes,
    moved: &[u128],
    steps: usize,
) -> Result<(), OutOfMemory>
    ensures { OnOk result
        (out.new ≡ out.old ++ stream_lines 0 moved.now ++ line_ended (done_text steps)) }
{
    push_streams(out, moved)?;
    push_done(out, steps)
}

/// The text of a run, from its replies and from how many items were received on each stream.
pub fn transcript_text(
    alloc: Global,
    replies: &[Reply],
    moved: &[u128],
) -> Result<TextBytes, OutOfMemory>
    ensures ok { IfOk result (λ text. text ≡ transcript_text replies.now moved.now) }
{
    let mut out = TextBytes::new(alloc);
    push_replies(&mut out, replies)?;
    push_ending(&mut out, moved, replies.len())?;
    Ok(out)
}

// How many of the replies are refusals.
fn count_refusals(replies: &[Reply]) -> usize
    ensures { result ≡ count_by is_refusal replies.now }
{
    let mut count = 0;
    for reply in replies {
        if let Reply::Refused(_) = reply {
            count += 1;
        }
    }
    count
}

// How many of the replies are those of reads and writes that wait.
fn count_blocked(replies: &[Reply]) -> usize
    ensures { result ≡ count_by is_blocked replies.now }
{
    let mut count = 0;
    for reply in replies {
        if let Reply::Code(ReturnCode::Blocked) = reply {
            count += 1;
        }
    }
    count
}

/// The summary of a run, from its replies and from how many items were received on each stream.
pub fn summary_text(
    alloc: Global,
    replies: &[Reply],
    moved: &[u128],
) -> Result<TextBytes, OutOfMemory>
    ensures ok { IfOk result (λ text. text ≡ summary_text replies.now moved.now) }
{
    counts_text(
        alloc,
        count_refusals(replies),
        count_blocked(replies),
        moved,
        replies.len(),
    )
}

// The summary of a run of which so many steps were refused, and so many reads and writes had to wait.
pub(crate) fn counts_text(
    alloc: Global,
    refused: usize,
    blocked: usize,
    moved: &[u128],
    steps: usize,
) -> Result<TextBytes, OutOfMemory>
    ensures { IfOk result (λ text. text ≡ line_ended (count_text (codes "refused") refused)
        ++ line_ended (count_text (codes "blocked") blocked)
        ++ stream_lines 0 moved.now ++ line_ended (done_text steps)) }
{
    let mut out = TextBytes::new(alloc);
    out.push_slice(b"refused ")?;
    push_number(&mut out, refused)?;
    out.push_slice(b"\nblocked ")?;
    push_number(&mut out, blocked)?;
    out.push(b'\n')?;
    push_ending(&mut out, moved, steps)?;
    Ok(out)
}

// Adds a host end.
fn push_host_end(out: &mut TextBytes, end: HostEnd) -> Result<(), OutOfMemory>
    ensures { OnOk result (out.new ≡ out.old ++ host_end_text end) }
{
    match end {
        HostEnd::Writer(number) => {
            out.push_slice(b"writer ")?;
            push_number(out, number)
        }
        HostEnd::Reader(number) => {
            out.push_slice(b"reader ")?;
            push_number(out, number)
        }
    }
}

// Adds why a run stopped, and a line feed.
fn push_stop(out: &mut TextBytes, stop: Stop) -> Result<(), OutOfMemory>
    ensures { OnOk result (out.new ≡ out.old ++ line_ended (stop_text stop)) }
{
    match stop {
        Stop::HostFailed { end } => {
            out.push_slice(b"host-failed ")?;
            push_host_end(out, end)?;
            out.push(b'\n')
        }
        Stop::HostBroke { end } => {
            out.push_slice(b"host-broke ")?;
            push_host_end(out, end)?;
            out.push(b'\n')
        }
        Stop::BadItem { stream } => push_bad_item(out, stream),
        Stop::StoreTrapped => out.push_slice(b"store-trapped\n"),
    }
}

/// The text of a run that stopped, from the replies before and from why it did.
pub fn stopped_text(alloc: Global, replies: &[Reply], stop: Stop) -> Result<TextBytes, OutOfMemory>
    ensures ok { IfOk result (λ text. text ≡ stopped_text replies.now stop) }
{
    let mut out = TextBytes::new(alloc);
    push_replies(&mut out, replies)?;
    push_stopped(&mut out, replies.len() + 1, stop)?;
    Ok(out)
}

// Adds the line of the step of this number, from 1, at which a run stopped.
pub(crate) fn push_stopped(out: &mut TextBytes, at: usize, stop: Stop) -> Result<(), OutOfMemory>
    ensures { OnOk result (out.new ≡ out.old
        ++ line_ended (words (codes "stopped" ∷ decimal at ∷ stop_text stop ∷ []))) }
{
    out.push_slice(b"stopped ")?;
    push_number(out, at)?;
    out.push(b' ')?;
    push_stop(out, stop)
}

/// The text for words of the program that are none of its own.
pub fn usage_text() -> &'static [u8]
    ensures { result.now ≡ usage_text }
{
    b"usage: strm run | strm gen N SEED\n"
}

/// The text for a line that is not in the grammar.
pub fn bad_line_text(alloc: Global, line: u32) -> Result<TextBytes, OutOfMemory>
    ensures ok { IfOk result (λ text. text ≡ bad_line_text line) }
{
    let mut out = TextBytes::new(alloc);
    out.push_slice(b"bad line ")?;
    push_number(&mut out, line)?;
    out.push(b'\n')?;
    Ok(out)
}

/// The text for an input over the limits.
pub fn too_long_text() -> &'static [u8]
    ensures { result.now ≡ too_long_text }
{
    b"too long\n"
}

/// The text for a source that failed.
pub fn read_fault_text() -> &'static [u8]
    ensures { result.now ≡ read_fault_text }
{
    b"read fault\n"
}
