//! The frames of a piece: which are allowed, and what they put into the lanes.
//!
//! A frame of which some bytes came before is completed where they lie; all other frames are taken where the
//! piece lies. They are gone over twice: first to see that all of the piece may be taken, then to put the bytes
//! of data frames into the lanes. Out of memory, what was put is taken out again.
//!
//! Meaning: `Taking.antt`. Ours.

ghost use Rattle.std.specs.Prelude.{◌≡◌, ◌-◌, ◌+◌, ◌<◌, ◌≤◌, ◌++◌, [], ℕ, None, false, length, map, slice_set, slice_index_or, take, drop, IfOk, IfErr, OnOk, OnErr, IfSome, IsTrue, if◌then◌else◌};
ghost use Rattle.strm_frames.specs.Streams.{IsPartOfFrame};
ghost use Rattle.strm_frames.specs.Taking.{Surveys, SurveysFault, Appends, AppendsSome, Counts, Retracts, StopsAtFrame, IsFrameBegun, AreSpelledFrames};

use crate::errors::{Fault, MuxError};
use crate::fronts::{Front, next_front};

// The most bytes of a piece that a frame may want of which one byte came before.
const MOST: usize = 257;

// How many bytes the frame at the front has; all, where none can be there; none, where there is less than a frame.
fn front_len(bytes: &[u8]) -> Option<usize>
    ensures part { result ≡ None → IsPartOfFrame bytes.now }
    ensures some { IfSome result (λ len. (0 < len) × (len ≤ length bytes.now)) }
    ensures stops { IfSome result (λ len. StopsAtFrame (take len bytes.now)) }
{
    match next_front(bytes) {
        Front::Data { more, .. } => Some(bytes.len() - more.len()),
        Front::End { more, .. } => Some(bytes.len() - more.len()),
        Front::Part => None,
        Front::Other => Some(bytes.len()),
        Front::Empty => Some(bytes.len()),
    }
}

// Adds bytes at the end of a list. A single one, as a stream may come, is not copied as a slice.
#[inline(always)]
fn add(kept: &mut Vec<u8>, bytes: &[u8]) -> Result<(), MuxError>
    ensures ok { OnOk result (kept.new.items ≡ kept.old.items ++ bytes.now) }
    ensures err { OnErr result (kept.new.items ≡ kept.old.items) }
    ensures memory { IfErr result (λ error. error ≡ MuxError.OutOfMemory) }
{
    if bytes.len() == 1 {
        return match kept.push(bytes[0]) {
            Ok(()) => Ok(()),
            Err(_) => Err(MuxError::OutOfMemory),
        };
    }
    match kept.extend_from_slice(bytes) {
        Ok(()) => Ok(()),
        Err(_) => Err(MuxError::OutOfMemory),
    }
}

// Adds to the first bytes of a frame what of a piece completes it, and answers how many bytes that were; none,
// where the whole piece doesn't.
#[inline(always)]
pub(crate) fn complete(rest: &mut Vec<u8>, piece: &[u8]) -> Result<Option<usize>, MuxError>
    requires { IsPartOfFrame rest.old.items }
    ensures ok { IfOk result (IsFrameBegun rest.old.items rest.new.items piece.now) }
    ensures err { OnErr result (rest.new.items ≡ rest.old.items) }
    ensures memory { IfErr result (λ error. error ≡ MuxError.OutOfMemory) }
{
    let before = rest.len();
    if before == 0 {
        return Ok(Some(0));
    }
    let (front, _more) = piece.split_at(piece.len().min(MOST));
    add(rest, front)?;
    match front_len(rest) {
        None => Ok(None),
        Some(len) => {
            rest.truncate(len);
            Ok(Some(len - before))
        }
    }
}

// Goes over the frames of a piece whose first byte has this place, and marks which lanes they end. It
// answers how many bytes they take together.
pub(crate) fn survey(bytes: &[u8], place: u64, ended: &mut [bool; 256]) -> Result<usize, Fault>
    ensures ok { IfOk result (λ used. Surveys bytes.now ended.old ended.new used) }
    ensures fault { IfErr result (λ fault. SurveysFault bytes.now ended.old place fault) }
{
    let mut rest = bytes;
    'frames: loop {
        let at = place.saturating_add((bytes.len() - rest.len()) as u64);
        match next_front(rest) {
            Front::Data { lane, more, .. } => {
                if ended[lane as usize] {
                    return Err(Fault::AfterEnd { at });
                }
                rest = more;
            }
            Front::End { lane, more } => {
                if ended[lane as usize] {
                    return Err(Fault::AfterEnd { at });
                }
                ended[lane as usize] = true;
                rest = more;
            }
            Front::Part => return Ok(bytes.len() - rest.len()),
            Front::Other => return Err(Fault::BadKind { at }),
            Front::Empty => return Err(Fault::EmptyFrame { at }),
        }
    }
}

// The same of two pieces, of which the first stops at a frame; it answers how many bytes of the second are used.
pub(crate) fn survey_both(
    first: &[u8],
    second: &[u8],
    place: u64,
    ended: &mut [bool; 256],
) -> Result<usize, Fault>
    requires { StopsAtFrame first.now }
    ensures ok { IfOk result (λ used.
        Surveys (first.now ++ second.now) ended.old ended.new (length first.now + used)) }
    ensures within { IfOk result (λ used. used ≤ length second.now) }
    ensures whole { OnOk result (AreSpelledFrames first.now) }
    ensures fault { IfErr result (λ fault.
        SurveysFault (first.now ++ second.now) ended.old place fault) }
{
    let _all = survey(first, place, ended)?;
    survey(second, place.saturating_add(first.len() as u64), ended)
}

// Bytes at the end of a list; where memory has run out, none.
fn keep(kept: &mut Vec<u8>, bytes: &[u8]) -> bool
    ensures { kept.new.items ≡ (if result then kept.old.items ++ bytes.now else kept.old.items) }
{
    kept.extend_from_slice(bytes).is_ok()
}

// Bytes at the end of a lane; where memory has run out, none.
fn keep_in(lanes: &mut [Vec<u8>; 256], lane: u8, bytes: &[u8]) -> bool
    ensures kept { IsTrue result →
        map (λ v. v.items) lanes.new ≡ slice_set (map (λ v. v.items) lanes.old) lane
        (slice_index_or (map (λ v. v.items) lanes.old) lane [] ++ bytes.now) }
    ensures unkept { result ≡ false → map (λ v. v.items) lanes.new ≡ map (λ v. v.items) lanes.old }
{
    keep(&mut lanes[lane as usize], bytes)
}

// Puts the bytes of each data frame into its lane. Out of memory it answers how many bytes the
// frames before have.
pub(crate) fn append(lanes: &mut [Vec<u8>; 256], bytes: &[u8]) -> Result<(), usize>
    ensures ok { OnOk result (Appends bytes.now
        (map (λ v. v.items) lanes.old) (map (λ v. v.items) lanes.new)) }
    ensures err { IfErr result (λ done. AppendsSome bytes.now
        (map (λ v. v.items) lanes.old) (map (λ v. v.items) lanes.new) done) }
{
    let mut rest = bytes;
    'frames: loop {
        match next_front(rest) {
            Front::Data {
                lane,
                bytes: data,
                more,
            } => {
                if !keep_in(lanes, lane, data) {
                    return Err(bytes.len() - rest.len());
                }
                rest = more;
            }
            Front::End { more, .. } => rest = more,
            Front::Part => return Ok(()),
            Front::Other => return Ok(()),
            Front::Empty => return Ok(()),
        }
    }
}

// How many bytes of a lane are in these frames.
fn count(bytes: &[u8], lane: u8) -> usize
    ensures { Counts bytes.now lane result }
{
    let mut total = 0;
    let mut rest = bytes;
    'frames: loop {
        match next_front(rest) {
            Front::Data {
                lane: named,
                bytes: data,
                more,
            } => {
                if named == lane {
                    total += data.len();
                }
                rest = more;
            }
            Front::End { more, .. } => rest = more,
            Front::Part => return total,
            Front::Other => return total,
            Front::Empty => return total,
        }
    }
}

// Cuts bytes off the end of a list.
fn cut_end(kept: &mut Vec<u8>, count: usize)
    ensures { kept.new.items ≡ take (length kept.old.items - count) kept.old.items }
{
    let len = kept.len().saturating_sub(count);
    kept.truncate(len);
}

// Cuts bytes off the end of a lane.
fn cut_in(lanes: &mut [Vec<u8>; 256], lane: u8, count: usize)
    ensures { let kept = slice_index_or (map (λ v. v.items) lanes.old) lane [] in
        map (λ v. v.items) lanes.new
        ≡ slice_set (map (λ v. v.items) lanes.old) lane (take (length kept - count) kept) }
{
    cut_end(&mut lanes[lane as usize], count);
}

// Takes the bytes of these frames out of the lanes, at whose ends they are. All frames are gone over for
// each lane: this is done only where memory has run out.
pub(crate) fn retract(lanes: &mut [Vec<u8>; 256], bytes: &[u8])
    ensures { Retracts bytes.now (map (λ v. v.items) lanes.old) (map (λ v. v.items) lanes.new) }
{
    for lane in 0..256usize {
        let more = count(bytes, lane as u8);
        cut_in(lanes, lane as u8, more);
    }
}

// Puts the frames of two pieces into lanes; where memory has run out, none.
fn append_both(lanes: &mut [Vec<u8>; 256], first: &[u8], second: &[u8]) -> bool
    requires { AreSpelledFrames first.now }
    ensures ok { IsTrue result → Appends (first.now ++ second.now)
        (map (λ v. v.items) lanes.old) (map (λ v. v.items) lanes.new) }
    ensures err { result ≡ false → map (λ v. v.items) lanes.new ≡ map (λ v. v.items) lanes.old }
{
    if let Err(done) = append(lanes, first) {
        retract(lanes, &first[..done]);
        return false;
    }
    if let Err(done) = append(lanes, second) {
        retract(lanes, &second[..done]);
        retract(lanes, first);
        return false;
    }
    true
}

// Takes bytes off the front.
fn leave(bytes: &mut Vec<u8>, used: usize)
    requires { used ≤ length bytes.old.items }
    ensures { bytes.new.items ≡ drop used bytes.old.items }
{
    let left = bytes.len() - used;
    bytes.as_mut_slice().copy_within(used.., 0);
    bytes.truncate(left);
}

// Puts the frame that was completed, and so many bytes of frames behind it, into the lanes, and keeps what follows
// those; where memory has run out, nothing changes.
pub(crate) fn put_both(
    lanes: &mut [Vec<u8>; 256],
    rest: &mut Vec<u8>,
    piece: &[u8],
    used: usize,
) -> bool
    requires whole { AreSpelledFrames rest.old.items }
    requires within { used ≤ length piece.now }
    ensures ok { IsTrue result →
        Appends (take (length rest.old.items + used) (rest.old.items ++ piece.now))
        (map (λ v. v.items) lanes.old) (map (λ v. v.items) lanes.new) }
    ensures left { IsTrue result →
        rest.new.items ≡ drop (length rest.old.items + used) (rest.old.items ++ piece.now) }
    ensures err { result ≡ false → (map (λ v. v.items) lanes.new ≡ map (λ v. v.items) lanes.old)
        × (rest.new.items ≡ rest.old.items) }
{
    let first = rest.len();
    let (taken, left) = piece.split_at(used);
    if !keep(rest, left) {
        return false;
    }
    if append_both(lanes, &rest[..first], taken) {
        leave(rest, first);
        true
    } else {
        rest.truncate(first);
        false
    }
}
