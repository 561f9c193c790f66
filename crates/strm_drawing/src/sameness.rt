//! Whether two rows are the same.
//!
//! Ours.

ghost use Rattle.std.specs.Prelude.{◌≡◌, ◌≢◌, false, IsTrue};

use crate::arrows::{Arrow, Lane, Row};
use crate::marks::{Deed, DrawnCode, Mark, Object, Said};
use strm_codes::refusals::Refusal;

// Whether two kinds of steps are the same.
fn same_deed(a: Deed, b: Deed) -> bool
    ensures { IsTrue result → a ≡ b }
{
    a == b
}

// Whether two lanes are.
pub(crate) fn same_lane(a: Lane, b: Lane) -> bool
    ensures same { IsTrue result → a ≡ b }
    ensures other { result ≡ false → a ≢ b }
{
    a == b
}

// Whether two objects of steps are.
fn same_object(a: Object, b: Object) -> bool
    ensures { IsTrue result → a ≡ b }
{
    a == b
}

// Whether two numbers of lines are.
fn same_count(a: Option<u32>, b: Option<u32>) -> bool
    ensures { IsTrue result → a ≡ b }
{
    a == b
}

// Whether two codes are.
fn same_code(a: DrawnCode, b: DrawnCode) -> bool
    ensures { IsTrue result → a ≡ b }
{
    match (a, b) {
        (DrawnCode::Blocked, DrawnCode::Blocked) => true,
        (DrawnCode::Completed(m), DrawnCode::Completed(n)) => m == n,
        (DrawnCode::Dropped(m), DrawnCode::Dropped(n)) => m == n,
        (DrawnCode::Cancelled(m), DrawnCode::Cancelled(n)) => m == n,
        _ => false,
    }
}

// Whether two refusals are.
fn same_refusal(a: Refusal, b: Refusal) -> bool
    ensures { IsTrue result → a ≡ b }
{
    a == b
}

// Whether two answers are.
fn same_said(a: &Said, b: &Said) -> bool
    ensures { IsTrue result → a.now ≡ b.now }
{
    match (a, b) {
        (Said::Done, Said::Done) | (Said::Nothing, Said::Nothing) => true,
        (Said::Number(m), Said::Number(n)) => *m == *n,
        (Said::Pair(p), Said::Pair(q)) => {
            p.read == q.read && p.write == q.write && p.stream == q.stream
        }
        (Said::Code(c), Said::Code(d)) => same_code(*c, *d),
        (
            Said::Member { handle, code },
            Said::Member {
                handle: other,
                code: told,
            },
        ) => *handle == *other && same_code(*code, *told),
        (Said::Refused(r), Said::Refused(s)) => same_refusal(*r, *s),
        _ => false,
    }
}

// Whether two marks are.
fn same_mark(a: &Mark, b: &Mark) -> bool
    ensures { IsTrue result → a.now ≡ b.now }
{
    same_deed(a.deed, b.deed)
        && same_lane(a.lane, b.lane)
        && same_lane(a.other, b.other)
        && same_object(a.object, b.object)
        && same_count(a.count, b.count)
        && same_said(&a.said, &b.said)
}

// Whether two arrows are.
fn same_arrow(a: &Arrow, b: &Arrow) -> bool
    ensures { IsTrue result → a.now ≡ b.now }
{
    a.stream == b.stream && a.count == b.count && same_lane(a.from, b.from) && same_lane(a.to, b.to)
}

/// Whether two rows are the same.
pub(crate) fn same_row(a: &Row, b: &Row) -> bool
    ensures { IsTrue result → a.now ≡ b.now }
{
    match (a, b) {
        (Row::Mark(m), Row::Mark(n)) => same_mark(m, n),
        (Row::Arrow(m), Row::Arrow(n)) => same_arrow(m, n),
        _ => false,
    }
}
