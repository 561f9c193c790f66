//! A picture as a text of SVG: lanes side by side, and below their heads the rows, from the first step on.
//!
//! Meaning: `Svg.antt`. Ours. Lengths are in pixels.

ghost use Rattle.std.specs.Prelude.{◌≡◌, ◌∷◌, ◌++◌, [], IfOk, OnOk};
ghost use Rattle.strm_drawing.specs.Moves.{arrow_in, arrows_in};
ghost use Rattle.strm_drawing.specs.Svg.{count_text, arrows_of_block, arrows_of_blocks, Shown, IsSvg};

use crate::arrows::{Arrow, Lane, Row};
use crate::folding::Block;
use crate::labels::{push_label, push_lane, push_said, push_stop};
use crate::lanes::{Lanes, NO_LANE};
use crate::marks::{Deed, DrawnCode, Mark, Said};
use crate::pictures::Picture;
use crate::shapes::{
    Point, Sign, begin_text, end_text, push_attribute, push_line, push_path, push_rect, push_sign,
};
use crate::styles::STYLE;
use std::alloc::Global;
use strm_codes::counts::OutOfMemory;
use strm_lines::lists::TextBytes;
use strm_lines::texts::push_number;
use strm_machine::stops::Stop;

// From the last lane to the right edge, and where the numbers of steps end.
const LAST_WIDTH: u64 = 340;

const NUMBER_END: u64 = 116;

// How high the rows are: of heads, of marks, of arrows, and what is left free below all.
const HEADS_HEIGHT: u64 = 44;

const MARK_HEIGHT: u64 = 22;

const ARROW_HEIGHT: u64 = 24;

const FOOT_HEIGHT: u64 = 12;

// After so many rows the heads stand again.
const ROWS_BELOW_HEADS: u32 = 40;

// The size of a head.
const HEAD_WIDTH: u64 = 116;

const HEAD_HEIGHT: u64 = 24;

// From a mark to the right to where its words begin, and down to where letters stand.
const WORDS_RIGHT: u64 = 10;

const WORDS_DOWN: u64 = 4;

// Where it stands how often rows come again, and how far below their ground's edge.
const TIMES_BEGIN: u64 = 6;

const TIMES_DOWN: u64 = 15;

// From the middle of an arrow's row down to the arrow.
const ARROW_DOWN: u64 = 5;

// How an arrow goes that leads back to its lane, and from there to the right to its count.
const LOOP: &[u8] = b"m0-5c44-4 44 14 0 10";

const LOOP_RIGHT: u64 = 42;

// How far down a picture goes so far, the number of the last step, and how many rows stand below the last heads.
#[derive(Clone, Copy)]
struct Pen {
    down: u64,
    step: u64,
    rows_below_heads: u32,
}

impl Pen {
    // Goes down by so much; answers how far down the middle of that is.
    fn go_down(&mut self, height: u64) -> u64 {
        let middle = self.down.saturating_add(height / 2);
        self.down = self.down.saturating_add(height);
        middle
    }

    // Goes on to the next row, of this height.
    fn next_row(&mut self, height: u64) -> u64 {
        self.rows_below_heads = self.rows_below_heads.saturating_add(1);
        self.go_down(height)
    }

    // Goes on to the next step.
    fn next_step(&mut self) -> u64 {
        self.step = self.step.saturating_add(1);
        self.step
    }

    // So many steps come so many times more.
    fn skip(&mut self, steps: u64, times: u32) {
        let more = steps.saturating_mul(u64::from(times));
        self.step = self.step.saturating_add(more);
    }
}

// How wide a picture is.
fn width_of(lanes: &Lanes) -> u64 {
    lanes.last_x().saturating_add(LAST_WIDTH)
}

// A place to the right of another and below it.
fn beside(at: Point, right: u64, down: u64) -> Point {
    Point {
        x: at.x.saturating_add(right),
        y: at.y.saturating_add(down),
    }
}

// The sign of a mark and its class.
fn sign_of(mark: &Mark) -> (Sign, &'static [u8]) {
    match mark.said {
        Said::Refused(_) => return (Sign::Cross, b"refused"),
        Said::Code(DrawnCode::Blocked) => return (Sign::Ring, b"wait"),
        _ => {}
    }
    match mark.deed {
        Deed::Write | Deed::Read => (Sign::Dot, b"done"),
        Deed::Event | Deed::SetPoll => (Sign::Diamond, b"event"),
        Deed::CancelWrite | Deed::CancelRead => (Sign::Square, b"dot"),
        Deed::DropWrite | Deed::DropRead | Deed::Close | Deed::SetDrop | Deed::ErrDrop => {
            (Sign::Cross, b"gone")
        }
        Deed::Host | Deed::Feed | Deed::Pipe | Deed::Grant | Deed::Drive => {
            (Sign::Triangle, b"host")
        }
        _ => (Sign::Dot, b"dot"),
    }
}

// The class of the words that were answered.
fn class_of(said: Said) -> &'static [u8] {
    match said {
        Said::Refused(_) => b"bad",
        Said::Code(DrawnCode::Blocked) => b"waits",
        _ => b"said",
    }
}

// Adds the head of a lane.
fn push_head(out: &mut TextBytes, at: Point, lane: Lane) -> Result<(), OutOfMemory> {
    let corner = Point {
        x: at.x.saturating_sub(HEAD_WIDTH / 2),
        y: at.y.saturating_sub(HEAD_HEIGHT / 2),
    };
    push_rect(out, b"box", corner, HEAD_WIDTH, HEAD_HEIGHT)?;
    begin_text(out, b"head", beside(at, 0, WORDS_DOWN))?;
    push_lane(out, lane)?;
    end_text(out)
}

// Adds the heads of all lanes.
fn push_heads(out: &mut TextBytes, lanes: &Lanes, pen: &mut Pen) -> Result<(), OutOfMemory> {
    let y = pen.go_down(HEADS_HEIGHT);
    pen.rows_below_heads = 0;
    for lane in lanes.all.as_slice() {
        let x = lanes.x_of(*lane);
        push_head(out, Point { x, y }, *lane)?;
    }
    Ok(())
}

// Adds the heads again, where the last ones stand too far up.
fn push_heads_again(out: &mut TextBytes, lanes: &Lanes, pen: &mut Pen) -> Result<(), OutOfMemory> {
    if pen.rows_below_heads >= ROWS_BELOW_HEADS {
        push_heads(out, lanes, pen)
    } else {
        Ok(())
    }
}

// Adds the number of the next step.
fn push_step(out: &mut TextBytes, y: u64, pen: &mut Pen) -> Result<(), OutOfMemory> {
    let at = Point { x: NUMBER_END, y };
    begin_text(out, b"step", beside(at, 0, WORDS_DOWN))?;
    push_number(out, pen.next_step())?;
    end_text(out)
}

// Adds a tie from a mark to the lane that it leads to, and of a drive round one across all lanes.
fn push_tie(
    out: &mut TextBytes,
    lanes: &Lanes,
    mark: &Mark,
    from: Point,
) -> Result<(), OutOfMemory> {
    let x = if mark.deed == Deed::Drive {
        lanes.last_x()
    } else if mark.other == Lane::Nobody {
        from.x
    } else {
        lanes.x_of(mark.other)
    };
    if x == from.x {
        return Ok(());
    }
    push_line(out, b"tie", from, Point { x, y: from.y })
}

// Adds the words of a mark.
fn push_words(out: &mut TextBytes, at: Point, mark: &Mark) -> Result<(), OutOfMemory> {
    begin_text(out, b"deed", beside(at, WORDS_RIGHT, WORDS_DOWN))?;
    push_label(out, mark)?;
    out.push_slice(b" <tspan class=\"")?;
    out.push_slice(class_of(mark.said))?;
    out.push_slice(b"\">")?;
    push_said(out, mark)?;
    out.push_slice(b"</tspan>")?;
    end_text(out)
}

// The text of a mark: heads where they stand again, the step's number, a tie, a sign and words.
fn mark_text(
    alloc: Global,
    lanes: &Lanes,
    mark: &Mark,
    again: bool,
    pen: &mut Pen,
) -> Result<TextBytes, OutOfMemory> {
    let mut out = TextBytes::new(alloc);
    if again {
        push_heads_again(&mut out, lanes, pen)?;
    }
    let y = pen.next_row(MARK_HEIGHT);
    let x = lanes.x_of(mark.lane);
    let at = Point { x, y };
    push_step(&mut out, y, pen)?;
    push_tie(&mut out, lanes, mark, at)?;
    let (sign, class) = sign_of(mark);
    push_sign(&mut out, class, at, sign)?;
    push_words(&mut out, at, mark)?;
    Ok(out)
}

// Adds the count of an arrow.
fn push_count(
    out: &mut TextBytes,
    class: &[u8],
    at: Point,
    arrow: &Arrow,
) -> Result<(), OutOfMemory>
    ensures { OnOk result (out.new ≡ out.old ++ count_text class.now at arrow.now) }
{
    begin_text(out, class, at)?;
    push_number(out, arrow.count)?;
    out.push_slice(b" on stream ")?;
    push_number(out, arrow.stream)?;
    end_text(out)
}

// Adds an arrow, from the lane of its write end to that of its read end, with its count.
fn push_arrow(out: &mut TextBytes, lanes: &Lanes, arrow: &Arrow, y: u64) -> Result<(), OutOfMemory>
    ensures { OnOk result
        (Shown lanes.now.all.items (arrow.now ∷ []) out.old out.new) }
{
    let from = Point {
        x: lanes.x_of(arrow.from),
        y: y.saturating_add(ARROW_DOWN),
    };
    let to = Point {
        x: lanes.x_of(arrow.to),
        y: from.y,
    };
    if from.x == to.x {
        push_path(out, b"move", from, LOOP)?;
        push_count(out, b"aside", beside(from, LOOP_RIGHT, WORDS_DOWN), arrow)?;
        return Ok(());
    }
    push_line(out, b"move", from, to)?;
    let x = from.x / 2 + to.x / 2;
    push_count(out, b"count", Point { x, y }, arrow)?;
    Ok(())
}

// Adds a row.
fn push_row(
    alloc: Global,
    out: &mut TextBytes,
    lanes: &Lanes,
    row: &Row,
    again: bool,
    pen: &mut Pen,
) -> Result<(), OutOfMemory>
    ensures { OnOk result
        (Shown lanes.now.all.items (arrow_in row.now) out.old out.new) }
{
    match row {
        Row::Mark(mark) => {
            let text = mark_text(alloc, lanes, mark, again, pen)?;
            out.push_slice(text.as_slice())?;
            Ok(())
        }
        Row::Arrow(arrow) => {
            let y = pen.next_row(ARROW_HEIGHT);
            push_arrow(out, lanes, arrow, y)
        }
    }
}

// Adds rows, with the heads again between them or not.
fn push_rows(
    alloc: Global,
    out: &mut TextBytes,
    lanes: &Lanes,
    rows: &[Row],
    again: bool,
    pen: &mut Pen,
) -> Result<(), OutOfMemory>
    ensures { OnOk result
        (Shown lanes.now.all.items (arrows_in rows.now) out.old out.new) }
{
    for k in 0..rows.len() {
        push_row(alloc, out, lanes, &rows[k], again, pen)?;
    }
    Ok(())
}

// How high a row is.
fn height_of(row: &Row) -> u64 {
    match row {
        Row::Mark(_) => MARK_HEIGHT,
        Row::Arrow(_) => ARROW_HEIGHT,
    }
}

// How high rows are together.
fn height_of_all(rows: &[Row]) -> u64 {
    let mut height = 0u64;
    for row in rows {
        height = height.saturating_add(height_of(row));
    }
    height
}

// The ground of rows that come again, and how often they do.
fn ground_text(
    alloc: Global,
    lanes: &Lanes,
    block: &Block,
    pen: &mut Pen,
) -> Result<TextBytes, OutOfMemory> {
    let mut out = TextBytes::new(alloc);
    if block.times == 1 {
        return Ok(out);
    }
    push_heads_again(&mut out, lanes, pen)?;
    let corner = Point { x: 0, y: pen.down };
    let height = height_of_all(block.rows.as_slice());
    push_rect(&mut out, b"fold", corner, width_of(lanes), height)?;
    begin_text(&mut out, b"times", beside(corner, TIMES_BEGIN, TIMES_DOWN))?;
    out.push_slice(b"&#215; ")?;
    push_number(&mut out, block.times)?;
    end_text(&mut out)?;
    Ok(out)
}

// Adds the rows of a block, each once.
fn push_block(
    alloc: Global,
    out: &mut TextBytes,
    lanes: &Lanes,
    block: &Block,
    pen: &mut Pen,
) -> Result<(), OutOfMemory>
    ensures { OnOk result
        (Shown lanes.now.all.items (arrows_of_block block.now) out.old out.new) }
{
    let ground = ground_text(alloc, lanes, block, pen)?;
    let before = pen.step;
    out.push_slice(ground.as_slice())?;
    push_rows(
        alloc,
        out,
        lanes,
        block.rows.as_slice(),
        block.times == 1,
        pen,
    )?;
    let steps = pen.step.saturating_sub(before);
    pen.skip(steps, block.times.saturating_sub(1));
    Ok(())
}

// Adds the rows of all blocks.
fn push_blocks(
    alloc: Global,
    out: &mut TextBytes,
    lanes: &Lanes,
    blocks: &[Block],
    pen: &mut Pen,
) -> Result<(), OutOfMemory>
    ensures { OnOk result
        (Shown lanes.now.all.items (arrows_of_blocks blocks.now) out.old out.new) }
{
    for k in 0..blocks.len() {
        push_block(alloc, out, lanes, &blocks[k], pen)?;
    }
    Ok(())
}

// The text of why a run stopped, and at which step.
fn end_of_run(alloc: Global, stop: Option<Stop>, pen: &mut Pen) -> Result<TextBytes, OutOfMemory> {
    let mut out = TextBytes::new(alloc);
    let Some(stop) = stop else {
        return Ok(out);
    };
    let y = pen.next_row(MARK_HEIGHT);
    let at = Point { x: NO_LANE, y };
    push_step(&mut out, y, pen)?;
    push_sign(&mut out, b"refused", at, Sign::Cross)?;
    begin_text(&mut out, b"bad", beside(at, WORDS_RIGHT, WORDS_DOWN))?;
    out.push_slice(b"stopped: ")?;
    push_stop(&mut out, stop)?;
    end_text(&mut out)?;
    Ok(out)
}

// Adds the lines of the lanes, from top to bottom.
fn push_lanes(out: &mut TextBytes, lanes: &Lanes, down: u64) -> Result<(), OutOfMemory> {
    for lane in lanes.all.as_slice() {
        let x = lanes.x_of(*lane);
        push_line(out, b"lane", Point { x, y: 0 }, Point { x, y: down })?;
    }
    Ok(())
}

// What stands before the rows of a picture that goes so far down: its size, its style, its lanes.
fn front_text(alloc: Global, lanes: &Lanes, down: u64) -> Result<TextBytes, OutOfMemory> {
    let mut out = TextBytes::new(alloc);
    let width = width_of(lanes);
    out.push_slice(b"<svg xmlns=\"http://www.w3.org/2000/svg\"")?;
    push_attribute(&mut out, b"width", width)?;
    push_attribute(&mut out, b"height", down)?;
    out.push_slice(b" viewBox=\"0 0 ")?;
    push_number(&mut out, width)?;
    out.push_slice(b" ")?;
    push_number(&mut out, down)?;
    out.push_slice(b"\">\n")?;
    out.push_slice(STYLE)?;
    push_lanes(&mut out, lanes, down)?;
    Ok(out)
}

/// The text of a picture.
pub fn svg_text(alloc: Global, picture: &Picture) -> Result<TextBytes, OutOfMemory>
    ensures { IfOk result (IsSvg picture.now.blocks.items) }
{
    let lanes = Lanes::of(alloc, picture.blocks.as_slice())?;
    let mut pen = Pen {
        down: 0,
        step: 0,
        rows_below_heads: 0,
    };
    let mut rows = TextBytes::new(alloc);
    push_heads(&mut rows, &lanes, &mut pen)?;
    push_blocks(
        alloc,
        &mut rows,
        &lanes,
        picture.blocks.as_slice(),
        &mut pen,
    )?;
    let end = end_of_run(alloc, picture.stop, &mut pen)?;
    let down = pen.down.saturating_add(FOOT_HEIGHT);
    let mut out = front_text(alloc, &lanes, down)?;
    out.push_slice(rows.as_slice())?;
    out.push_slice(end.as_slice())?;
    out.push_slice(b"</svg>\n")?;
    Ok(out)
}
