//! Elements of SVG: lines, texts, and the signs of marks.
//!
//! Ours. Lengths are in pixels.

ghost use Rattle.std.specs.Prelude.{◌≡◌, ◌++◌, OnOk};
ghost use Rattle.strm_drawing.specs.Svg.{attribute_text, element_begin, open_text, close_text, line_text, path_text};

use strm_codes::counts::OutOfMemory;
use strm_lines::lists::TextBytes;
use strm_lines::texts::push_number;

/// A place in a picture, from its upper left corner.
#[derive(Clone, Copy)]
pub(crate) struct Point {
    pub x: u64,
    pub y: u64,
}

/// The signs of marks.
#[derive(Clone, Copy)]
pub(crate) enum Sign {
    Dot,
    Ring,
    Diamond,
    Square,
    Triangle,
    Cross,
}

/// Adds an attribute.
pub(crate) fn push_attribute(
    out: &mut TextBytes,
    name: &[u8],
    value: u64,
) -> Result<(), OutOfMemory>
    ensures { OnOk result (out.new ≡ out.old ++ attribute_text name.now value) }
{
    out.push_slice(b" ")?;
    out.push_slice(name)?;
    out.push_slice(b"=\"")?;
    push_number(out, value)?;
    out.push_slice(b"\"")
}

// Begins an element of a class.
fn begin_element(out: &mut TextBytes, name: &[u8], class: &[u8]) -> Result<(), OutOfMemory>
    ensures { OnOk result (out.new ≡ out.old ++ element_begin name.now class.now) }
{
    out.push_slice(b"<")?;
    out.push_slice(name)?;
    out.push_slice(b" class=\"")?;
    out.push_slice(class)?;
    out.push_slice(b"\"")
}

/// Adds a line.
pub(crate) fn push_line(
    out: &mut TextBytes,
    class: &[u8],
    from: Point,
    to: Point,
) -> Result<(), OutOfMemory>
    ensures { OnOk result (out.new ≡ out.old ++ line_text class.now from to) }
{
    begin_element(out, b"line", class)?;
    push_attribute(out, b"x1", from.x)?;
    push_attribute(out, b"y1", from.y)?;
    push_attribute(out, b"x2", to.x)?;
    push_attribute(out, b"y2", to.y)?;
    out.push_slice(b"/>\n")
}

/// Adds a rectangle, by its upper left corner.
pub(crate) fn push_rect(
    out: &mut TextBytes,
    class: &[u8],
    corner: Point,
    width: u64,
    height: u64,
) -> Result<(), OutOfMemory> {
    begin_element(out, b"rect", class)?;
    push_attribute(out, b"x", corner.x)?;
    push_attribute(out, b"y", corner.y)?;
    push_attribute(out, b"width", width)?;
    push_attribute(out, b"height", height)?;
    out.push_slice(b"/>\n")
}

/// Begins a text, which `end_text` ends.
pub(crate) fn begin_text(out: &mut TextBytes, class: &[u8], at: Point) -> Result<(), OutOfMemory>
    ensures { OnOk result (out.new ≡ out.old ++ open_text class.now at) }
{
    begin_element(out, b"text", class)?;
    push_attribute(out, b"x", at.x)?;
    push_attribute(out, b"y", at.y)?;
    out.push_slice(b">")
}

/// Ends a text.
pub(crate) fn end_text(out: &mut TextBytes) -> Result<(), OutOfMemory>
    ensures { OnOk result (out.new ≡ out.old ++ close_text) }
{
    out.push_slice(b"</text>\n")
}

/// Adds a path that begins at a place, and goes on from there.
pub(crate) fn push_path(
    out: &mut TextBytes,
    class: &[u8],
    from: Point,
    steps: &[u8],
) -> Result<(), OutOfMemory>
    ensures { OnOk result (out.new ≡ out.old ++ path_text class.now from steps.now) }
{
    begin_element(out, b"path", class)?;
    out.push_slice(b" d=\"M")?;
    push_number(out, from.x)?;
    out.push_slice(b" ")?;
    push_number(out, from.y)?;
    out.push_slice(steps)?;
    out.push_slice(b"\"/>\n")
}

// The outline of a sign, from its middle.
fn outline_of(sign: Sign) -> &'static [u8] {
    match sign {
        Sign::Dot => b"m-3 0a3 3 0 1 0 6 0a3 3 0 1 0-6 0",
        Sign::Ring => b"m-5 0a5 5 0 1 0 10 0a5 5 0 1 0-10 0",
        Sign::Diamond => b"m-5 0l5-5 5 5-5 5z",
        Sign::Square => b"m-4-4h8v8h-8z",
        Sign::Triangle => b"m-4-5l9 5-9 5z",
        Sign::Cross => b"m-4-4l8 8m-8 0l8-8",
    }
}

/// Adds a sign.
pub(crate) fn push_sign(
    out: &mut TextBytes,
    class: &[u8],
    at: Point,
    sign: Sign,
) -> Result<(), OutOfMemory> {
    push_path(out, class, at, outline_of(sign))
}
