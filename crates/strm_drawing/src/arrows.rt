//! What is drawn: lanes, arrows between them, and rows of arrows and marks.
//!
//! Ours.

use crate::marks::Mark;

/// Who has a lane of its own.
#[derive(Clone, Copy, PartialEq, Eq)]
pub enum Lane {
    /// The guest of this number.
    Guest(u32),
    /// The host writer of this number.
    Writer(u32),
    /// The host reader of this number.
    Reader(u32),
    /// Nobody: of a loose end, or of a step that is of no guest and no host end.
    Nobody,
}

/// So many items that were moved on a stream, from its write end to its read end.
#[derive(Clone, Copy)]
pub struct Arrow {
    pub stream: u32,
    /// In items, above 0.
    pub count: u128,
    /// Who had the write end.
    pub from: Lane,
    /// Who had the read end.
    pub to: Lane,
}

/// A row of a picture. Each step has a mark, and behind it the arrows of what it moved.
#[derive(Clone, Copy)]
pub enum Row {
    Mark(Mark),
    Arrow(Arrow),
}
