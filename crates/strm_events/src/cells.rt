//! A cell: what the report of one end depends on, and beside it that report, ready to be lent.
//!
//! Meaning: `Cells.antt`. Source: wasmtime, `futures_and_streams.rs`, `ReadState` and `WriteState`,
//! with the event that is stored beside them; Canonical ABI, `Waitable.pending_event`. Ours: the kept
//! report is that of the parts, after each call.

ghost use Rattle.std.specs.Prelude.{◌≡◌, ◌+◌, ◌<◌, true, Some, None, is_some};
ghost use Rattle.std.specs.Option.{option_map};
ghost use Rattle.strm_codes.specs.Counts.{count_limit};
ghost use Rattle.strm_events.specs.Cells.{new_cell, kept_report, just_begun, with_pending, cell_changed, with_met, with_moved, with_outcome, with_asked, unmet, told_cell, may_meet, moved_so_far};

use crate::reports::{Pending, report};
use std::marker::Model;
use strm_codes::codes::{ReturnCode, StreamResult, TransmitKind};
use strm_codes::counts::ItemCount;

/// An end's operation and flags, and the report that they make.
#[derive(Drop)]
pub struct EventCell {
    kind: TransmitKind,
    pending: Option<Pending>,
    other_gone: bool,
    told: bool,
    passed: bool,
    // The report of the fields above.
    kept: Option<ReturnCode>,
}

impl Model for EventCell {
    ghost use Rattle.std.specs.Prelude.{◌≡◌};
    ghost use Rattle.strm_events.specs.Cells.{Cell};
    ghost use Rattle.strm_events.specs.Reports.{report_of};

    ghost Value = { Cell };

    ghost view = { λ c. record {
      kind = c.kind;
      pending = c.pending;
      other_gone = c.other_gone;
      told = c.told;
      passed = c.passed;
    } };

    ghost invariant = { λ c. c.kept ≡ report_of c.kind c.pending c.other_gone c.told c.passed };
}

// The cell of these parts, with their report.
#[inline(always)]
fn keep(
    kind: TransmitKind,
    pending: Option<Pending>,
    other_gone: bool,
    told: bool,
    passed: bool,
) -> EventCell
    ensures { result ≡ record {
      kind = kind;
      pending = pending;
      other_gone = other_gone;
      told = told;
      passed = passed;
    } }
{
    let kept = report(kind, pending.as_ref(), other_gone, told, passed);
    EventCell {
        kind,
        pending,
        other_gone,
        told,
        passed,
        kept,
    }
}

impl EventCell {
    /// The cell of an end that has no operation, was not told, and whose other end is there; nothing
    /// has passed.
    pub fn new(kind: TransmitKind) -> EventCell
        ensures { result ≡ new_cell kind }
    {
        keep(kind, None, false, false, false)
    }

    /// Whether it is of a stream or of a future.
    #[inline(always)]
    pub fn kind(&self) -> TransmitKind
        ensures { result ≡ self.now.kind }
    {
        self.kind
    }

    /// The operation, if it has one.
    #[inline(always)]
    pub fn pending(&self) -> Option<Pending>
        ensures { result ≡ self.now.pending }
    {
        self.pending
    }

    /// Whether the other end is gone.
    #[inline(always)]
    pub fn other_gone(&self) -> bool
        ensures { result ≡ self.now.other_gone }
    {
        self.other_gone
    }

    /// Whether this end was told that the other is gone.
    #[inline(always)]
    pub fn told(&self) -> bool
        ensures { result ≡ self.now.told }
    {
        self.told
    }

    /// Whether a future's value passed.
    #[inline(always)]
    pub fn passed(&self) -> bool
        ensures { result ≡ self.now.passed }
    {
        self.passed
    }

    /// What the end is to be told, if anything.
    #[inline(always)]
    pub fn code(&self) -> Option<&ReturnCode>
        ensures { option_map (λ code. code.now) result ≡ kept_report self.now }
    {
        self.kept.as_ref()
    }

    // The cell with another operation. Nothing else of it is written.
    #[inline(always)]
    fn put(&mut self, pending: Option<Pending>)
        ensures { self.new ≡ with_pending self.old pending }
    {
        self.kept = report(
            self.kind,
            pending.as_ref(),
            self.other_gone,
            self.told,
            self.passed,
        );
        self.pending = pending;
    }

    /// A read or write is called.
    #[inline(always)]
    pub fn begin(&mut self)
        requires idle { self.old.pending ≡ None }
        ensures { self.new ≡ with_pending self.old (Some just_begun) }
    {
        self.put(Some(Pending {
            is_open: true,
            met: false,
            asked: false,
            moved: ItemCount::ZERO,
            outcome: StreamResult::Completed,
        }));
    }

    /// The operation met the other side, and so many items moved.
    #[inline(always)]
    pub fn met(&mut self, items: ItemCount, is_open: bool)
        requires open { may_meet self.old.pending ≡ true }
        requires counted { moved_so_far self.old.pending + items < count_limit }
        ensures { self.new ≡ cell_changed (with_met items is_open) self.old }
    {
        if let Some(pending) = self.pending {
            self.put(Some(Pending {
                is_open,
                met: true,
                moved: pending.moved.add(items),
                outcome: StreamResult::Completed,
                ..pending
            }));
        }
    }

    /// So many items moved, and the operation goes on.
    #[inline(always)]
    pub fn progress(&mut self, items: ItemCount)
        requires open { may_meet self.old.pending ≡ true }
        requires counted { moved_so_far self.old.pending + items < count_limit }
        ensures { self.new ≡ cell_changed (with_moved items) self.old }
    {
        if let Some(pending) = self.pending {
            self.put(Some(Pending {
                moved: pending.moved.add(items),
                ..pending
            }));
        }
    }

    /// The operation came out so.
    #[inline(always)]
    pub fn settle(&mut self, outcome: StreamResult)
        requires open { may_meet self.old.pending ≡ true }
        ensures { self.new ≡ cell_changed (with_outcome outcome) self.old }
    {
        if let Some(pending) = self.pending {
            self.put(Some(Pending {
                is_open: false,
                met: true,
                outcome,
                ..pending
            }));
        }
    }

    /// The host end on the other side was asked to finish.
    #[inline(always)]
    pub fn ask(&mut self)
        requires busy { is_some self.old.pending ≡ true }
        ensures { self.new ≡ cell_changed with_asked self.old }
    {
        if let Some(pending) = self.pending {
            self.put(Some(Pending {
                asked: true,
                ..pending
            }));
        }
    }

    /// What was met is told no more; what was moved stays counted.
    #[inline(always)]
    pub fn withdraw(&mut self)
        requires busy { is_some self.old.pending ≡ true }
        ensures { self.new ≡ cell_changed unmet self.old }
    {
        if let Some(pending) = self.pending {
            self.put(Some(Pending {
                met: false,
                ..pending
            }));
        }
    }

    /// The operation ends.
    #[inline(always)]
    pub fn end(&mut self)
        ensures { self.new ≡ with_pending self.old None }
    {
        self.put(None);
    }

    /// The other end is gone.
    #[inline(always)]
    pub fn gone(&mut self)
        ensures { self.new ≡ record self.old { other_gone = true } }
    {
        self.set_other_gone(true);
    }

    /// Whether the other end is gone, from now on.
    #[inline(always)]
    pub fn set_other_gone(&mut self, other_gone: bool)
        ensures { self.new ≡ record self.old { other_gone = other_gone } }
    {
        let pending = self.pending.as_ref();
        self.kept = report(self.kind, pending, other_gone, self.told, self.passed);
        self.other_gone = other_gone;
    }

    /// A future's value passed.
    #[inline(always)]
    pub fn pass(&mut self)
        ensures { self.new ≡ record self.old { passed = true } }
    {
        *self = keep(self.kind, self.pending, self.other_gone, self.told, true);
    }

    /// This end is told that the other is gone.
    #[inline(always)]
    pub fn tell(&mut self)
        ensures { self.new ≡ record self.old { told = true } }
    {
        *self = keep(self.kind, self.pending, self.other_gone, true, self.passed);
    }

    /// Tells the end its report, if it has one: its operation ends with whatever it has left, and it
    /// was told that the other is gone where the code is Dropped. Without a report nothing changes.
    #[inline(always)]
    pub fn take(&mut self) -> Option<ReturnCode>
        ensures code { result ≡ kept_report self.old }
        ensures cell { self.new ≡ told_cell self.old }
    {
        let code = self.kept?;
        let told = match code {
            ReturnCode::Dropped(_) => true,
            _ => self.told,
        };
        self.kept = report(self.kind, None, self.other_gone, told, self.passed);
        self.pending = None;
        self.told = told;
        Some(code)
    }
}
