//! The run of steps on a new store, among host ends, of which a picture is made.
//!
//! Meaning: `Moves.antt`, and `Running.antt` for what a run comes to. Ours.

ghost use Rattle.std.specs.Prelude.{◌≡◌, ◌<◌, ◌≤◌, ◌+◌, ◌++◌, [], ℕ, false, map, length, Some, IfOk, IfErr, OnOk};
ghost use Rattle.std.specs.List.{range_with_len};
ghost use Rattle.strm_host_machine.specs.Does.{Fits};
ghost use Rattle.strm_laws.specs.Starts.{run_start};
ghost use Rattle.strm_machine.specs.Moments.{received};
ghost use Rattle.strm_machine.specs.State.{State};
ghost use Rattle.strm_machine.specs.declared.stops.Stop.{Stop};
ghost use Rattle.strm_session.specs.Runs.{stop_of};
ghost use Rattle.strm_drawing.specs.declared.arrows.Row.{Row};
ghost use Rattle.strm_drawing.specs.Folding.{rows_kept, IsFolding};
ghost use Rattle.strm_drawing.specs.Holders.{holders_after};
ghost use Rattle.strm_drawing.specs.Moves.{end_named_in, move_on, moves_on, rows_of_step};
ghost use Rattle.strm_drawing.specs.Running.{IsStepDrawn, IsStopDrawn, IsRunDrawn, IsPicture, IsEnding, WasSeen};

use crate::arrows::Row;
use crate::folding::FoldedRows;
use crate::holders::AllHolders;
use crate::marks::mark_of;
use crate::moves::{Span, arrow_on, end_named_in, received_before, span_of};
use crate::pictures::Picture;
use std::alloc::Global;
use strm_codes::counts::OutOfMemory;
use strm_lines::lists::Counts;
use strm_lines::one_by_one::GivesSteps;
use strm_machine::replies::Reply;
use strm_machine::steps::Step;
use strm_machine::stops::Stop;
use strm_session::runs::{PROGRAM_LIMITS, RunCause, cause_of};
use strm_session::serving::{DONE, status_of};
use strm_transmit::host_ends::HostEnds;
use strm_transmit::steps::apply;
use strm_transmit::store::Store;
use strm_transmit::store::queries::EndInfo;

// The most steps whose rows are not folded.
const MOST_UNFOLDED: usize = 500;

// What was seen of a store before a step: the end that the step names, the streams on which it may move items,
// and how many were received on each.
#[derive(Drop)]
struct Seen {
    named: Option<EndInfo>,
    span: Span,
    before: Counts,
}

// What is drawn of a run so far: its rows, and who has the ends of its streams.
#[derive(Drop)]
struct Sketch {
    rows: FoldedRows,
    holders: AllHolders,
}

// Adds the arrow of what a step moved on a stream, by how many items were received on it before.
fn push_arrow(
    rows: &mut FoldedRows,
    store: &Store,
    holders: &AllHolders,
    stream: u32,
    before: u128,
) -> Result<(), OutOfMemory>
    requires { IsFolding rows.old }
    ensures arrow { (state : State) → before ≡ received stream state →
        OnOk result (rows_kept rows.new ≡ rows_kept rows.old
        ++ map Row.Arrow (move_on holders.now state store.now stream)) }
    ensures folding { OnOk result (IsFolding rows.new) }
{
    if let Some(arrow) = arrow_on(store, holders, stream, before) {
        rows.push(&Row::Arrow(arrow))?;
    }
    Ok(())
}

// How many items were received before on the k-th of some streams.
fn count_before(before: &Counts, k: u32) -> u128
    requires { k < length before.now }
    ensures { (state : State) (first count : ℕ) →
        before.now ≡ map (λ s. received s state) (range_with_len first count) →
        result ≡ received (first + k) state }
{
    before.as_slice()[k as usize]
}

// Adds the arrows of what a step moved on these streams, by how many items were received on each before.
fn push_arrows(
    rows: &mut FoldedRows,
    store: &Store,
    holders: &AllHolders,
    span: Span,
    before: &Counts,
) -> Result<(), OutOfMemory>
    requires within { span.first + span.count ≤ 4294967296 }
    requires folding { IsFolding rows.old }
    requires all { length before.now ≡ span.count }
    ensures arrows { (state : State) →
        before.now ≡ map (λ s. received s state) (range_with_len span.first span.count) →
        OnOk result (rows_kept rows.new ≡ rows_kept rows.old
        ++ map Row.Arrow (moves_on holders.now state store.now span)) }
    ensures folding { OnOk result (IsFolding rows.new) }
{
    for k in 0..span.count {
        push_arrow(
            rows,
            store,
            holders,
            span.first + k,
            count_before(before, k),
        )?;
    }
    Ok(())
}

// Draws a step that was done, and keeps what it gave to whom.
fn keep_step(
    sketch: &mut Sketch,
    store: &Store,
    seen: &Seen,
    step: &Step,
    reply: &Reply,
) -> Result<(), OutOfMemory>
    requires folding { IsFolding sketch.old.rows }
    requires within { seen.now.span.first + seen.now.span.count ≤ 4294967296 }
    requires all { length seen.now.before ≡ seen.now.span.count }
    ensures rows { (state : State) → WasSeen state step.now seen.now →
        OnOk result (rows_kept sketch.new.rows ≡ rows_kept sketch.old.rows
        ++ rows_of_step sketch.old.holders state step.now reply.now store.now) }
    ensures holders { (state : State) → WasSeen state step.now seen.now →
        OnOk result (sketch.new.holders
        ≡ holders_after sketch.old.holders (end_named_in state step.now) step.now reply.now) }
    ensures folding { OnOk result (IsFolding sketch.new.rows) }
{
    sketch
        .rows
        .push(&Row::Mark(mark_of(step, &seen.named, reply)))?;
    push_arrows(
        &mut sketch.rows,
        store,
        &sketch.holders,
        seen.span,
        &seen.before,
    )?;
    sketch.holders.go_on(&seen.named, step, reply)?;
    Ok(())
}

// Looks at a store before a step.
fn look(alloc: Global, store: &Store, step: &Step) -> Result<Seen, OutOfMemory>
    ensures seen { IfOk result (WasSeen store.now step.now) }
    ensures within { IfOk result (λ s. s.span.first + s.span.count ≤ 4294967296) }
    ensures all { IfOk result (λ s. length s.before ≡ s.span.count) }
{
    let named = end_named_in(store, step);
    let span = span_of(store, &named, step);
    let before = received_before(alloc, store, span)?;
    Ok(Seen {
        named,
        span,
        before,
    })
}

// Does a step, and draws it by what was seen before it.
fn draw_step<H: HostEnds>(
    alloc: Global,
    store: &mut Store,
    hosts: &mut H,
    sketch: &mut Sketch,
    step: &Step,
) -> Result<(), RunCause>
    requires running { store.old.trapped ≡ false }
    requires fits { Fits store.old (H.tells hosts.old) }
    requires folding { IsFolding sketch.old.rows }
    ensures drawn { OnOk result (IsStepDrawn step.now store.old store.new
        (H.tells hosts.old) (H.tells hosts.new) (rows_kept sketch.old.rows)
        (rows_kept sketch.new.rows) sketch.old.holders sketch.new.holders) }
    ensures stopped { IfErr result (λ cause. IsStopDrawn step.now store.old store.new
        (H.tells hosts.old) (H.tells hosts.new) cause (rows_kept sketch.old.rows)
        (rows_kept sketch.new.rows)) }
    ensures running { OnOk result (store.new.trapped ≡ false) }
    ensures fits { OnOk result (Fits store.new (H.tells hosts.new)) }
    ensures folding { OnOk result (IsFolding sketch.new.rows) }
    ensures still { IfErr result (λ cause. (stop : Stop) → stop_of cause ≡ Some stop →
        IsFolding sketch.new.rows) }
{
    let Ok(seen) = look(alloc, store, step) else {
        return Err(RunCause::OutOfMemory);
    };
    match apply(store, hosts, step) {
        Ok(reply) => match keep_step(sketch, store, &seen, step, &reply) {
            Ok(()) => Ok(()),
            Err(_) => Err(RunCause::OutOfMemory),
        },
        Err(error) => Err(cause_of(error)),
    }
}

// Does the steps in order, and draws them.
fn draw_steps<L: GivesSteps, H: HostEnds>(
    alloc: Global,
    store: &mut Store,
    hosts: &mut H,
    sketch: &mut Sketch,
    steps: &mut L,
) -> Result<(), RunCause>
    requires begins { store.old ≡ run_start }
    requires fits { Fits store.old (H.tells hosts.old) }
    requires folding { IsFolding sketch.old.rows }
    requires none { rows_kept sketch.old.rows ≡ [] }
    requires unmade { sketch.old.holders ≡ [] }
    ensures drawn { IsRunDrawn (H.tells hosts.old) (H.tells hosts.new) (L.left steps.old)
        (rows_kept sketch.new.rows) result }
    ensures folding { OnOk result (IsFolding sketch.new.rows) }
    ensures still { IfErr result (λ cause. (stop : Stop) → stop_of cause ≡ Some stop →
        IsFolding sketch.new.rows) }
{
    let mut step = Step::Drive;
    for _ in 0..steps.len() {
        steps.put_next(&mut step);
        match draw_step(alloc, store, hosts, sketch, &step) {
            Ok(()) => {}
            Err(cause) => return Err(cause),
        }
    }
    Ok(())
}

/// Runs the steps as `run` of `strm_session` does, and answers the picture of the run. Of a step that stops it
/// nothing is drawn but the stop; where more than 500 steps are given, rows that come again are folded.
pub fn draw_run<L: GivesSteps, H: HostEnds>(
    alloc: Global,
    steps: &mut L,
    hosts: &mut H,
) -> Result<Picture, OutOfMemory>
    ensures { IfOk result
        (IsPicture (H.tells hosts.old) (H.tells hosts.new) (L.left steps.old)) }
{
    let mut store = Store::new(alloc, 0, PROGRAM_LIMITS);
    let mut sketch = Sketch {
        rows: FoldedRows::new(alloc, steps.len() > MOST_UNFOLDED),
        holders: AllHolders::new(alloc),
    };
    let ended = draw_steps(alloc, &mut store, hosts, &mut sketch, steps);
    let Ending { status, stop } = ending_of(ended)?;
    let blocks = sketch.rows.blocks()?;
    Ok(Picture {
        blocks,
        stop,
        status,
    })
}

// How a run ended: its status, and why it stopped, if it did.
#[derive(Clone, Copy)]
struct Ending {
    status: u8,
    stop: Option<Stop>,
}

// The end of a run that came out so.
fn ending_of(ended: Result<(), RunCause>) -> Result<Ending, OutOfMemory>
    ensures { IfOk result (IsEnding ended) }
{
    match ended {
        Ok(()) => Ok(Ending {
            status: DONE,
            stop: None,
        }),
        Err(cause) => {
            let (status, stop) = status_of(cause)?;
            Ok(Ending {
                status,
                stop: Some(stop),
            })
        }
    }
}
