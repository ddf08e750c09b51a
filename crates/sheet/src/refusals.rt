// The refusals from the state: those of draw, 11 and 13, and those of what shows a sheet, 11 to 13.
ghost use Rattle.std.specs.Prelude.{◌≡◌};
ghost use Rattle.ints.specs.Refusals.{refused_by};
ghost use Rattle.sheet.specs.inner.Refusals.{counts_in, plan_refusal, draw_refusal, data_refusal, show_refusal};

use crate::types::Stage;
use ints::refusal::Refusal;
use plan::data::Plan;
use report::data::{Counts, Drawing};
use report_validity::decision::is_plan_of_text;
use sheet_data::valid::{are_own, is_drawing_of};

// The counts of a stage; 0 where it has none.
pub fn counts_in(stage: Stage) -> Counts
    ensures { result ≡ counts_in stage }
{
    match stage {
        Stage::Empty => Counts {
            vertices: 0,
            segments: 0,
            placings: 0,
        },
        Stage::Loaded(vertices, segments) => Counts {
            vertices,
            segments,
            placings: 0,
        },
        Stage::Drawn(vertices, segments, placings) => Counts {
            vertices,
            segments,
            placings,
        },
    }
}

// 13, of the plan and of the remembered numbers.
fn check_plan(
    plan: Plan,
    remembered: [u16; Plan::MAX_VERTICES],
    counts: Counts,
) -> Result<(), Refusal>
    ensures { refused_by result ≡ plan_refusal plan remembered counts }
{
    if !is_plan_of_text(plan, counts.vertices, counts.segments) {
        return Err(Refusal::Unsound);
    }
    if !are_own(plan, remembered, counts) {
        return Err(Refusal::Unsound);
    }
    Ok(())
}

// What draw is refused by.
pub fn check_draw(
    stage: Stage,
    plan: Plan,
    remembered: [u16; Plan::MAX_VERTICES],
) -> Result<(), Refusal>
    ensures { refused_by result ≡ draw_refusal stage plan remembered }
{
    match stage {
        Stage::Empty => Err(Refusal::Empty),
        Stage::Loaded(_, _) | Stage::Drawn(_, _, _) => {
            check_plan(plan, remembered, counts_in(stage))
        }
    }
}

// 13, of the plan, of the remembered numbers and of the drawing.
fn check_data(
    plan: Plan,
    remembered: [u16; Plan::MAX_VERTICES],
    drawing: Drawing,
    counts: Counts,
) -> Result<(), Refusal>
    ensures { refused_by result ≡ data_refusal plan remembered drawing counts }
{
    check_plan(plan, remembered, counts)?;
    if is_drawing_of(plan, drawing, counts) {
        return Ok(());
    }
    Err(Refusal::Unsound)
}

// What line, report, mark and marks are refused by before 7 and 14.
pub fn check_show(
    stage: Stage,
    plan: Plan,
    remembered: [u16; Plan::MAX_VERTICES],
    drawing: Drawing,
) -> Result<(), Refusal>
    ensures { refused_by result ≡ show_refusal stage plan remembered drawing }
{
    match stage {
        Stage::Empty => Err(Refusal::Empty),
        Stage::Loaded(_, _) => Err(Refusal::Undrawn),
        Stage::Drawn(_, _, _) => check_data(plan, remembered, drawing, counts_in(stage)),
    }
}
