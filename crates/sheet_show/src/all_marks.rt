// All marks in one call.
ghost use Rattle.sheet_data.specs.inner.Parts.{Holds};
ghost use Rattle.sheet.specs.Calls.{Writes, WritesMarks};
ghost use Rattle.sheet_show.specs.inner.Shown.{marks_from};

use ints::refusal::Refusal;
use plan::data::Plan;
use plan::numbers::wide;
use report::data::{Counts, Drawing};
use sheet::refusals::{check_show, counts_in};
use sheet::types::Sheet;
use sheet_fit::fit::fit_marks;

// 14, and the marks.
fn marks_of(plan: Plan, drawing: Drawing, counts: Counts, out: &mut [f64]) -> Result<usize, Refusal>
    requires { Holds plan drawing counts }
    ensures { Writes (marks_from plan drawing counts out.old) result out.new }
{
    let v = counts.vertices;
    let e = counts.segments;
    let k = wide(plan.levels);
    let sizes = plan.sizes;
    let vias = plan.vias;
    let halves = plan.halves;
    let uppers = plan.uppers;
    let lowers = plan.lowers;
    let finals = drawing.finals;
    fit_marks(
        plan.spacing,
        &sizes[..k],
        &vias[..v],
        &halves[..v],
        &uppers[..e],
        &lowers[..e],
        &finals[..v],
        out,
    )
}

// All marks one after another in a lent buffer, five exact numbers each, with how many there are; later numbers stay.
pub fn marks(sheet: Sheet, out: &mut [f64]) -> Result<usize, Refusal>
    ensures { WritesMarks sheet out.old result out.new }
{
    let header = sheet.header;
    let stage = header.stage;
    let plan = sheet.plan;
    let remembered = sheet.remembered;
    let drawing = sheet.drawing;
    check_show(stage, plan, remembered, drawing)?;
    marks_of(plan, drawing, counts_in(stage), out)
}
