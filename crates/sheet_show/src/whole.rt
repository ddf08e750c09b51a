// All report lines in one call.
ghost use Rattle.std.specs.Prelude.{◌≡◌, true};
ghost use Rattle.sheet_data.specs.inner.Parts.{Holds, are_own_with, report_with};
ghost use Rattle.sheet.specs.Calls as spec;
ghost use Rattle.sheet.specs.Calls.{Writes};
ghost use Rattle.sheet_fit.specs.inner.Fitted.{fitted_text};

use ints::refusal::Refusal;
use plan::data::Plan;
use plan::numbers::wide;
use report::data::{Counts, Drawing};
use sheet::refusals::{check_show, counts_in};
use sheet::types::Sheet;
use sheet_fit::fit::fit_report_by;

// 14, and the lines.
fn report_of(
    plan: Plan,
    remembered: [u16; Plan::MAX_VERTICES],
    drawing: Drawing,
    counts: Counts,
    out: &mut [u8],
) -> Result<usize, Refusal>
    requires { Holds plan drawing counts × (are_own_with plan remembered counts ≡ true) }
    ensures { Writes (fitted_text (report_with plan remembered drawing counts) out.old) result out.new }
{
    let v = counts.vertices;
    let p = counts.placings;
    let k = wide(plan.levels);
    let sizes = plan.sizes;
    let preliminary = drawing.preliminary;
    let finals = drawing.finals;
    let passes = drawing.passes;
    let levels = drawing.levels;
    let boxes = drawing.counts;
    let vertices = drawing.vertices;
    let positions = drawing.positions;
    fit_report_by(
        &remembered[..v],
        plan.spacing,
        &sizes[..k],
        &preliminary[..v],
        &finals[..v],
        &passes[..p],
        &levels[..p],
        &boxes[..p],
        &vertices,
        &positions,
        out,
    )
}

// All lines after one another in a lent buffer, with their length; later bytes stay.
pub fn report(sheet: Sheet, out: &mut [u8]) -> Result<usize, Refusal>
    ensures { Writes (spec.report sheet out.old) result out.new }
{
    let header = sheet.header;
    let stage = header.stage;
    let plan = sheet.plan;
    let remembered = sheet.remembered;
    let drawing = sheet.drawing;
    check_show(stage, plan, remembered, drawing)?;
    report_of(plan, remembered, drawing, counts_in(stage), out)
}
