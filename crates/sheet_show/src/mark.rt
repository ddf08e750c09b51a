// Mark.
ghost use Rattle.std.specs.Prelude.{◌≡◌};
ghost use Rattle.sheet_data.specs.inner.Parts.{Holds};
ghost use Rattle.sheet.specs.Calls.{GivesMark};
ghost use Rattle.ints.specs.Refusals.{verdict_of};
ghost use Rattle.sheet_show.specs.inner.Shown.{mark_from};

use ints::refusal::Refusal;
use marks::types::Mark;
use plan::data::Plan;
use report::data::{Counts, Drawing};
use sheet::refusals::{check_show, counts_in};
use sheet::types::Sheet;
use sheet_data::marked::mark_with;

// 7, and the mark.
fn mark_of(plan: Plan, drawing: Drawing, counts: Counts, n: usize) -> Result<Mark, Refusal>
    requires { Holds plan drawing counts }
    ensures { verdict_of result ≡ mark_from plan drawing counts n }
{
    if n >= counts.vertices + counts.segments {
        return Err(Refusal::Missing);
    }
    Ok(mark_with(plan, drawing, counts, n))
}

// "Mark n gives the n-th mark", with exact numbers.
pub fn mark(sheet: Sheet, n: usize) -> Result<Mark, Refusal>
    ensures { GivesMark sheet n result }
{
    let header = sheet.header;
    let stage = header.stage;
    let plan = sheet.plan;
    let remembered = sheet.remembered;
    let drawing = sheet.drawing;
    check_show(stage, plan, remembered, drawing)?;
    mark_of(plan, drawing, counts_in(stage), n)
}
