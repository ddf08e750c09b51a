// Line.
ghost use Rattle.std.specs.Prelude.{◌≡◌, true};
ghost use Rattle.sheet_data.specs.inner.Parts.{Holds, are_own_with};
ghost use Rattle.sheet.specs.Calls as spec;
ghost use Rattle.sheet.specs.Calls.{Writes};
ghost use Rattle.sheet_show.specs.inner.Shown.{line_from};

use ints::refusal::Refusal;
use plan::data::Plan;
use report::data::{Counts, Drawing};
use sheet::refusals::{check_show, counts_in};
use sheet::types::Sheet;
use sheet_data::printed::{MAX_LINE, put_line};
use sheet_fit::fit::fit;

// 7 and 14, and the line.
fn line_of(
    plan: Plan,
    remembered: [u16; Plan::MAX_VERTICES],
    drawing: Drawing,
    counts: Counts,
    n: usize,
    out: &mut [u8],
) -> Result<usize, Refusal>
    requires { Holds plan drawing counts × (are_own_with plan remembered counts ≡ true) }
    ensures { Writes (line_from plan remembered drawing counts n out.old) result out.new }
{
    if n >= counts.vertices + counts.placings + 2 {
        return Err(Refusal::Missing);
    }
    let mut room = [0u8; MAX_LINE];
    let length = put_line(plan, remembered, drawing, counts, n, &mut room);
    fit(&room[..length], out)
}

// "Line n gives the n-th report line, its LF included, in a lent buffer, with its length; later bytes stay."
pub fn line(sheet: Sheet, n: usize, out: &mut [u8]) -> Result<usize, Refusal>
    ensures { Writes (spec.line sheet n out.old) result out.new }
{
    let header = sheet.header;
    let stage = header.stage;
    let plan = sheet.plan;
    let remembered = sheet.remembered;
    let drawing = sheet.drawing;
    check_show(stage, plan, remembered, drawing)?;
    line_of(plan, remembered, drawing, counts_in(stage), n, out)
}
