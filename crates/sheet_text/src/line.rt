// A line of the text.
ghost use Rattle.std.specs.Prelude.{◌≡◌, true};
ghost use Rattle.sheet_data.specs.inner.Parts.{is_plan_with, are_own_with};
ghost use Rattle.sheet.specs.Calls as spec;
ghost use Rattle.sheet.specs.Calls.{Writes};
ghost use Rattle.sheet_text.specs.inner.Shown.{text_line_from};

use crate::read::as_read;
use crate::refusal::check_text;
use ints::refusal::Refusal;
use plan::data::Plan;
use plan::numbers::wide;
use report::data::Counts;
use sheet::refusals::counts_in;
use sheet::types::Sheet;
use sheet_fit::fit::fit;
use text_write::again::stored_line;

// No line of a plan's text is longer: a level of 64 boxes.
const MAX_TEXT_LINE: usize = 648;

// 7 and 14, and the line.
fn text_line_of(
    plan: Plan,
    remembered: [u16; Plan::MAX_VERTICES],
    counts: Counts,
    n: usize,
    out: &mut [u8],
) -> Result<usize, Refusal>
    requires { (is_plan_with plan counts ≡ true) × (are_own_with plan remembered counts ≡ true) }
    ensures { Writes (text_line_from plan remembered counts n out.old) result out.new }
{
    if n >= wide(plan.levels) + counts.segments + 2 {
        return Err(Refusal::Missing);
    }
    let read = as_read(plan, remembered, counts);
    let mut room = [0u8; MAX_TEXT_LINE];
    let length = stored_line(read, counts.vertices, counts.segments, n, &mut room);
    fit(&room[..length], out)
}

// "line n of the plan text as it was read, byte for byte, drawn or not", in a lent buffer, with its length; later bytes stay.
pub fn text_line(sheet: Sheet, n: usize, out: &mut [u8]) -> Result<usize, Refusal>
    ensures { Writes (spec.text_line sheet n out.old) result out.new }
{
    let header = sheet.header;
    let stage = header.stage;
    let plan = sheet.plan;
    let remembered = sheet.remembered;
    check_text(stage, header.tangled, plan, remembered)?;
    text_line_of(plan, remembered, counts_in(stage), n, out)
}
