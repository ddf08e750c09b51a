// The whole text.
ghost use Rattle.std.specs.Prelude.{◌≡◌, true};
ghost use Rattle.text.specs.Writing.{text_of};
ghost use Rattle.sheet_data.specs.inner.Parts.{is_plan_with, are_own_with};
ghost use Rattle.sheet.specs.Calls as spec;
ghost use Rattle.sheet.specs.Calls.{Writes};
ghost use Rattle.sheet_fit.specs.inner.Fitted.{fitted_text};
ghost use Rattle.sheet_text.specs.inner.Read.{read_with};

use crate::read::as_read;
use crate::refusal::check_text;
use ints::refusal::Refusal;
use plan::data::Plan;
use report::data::Counts;
use sheet::refusals::counts_in;
use sheet::types::Sheet;
use sheet_fit::fit::fit;
use text_write::again::stored_text;

// No text of a plan is longer.
const MAX_TEXT: usize = 51738;

// 14, and the text.
fn whole_text_of(
    plan: Plan,
    remembered: [u16; Plan::MAX_VERTICES],
    counts: Counts,
    out: &mut [u8],
) -> Result<usize, Refusal>
    requires { (is_plan_with plan counts ≡ true) × (are_own_with plan remembered counts ≡ true) }
    ensures { Writes (fitted_text (text_of (read_with plan remembered counts)) out.old) result out.new }
{
    let read = as_read(plan, remembered, counts);
    let mut room = [0u8; MAX_TEXT];
    let length = stored_text(read, counts.vertices, counts.segments, &mut room);
    fit(&room[..length], out)
}

// All its lines one after another in a lent buffer, with their length; later bytes stay.
pub fn whole_text(sheet: Sheet, out: &mut [u8]) -> Result<usize, Refusal>
    ensures { Writes (spec.whole_text sheet out.old) result out.new }
{
    let header = sheet.header;
    let stage = header.stage;
    let plan = sheet.plan;
    let remembered = sheet.remembered;
    check_text(stage, header.tangled, plan, remembered)?;
    whole_text_of(plan, remembered, counts_in(stage), out)
}
