// Draw.
ghost use Rattle.sheet.specs.Calls.{Draws};

use crate::stored::draw_plan;
use sheet::changed::with_drawing;
use sheet::refusals::{check_draw, counts_in};
use sheet::types::{Changed, Sheet};

// "Draw may be repeated, with the same result." Refused 11 or 13, it changes nothing.
pub fn draw(sheet: Sheet) -> Changed
    ensures { Draws sheet result.answer result.sheet }
{
    let header = sheet.header;
    let stage = header.stage;
    let plan = sheet.plan;
    let remembered = sheet.remembered;
    let answer = check_draw(stage, plan, remembered);
    if answer.is_err() {
        return Changed { answer, sheet };
    }
    let new = draw_plan(plan, counts_in(stage));
    Changed {
        answer,
        sheet: with_drawing(sheet, new),
    }
}
