// Any call of a sheet.
ghost use Rattle.calls.specs.Step as spec;
ghost use Rattle.calls.specs.Step.{Steps, lent};
ghost use Rattle.calls.specs.inner.Replied.{Changes};

use crate::types::{After, Call, Reply};
use sheet::clear::clear;
use sheet::types::{Changed, Sheet};
use sheet_draw::draw::draw;
use sheet_load::load::load;
use sheet_load::tangled::load_tangled;
use sheet_show::all_marks::marks;
use sheet_show::line::line;
use sheet_show::mark::mark;
use sheet_show::whole::report;
use sheet_text::line::text_line;
use sheet_text::whole::whole_text;

// What a call of the sheet answered that may change it, as any call.
fn of_change(c: Changed) -> After
    ensures { Changes c.answer c.sheet result.reply result.sheet }
{
    After {
        reply: c.answer.map(|()| Reply::Done),
        sheet: c.sheet,
    }
}

// One call: its answer, and the sheet and the lent buffers afterwards.
pub fn step(call: Call, text: &[u8], buffer: &mut [u8], numbers: &mut [f64], sheet: Sheet) -> After
    ensures { Steps (spec.step call (lent text.now buffer.old numbers.old) sheet)
        result.reply result.sheet buffer.new numbers.new }
{
    match call {
        Call::Load => of_change(load(sheet, text)),
        Call::LoadTangled => of_change(load_tangled(sheet, text)),
        Call::Draw => of_change(draw(sheet)),
        Call::Line(n) => After {
            reply: line(sheet, n, buffer).map(Reply::Written),
            sheet,
        },
        Call::Report => After {
            reply: report(sheet, buffer).map(Reply::Written),
            sheet,
        },
        Call::TextLine(n) => After {
            reply: text_line(sheet, n, buffer).map(Reply::Written),
            sheet,
        },
        Call::WholeText => After {
            reply: whole_text(sheet, buffer).map(Reply::Written),
            sheet,
        },
        Call::Mark(n) => After {
            reply: mark(sheet, n).map(Reply::Given),
            sheet,
        },
        Call::Marks => After {
            reply: marks(sheet, numbers).map(Reply::Written),
            sheet,
        },
        Call::Clear => of_change(clear(sheet)),
    }
}
