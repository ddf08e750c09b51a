// The first way of loading.
ghost use Rattle.std.specs.Prelude.{◌≡◌, ◌≤◌};
ghost use Rattle.plan.specs.Limits.{max_vertices};
ghost use Rattle.plan.specs.Plan.{numbers};
ghost use Rattle.sheet.specs.Calls as spec;
ghost use Rattle.sheet.specs.Calls.{Leaves};
ghost use Rattle.sheet.specs.Sheet.{remembered_of};

use plan::data::Plan;
use plan_untangle::order::count_up;
use report::data::Drawing;
use sheet::types::{Changed, Header, Sheet, Stage};
use text_read::read;

// The numbers of v vertices that are numbered as in the text.
fn own(v: usize) -> [u16; Plan::MAX_VERTICES]
    requires { v ≤ max_vertices }
    ensures { result ≡ remembered_of (numbers 0 v) }
{
    let mut remembered = [0u16; Plan::MAX_VERTICES];
    count_up(&mut remembered[..v]);
    remembered
}

// "Load replaces whatever was there." Refused 1 to 6, it changes nothing.
pub fn load(sheet: Sheet, text: &[u8]) -> Changed
    ensures { Leaves (spec.load sheet text.now) result.answer result.sheet }
{
    match read(text) {
        Ok(r) => Changed {
            answer: Ok(()),
            sheet: Sheet {
                header: Header {
                    stage: Stage::Loaded(r.vertices, r.segments),
                    tangled: false,
                },
                plan: r.plan,
                drawing: Drawing::empty(),
                remembered: own(r.vertices),
            },
        },
        Err(refusal) => Changed {
            answer: Err(refusal),
            sheet,
        },
    }
}
