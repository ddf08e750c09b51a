// The second way of loading.
ghost use Rattle.sheet.specs.Calls as spec;
ghost use Rattle.sheet.specs.Calls.{Leaves};

use report::data::Drawing;
use sheet::types::{Changed, Header, Sheet, Stage};
use text_untangle::read_tangled;

// "A second way of loading takes" tangled plans. Refused 1 to 5, it changes nothing.
pub fn load_tangled(sheet: Sheet, text: &[u8]) -> Changed
    ensures { Leaves (spec.load_tangled sheet text.now) result.answer result.sheet }
{
    match read_tangled(text) {
        Ok(r) => {
            let remembered = r.numbers;
            Changed {
                answer: Ok(()),
                sheet: Sheet {
                    header: Header {
                        stage: Stage::Loaded(r.vertices, r.segments),
                        tangled: true,
                    },
                    plan: r.plan,
                    drawing: Drawing::empty(),
                    remembered,
                },
            }
        }
        Err(refusal) => Changed {
            answer: Err(refusal),
            sheet,
        },
    }
}
