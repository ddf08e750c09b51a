// What draw leaves.
ghost use Rattle.std.specs.Prelude.{◌≡◌};
ghost use Rattle.sheet.specs.inner.Refusals.{with_drawing};

use crate::refusals::counts_in;
use crate::types::{Header, Sheet, Stage};
use report::data::NewDrawing;

// The sheet with another drawing of its plan.
pub fn with_drawing(sheet: Sheet, new: NewDrawing) -> Sheet
    ensures { result ≡ with_drawing sheet new }
{
    let header = sheet.header;
    let stage = header.stage;
    let counts = counts_in(stage);
    let plan = sheet.plan;
    let drawing = new.drawing;
    let remembered = sheet.remembered;
    Sheet {
        header: Header {
            stage: Stage::Drawn(counts.vertices, counts.segments, new.placings),
            tangled: header.tangled,
        },
        plan,
        drawing,
        remembered,
    }
}
