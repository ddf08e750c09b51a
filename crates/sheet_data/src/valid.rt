// 13, of the remembered numbers and of the drawing.
ghost use Rattle.std.specs.Prelude.{◌≡◌, true};
ghost use Rattle.sheet_data.specs.inner.Parts.{is_plan_with, are_own_with, is_drawing_with};

use plan::data::Plan;
use plan::numbers::wide;
use plan_renumber::remembered::own_numbers;
use report::data::{Counts, Drawing};
use report_validity::drawing::is_drawing;

// Whether remembered numbers are those of a plan's levels, once each, of a plan that is not refused.
pub fn are_own(plan: Plan, remembered: [u16; Plan::MAX_VERTICES], counts: Counts) -> bool
    requires { is_plan_with plan counts ≡ true }
    ensures { result ≡ are_own_with plan remembered counts }
{
    let k = wide(plan.levels);
    let sizes = plan.sizes;
    own_numbers(&sizes[..k], &remembered[..counts.vertices])
}

// Whether a drawing is one of its plan, which is not refused.
pub fn is_drawing_of(plan: Plan, drawing: Drawing, counts: Counts) -> bool
    requires { is_plan_with plan counts ≡ true }
    ensures { result ≡ is_drawing_with plan drawing counts }
{
    let v = counts.vertices;
    let p = counts.placings;
    if Drawing::MAX_LISTED < p {
        return false;
    }
    let k = wide(plan.levels);
    let sizes = plan.sizes;
    let vias = plan.vias;
    let preliminary = drawing.preliminary;
    let finals = drawing.finals;
    let passes = drawing.passes;
    let levels = drawing.levels;
    let boxes = drawing.counts;
    let vertices = drawing.vertices;
    let positions = drawing.positions;
    is_drawing(
        &sizes[..k],
        &vias[..v],
        &preliminary[..v],
        &finals[..v],
        &passes[..p],
        &levels[..p],
        &boxes[..p],
        &vertices,
        &positions,
    )
}
