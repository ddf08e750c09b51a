// One mark.
ghost use Rattle.std.specs.Prelude.{◌≡◌, ◌<◌};
ghost use Rattle.sheet_data.specs.inner.Parts.{Holds, marks_of, mark_with};

use marks::marks::mark;
use marks::types::Mark;
use plan::data::Plan;
use plan::numbers::wide;
use report::data::{Counts, Drawing};

// Mark n, which is there.
pub fn mark_with(plan: Plan, drawing: Drawing, counts: Counts, n: usize) -> Mark
    requires { Holds plan drawing counts × (n < marks_of counts) }
    ensures { result ≡ mark_with plan drawing counts n }
{
    let v = counts.vertices;
    let e = counts.segments;
    let k = wide(plan.levels);
    let sizes = plan.sizes;
    let vias = plan.vias;
    let halves = plan.halves;
    let uppers = plan.uppers;
    let lowers = plan.lowers;
    let finals = drawing.finals;
    mark(
        plan.spacing,
        &sizes[..k],
        &vias[..v],
        &halves[..v],
        &uppers[..e],
        &lowers[..e],
        &finals[..v],
        n,
    )
}
