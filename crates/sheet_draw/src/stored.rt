// The draw of a stored plan.
ghost use Rattle.std.specs.Prelude.{◌≡◌, true};
ghost use Rattle.sheet_data.specs.inner.Parts.{is_plan_with, Draws};
ghost use Rattle.sheet_draw.specs.inner.Drawn.{Blank, Drawn};

use pass_draw::draw::draw;
use plan::data::Plan;
use plan::numbers::wide;
use report::data::{Counts, Drawing, NewDrawing};

// Draws a plan of v vertices and e segments that is not refused into lent arrays, and answers how many placings it lists.
pub fn draw_into(
    plan: Plan,
    v: usize,
    e: usize,
    preliminary: &mut [i64],
    finals: &mut [i64],
    passes: &mut [u16],
    levels: &mut [u16],
    boxes: &mut [u16],
    vertices: &mut [u16],
    positions: &mut [i64],
) -> usize
    requires { Blank plan v e preliminary.old finals.old passes.old levels.old boxes.old vertices.old positions.old }
    ensures { Drawn plan v e result preliminary.new finals.new passes.new levels.new
        boxes.new vertices.new positions.new }
{
    let k = wide(plan.levels);
    let sizes = plan.sizes;
    let vias = plan.vias;
    let halves = plan.halves;
    let uppers = plan.uppers;
    let lowers = plan.lowers;
    let ratings = plan.ratings;
    draw(
        plan.gap,
        &sizes[..k],
        &vias[..v],
        &halves[..v],
        &uppers[..e],
        &lowers[..e],
        &ratings[..e],
        preliminary,
        finals,
        passes,
        levels,
        boxes,
        vertices,
        positions,
    )
}

// The drawing of a plan that is not refused.
pub fn draw_plan(plan: Plan, counts: Counts) -> NewDrawing
    requires { is_plan_with plan counts ≡ true }
    ensures { Draws plan counts result }
{
    let v = counts.vertices;
    let mut preliminary = [0i64; Plan::MAX_VERTICES];
    let mut finals = [0i64; Plan::MAX_VERTICES];
    let mut passes = [0u16; Drawing::MAX_LISTED];
    let mut levels = [0u16; Drawing::MAX_LISTED];
    let mut boxes = [0u16; Drawing::MAX_LISTED];
    let mut vertices = [0u16; Drawing::MAX_LISTED];
    let mut positions = [0i64; Drawing::MAX_LISTED];
    let placings = draw_into(
        plan,
        v,
        counts.segments,
        &mut preliminary[..v],
        &mut finals[..v],
        &mut passes,
        &mut levels,
        &mut boxes,
        &mut vertices,
        &mut positions,
    );
    NewDrawing {
        drawing: Drawing {
            preliminary,
            finals,
            passes,
            levels,
            counts: boxes,
            vertices,
            positions,
        },
        placings,
    }
}
