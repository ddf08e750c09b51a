// The draw of a plan that was read, as far as its positions are asked for.
ghost use Rattle.plan.specs.Plan.{PlanData};
ghost use Rattle.pass_draw.specs.inner.Made.{HoldsRated};
ghost use Rattle.text_marks.specs.inner.Drawn.{PositionsRoom, Placed};

use pass_draw::draw::make_drawing;

// Draws without the list of placings.
pub fn draw_positions(
    gap: u32,
    sizes: &[u16],
    vias: &[bool],
    halves: &[u16],
    uppers: &[u32],
    lowers: &[u32],
    ratings: &[u32],
    preliminary: &mut [i64],
    finals: &mut [i64],
)
    requires { PositionsRoom gap sizes.now vias.now halves.now uppers.now lowers.now ratings.now preliminary.old finals.old }
    ensures { (p : PlanData) → HoldsRated p gap sizes.now vias.now halves.now uppers.now lowers.now ratings.now
        → Placed p preliminary.new finals.new }
{
    let mut passes = [0u16; 0];
    let mut levels = [0u16; 0];
    let mut boxes = [0u16; 0];
    let mut vertices = [0u16; 0];
    let mut positions = [0i64; 0];
    make_drawing(
        gap,
        sizes,
        vias,
        halves,
        uppers,
        lowers,
        ratings,
        preliminary,
        finals,
        &mut passes,
        &mut levels,
        &mut boxes,
        &mut vertices,
        &mut positions,
    );
}
