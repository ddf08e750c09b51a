// One line of the report.
ghost use Rattle.std.specs.Prelude.{◌≡◌, true, ◌<◌, ◌≤◌, length};
ghost use Rattle.text_write.specs.inner.Written.{Fronts};
ghost use Rattle.report_lines.specs.inner.Stored.{max_line};
ghost use Rattle.sheet_data.specs.inner.Parts.{Holds, are_own_with, lines_of, line_with};

use plan::data::Plan;
use plan::numbers::wide;
use report::data::{Counts, Drawing};
use report_numbers::lines::put_line_by;

// No line is longer.
pub const MAX_LINE: usize = 1421;

// Line n at the front of a buffer that has room for every line: how many bytes it has.
pub fn put_line(
    plan: Plan,
    remembered: [u16; Plan::MAX_VERTICES],
    drawing: Drawing,
    counts: Counts,
    n: usize,
    out: &mut [u8],
) -> usize
    requires { Holds plan drawing counts × (are_own_with plan remembered counts ≡ true) × (n < lines_of counts) × (max_line ≤ length out.old) }
    ensures { Fronts (line_with plan remembered drawing counts n) out.old result out.new }
{
    let v = counts.vertices;
    let p = counts.placings;
    let k = wide(plan.levels);
    let sizes = plan.sizes;
    let preliminary = drawing.preliminary;
    let finals = drawing.finals;
    let passes = drawing.passes;
    let levels = drawing.levels;
    let boxes = drawing.counts;
    let vertices = drawing.vertices;
    let positions = drawing.positions;
    put_line_by(
        &remembered[..v],
        plan.spacing,
        &sizes[..k],
        &preliminary[..v],
        &finals[..v],
        &passes[..p],
        &levels[..p],
        &boxes[..p],
        &vertices,
        &positions,
        n,
        out,
    )
}
