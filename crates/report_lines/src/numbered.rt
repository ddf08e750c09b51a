// One line of a report, by its number.
ghost use Rattle.plan_checks.specs.inner.Heights.{height_at};
ghost use Rattle.text_write.specs.inner.Written.{Wrote, Fronts};
ghost use Rattle.report.specs.Lines.{place_line};
ghost use Rattle.report_lines.specs.inner.Stored.{height_in, placing_of, vertex_line, VertexRoom, AtLineRoom, PlacingRoom, report_line_of, LineRoom};

use crate::forms::{put_at, put_drawing, put_placing};
use ints::total;
use plan::data::Plan;
use plan_checks::levels::heights;
use text_write::number::put_word;

// The line of vertex v, where the height of each vertex is known.
pub fn put_vertex(
    out: &mut [u8],
    at: usize,
    heights: &[u64],
    preliminary: &[i64],
    finals: &[i64],
    v: usize,
) -> usize
    requires { VertexRoom heights.now preliminary.now finals.now v out.old at }
    ensures { Wrote (vertex_line preliminary.now finals.now v (height_in heights.now v)) out.old at result out.new }
{
    put_at(out, at, v as u64, preliminary[v], finals[v], heights[v])
}

// The line of vertex v, by the sizes of the levels.
fn put_at_line(
    out: &mut [u8],
    at: usize,
    spacing: u32,
    sizes: &[u16],
    preliminary: &[i64],
    finals: &[i64],
    v: usize,
) -> usize
    requires { AtLineRoom spacing sizes.now preliminary.now finals.now v out.old at }
    ensures { Wrote (vertex_line preliminary.now finals.now v (height_at spacing sizes.now v)) out.old at result out.new }
{
    let mut height = [0u64; Plan::MAX_VERTICES];
    let height = &mut height[..preliminary.len()];
    heights(spacing, sizes, height);
    put_vertex(out, at, height, preliminary, finals, v)
}

// The line of the k-th placing, whose boxes start at `start`.
pub fn put_listed(
    out: &mut [u8],
    at: usize,
    passes: &[u16],
    levels: &[u16],
    counts: &[u16],
    vertices: &[u16],
    positions: &[i64],
    k: usize,
    start: usize,
) -> usize
    requires { PlacingRoom passes.now levels.now counts.now vertices.now positions.now k start out.old at }
    ensures { Wrote (place_line (placing_of passes.now levels.now counts.now vertices.now positions.now k start))
        out.old at result out.new }
{
    let end = start + usize::from(counts[k]);
    put_placing(
        out,
        at,
        passes[k],
        levels[k],
        &vertices[start..end],
        &positions[start..end],
    )
}

// Line n of the report, at the front of a buffer that has room for it: how many bytes the line has.
pub fn put_report_line(
    spacing: u32,
    sizes: &[u16],
    preliminary: &[i64],
    finals: &[i64],
    passes: &[u16],
    levels: &[u16],
    counts: &[u16],
    vertices: &[u16],
    positions: &[i64],
    n: usize,
    out: &mut [u8],
) -> usize
    requires { LineRoom spacing sizes.now preliminary.now finals.now passes.now levels.now counts.now vertices.now positions.now n out.old }
    ensures { Fronts (report_line_of spacing sizes.now preliminary.now finals.now
        passes.now levels.now counts.now vertices.now positions.now n)
        out.old result out.new }
{
    if n == 0 {
        return put_drawing(out, 0, preliminary.len(), passes.len());
    }
    if n <= preliminary.len() {
        return put_at_line(out, 0, spacing, sizes, preliminary, finals, n - 1);
    }
    let k = n - 1 - preliminary.len();
    if k < passes.len() {
        let from = total(&counts[..k]);
        return put_listed(out, 0, passes, levels, counts, vertices, positions, k, from);
    }
    put_word(out, 0, b"(end)\n")
}
