// All lines of a report, one after another, in time that grows with their number: the heights are worked out once, and the placings'
// boxes are met in their order.
ghost use Rattle.std.specs.Prelude.{◌+◌, ◌<◌};
ghost use Rattle.plan_checks.specs.inner.Heights.{height_at};
ghost use Rattle.text_write.specs.inner.Written.{Wrote, Fronts};
ghost use Rattle.passes.specs.Stored.{placings_from};
ghost use Rattle.report_lines.specs.inner.Stored.{height_in, all_vertex_lines, VerticesRoom, AtLinesRoom, place_lines, PlacingsRoom, report_of, ReportRoom};

use crate::forms::put_drawing;
use crate::numbered::{put_listed, put_vertex};
use plan::data::Plan;
use plan_checks::levels::heights;
use text_write::number::put_word;

// The vertices' lines, where the height of each vertex is known.
fn put_vertices(
    out: &mut [u8],
    from: usize,
    heights: &[u64],
    preliminary: &[i64],
    finals: &[i64],
) -> usize
    requires { VerticesRoom heights.now preliminary.now finals.now out.old from }
    ensures { Wrote (all_vertex_lines preliminary.now finals.now (height_in heights.now)) out.old from result out.new }
{
    let mut at = from;
    for n in 0..preliminary.len() {
        at = put_vertex(out, at, heights, preliminary, finals, n);
    }
    at
}

// The vertices' lines, by the sizes of the levels.
fn put_at_lines(
    out: &mut [u8],
    at: usize,
    spacing: u32,
    sizes: &[u16],
    preliminary: &[i64],
    finals: &[i64],
) -> usize
    requires { AtLinesRoom spacing sizes.now preliminary.now finals.now out.old at }
    ensures { Wrote (all_vertex_lines preliminary.now finals.now (height_at spacing sizes.now)) out.old at result out.new }
{
    let mut height = [0u64; Plan::MAX_VERTICES];
    let height = &mut height[..preliminary.len()];
    heights(spacing, sizes, height);
    put_vertices(out, at, height, preliminary, finals)
}

// The placings' lines.
fn put_placings(
    out: &mut [u8],
    from: usize,
    passes: &[u16],
    levels: &[u16],
    counts: &[u16],
    vertices: &[u16],
    positions: &[i64],
) -> usize
    requires { PlacingsRoom passes.now levels.now counts.now vertices.now positions.now out.old from }
    ensures { Wrote (place_lines (placings_from passes.now levels.now counts.now vertices.now positions.now))
        out.old from result out.new }
{
    let mut at = from;
    let mut start: usize = 0;
    for (k, count) in counts.iter().enumerate() {
        at = put_listed(
            out, at, passes, levels, counts, vertices, positions, k, start,
        );
        start += usize::from(*count);
    }
    at
}

// The whole report, at the front of a buffer that has room for it: how many bytes it has.
pub fn put_report(
    spacing: u32,
    sizes: &[u16],
    preliminary: &[i64],
    finals: &[i64],
    passes: &[u16],
    levels: &[u16],
    counts: &[u16],
    vertices: &[u16],
    positions: &[i64],
    out: &mut [u8],
) -> usize
    requires { ReportRoom spacing sizes.now preliminary.now finals.now passes.now levels.now counts.now vertices.now positions.now out.old }
    ensures { Fronts (report_of spacing sizes.now preliminary.now finals.now
        passes.now levels.now counts.now vertices.now positions.now)
        out.old result out.new }
{
    let at_lines = put_drawing(out, 0, preliminary.len(), passes.len());
    let place_lines = put_at_lines(out, at_lines, spacing, sizes, preliminary, finals);
    let end = put_placings(
        out,
        place_lines,
        passes,
        levels,
        counts,
        vertices,
        positions,
    );
    put_word(out, end, b"(end)\n")
}
