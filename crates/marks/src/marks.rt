// One mark, out of a plan's arrays and the final positions.
ghost use Rattle.std.specs.Prelude.{◌≡◌, cond, ◌<◌, length};
ghost use Rattle.marks.specs.Half.{whole_of};
ghost use Rattle.marks.specs.inner.Asked.{Standing, point_in, line_in, AskedAt, IsMarkAt, Asked, IsMark};

use crate::types::{Mark, Point};
use plan::data::Plan;
use plan_checks::levels::heights;

// Where vertex v stands.
fn point_at(heights: &[u64], finals: &[i64], v: usize) -> Point
    requires { Standing heights.now finals.now × (v < length finals.now) }
    ensures { result ≡ point_in heights.now finals.now v }
{
    Point::new(finals[v], heights[v])
}

// The mark of a vertex that stands at `at`.
fn vertex_mark(via: bool, half: u16, at: Point) -> Mark
    ensures { result ≡ cond via (Mark.Bend at) (Mark.Box at (whole_of half)) }
{
    if via {
        return Mark::Bend(at);
    }
    Mark::Box(at, half as f64)
}

// The mark of the segment from a down to b.
fn segment_mark(heights: &[u64], finals: &[i64], a: u32, b: u32) -> Mark
    requires { Standing heights.now finals.now × (a < length finals.now) × (b < length finals.now) }
    ensures { result ≡ line_in heights.now finals.now a b }
{
    let upper = point_at(heights, finals, a as usize);
    let lower = point_at(heights, finals, b as usize);
    Mark::Line(upper, lower)
}

// The n-th mark, where the height of each vertex is known.
pub fn mark_at(
    heights: &[u64],
    vias: &[bool],
    halves: &[u16],
    uppers: &[u32],
    lowers: &[u32],
    finals: &[i64],
    n: usize,
) -> Mark
    requires { AskedAt heights.now vias.now halves.now uppers.now lowers.now finals.now n }
    ensures { IsMarkAt heights.now vias.now halves.now uppers.now lowers.now finals.now n result }
{
    if n < vias.len() {
        let at = point_at(heights, finals, n);
        return vertex_mark(vias[n], halves[n], at);
    }
    let k = n - vias.len();
    segment_mark(heights, finals, uppers[k], lowers[k])
}

// The n-th mark: that of vertex n, or past the vertices that of a segment.
pub fn mark(
    spacing: u32,
    sizes: &[u16],
    vias: &[bool],
    halves: &[u16],
    uppers: &[u32],
    lowers: &[u32],
    finals: &[i64],
    n: usize,
) -> Mark
    requires { Asked spacing sizes.now vias.now halves.now uppers.now lowers.now finals.now n }
    ensures { IsMark spacing sizes.now vias.now halves.now uppers.now lowers.now finals.now n result }
{
    let mut height = [0u64; Plan::MAX_VERTICES];
    let height = &mut height[..vias.len()];
    heights(spacing, sizes, height);
    mark_at(height, vias, halves, uppers, lowers, finals, n)
}
