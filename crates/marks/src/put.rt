// Marks as numbers in a lent slice.
ghost use Rattle.std.specs.Prelude.{◌≡◌, [], ◌∷◌, ◌+◌, ◌*◌, ◌≤◌, length};
ghost use Rattle.std.proofs.lemmas.List.Edits.{sets};
ghost use Rattle.marks.specs.Marks.{five_of};
ghost use Rattle.marks.specs.inner.Asked.{AskedEach, AreMarksAt, AskedAll, AreMarks};

use crate::marks::mark_at;
use crate::types::{Mark, Point};
use plan::data::Plan;
use plan_checks::levels::heights;

// Writes five numbers: a kind, a point, and two more.
fn put_five(kind: f64, c: Point, d: f64, e: f64, at: usize, out: &mut [f64])
    requires { at + 5 ≤ length out.old }
    ensures { out.new ≡ sets out.old at (kind ∷ c.x ∷ c.y ∷ d ∷ e ∷ []) }
{
    out[at] = kind;
    out[at + 1] = c.x;
    out[at + 2] = c.y;
    out[at + 3] = d;
    out[at + 4] = e;
}

// Writes a mark as five numbers.
pub fn put_mark(m: Mark, at: usize, out: &mut [f64])
    requires { at + 5 ≤ length out.old }
    ensures { out.new ≡ sets out.old at (five_of m) }
{
    match m {
        Mark::Box(c, w) => put_five(0.0, c, w, 0.0, at, out),
        Mark::Bend(c) => put_five(1.0, c, 0.0, 0.0, at, out),
        Mark::Line(a, b) => put_five(2.0, a, b.x, b.y, at, out),
    }
}

// Writes all marks one after another, five numbers each, where the height of each vertex is known.
fn put_each(
    heights: &[u64],
    vias: &[bool],
    halves: &[u16],
    uppers: &[u32],
    lowers: &[u32],
    finals: &[i64],
    out: &mut [f64],
)
    requires { AskedEach heights.now vias.now halves.now uppers.now lowers.now finals.now × (5 * (length vias.now + length uppers.now) ≤ length out.old) }
    ensures { AreMarksAt heights.now vias.now halves.now uppers.now lowers.now finals.now
        out.old out.new }
{
    for n in 0..vias.len() + uppers.len() {
        let m = mark_at(heights, vias, halves, uppers, lowers, finals, n);
        put_mark(m, 5 * n, out);
    }
}

// Writes all marks one after another, five numbers each.
pub fn put_marks(
    spacing: u32,
    sizes: &[u16],
    vias: &[bool],
    halves: &[u16],
    uppers: &[u32],
    lowers: &[u32],
    finals: &[i64],
    out: &mut [f64],
)
    requires { AskedAll spacing sizes.now vias.now halves.now uppers.now lowers.now finals.now × (5 * (length vias.now + length uppers.now) ≤ length out.old) }
    ensures { AreMarks spacing sizes.now vias.now halves.now uppers.now lowers.now finals.now
        out.old out.new }
{
    let mut height = [0u64; Plan::MAX_VERTICES];
    let height = &mut height[..vias.len()];
    heights(spacing, sizes, height);
    put_each(height, vias, halves, uppers, lowers, finals, out);
}
