// Placing strands: "To place a strand, first place its left siblings of the same class; to place a sibling, place its strand."
ghost use Rattle.std.specs.Prelude.{◌≡◌, false, ◌<◌, length, replicate};
ghost use Rattle.plan.specs.inner.Graph.{Below};
ghost use Rattle.prelim_classes.specs.inner.Walks.{Placeable, placing, StrandKept, StrandPlaced, SiblingsKept, SiblingsPlaced, AllPlaced};

use crate::walk::{give, mark};
use plan::distances::distance;

// Places the strand of v, unless its placing has begun.
#[cycle(place_siblings_place_strand)]
fn place_strand(
    v: usize,
    gap: u32,
    halves: &[u16],
    next: &[u16],
    top: &[u16],
    sibling: &[u16],
    at: &mut [u32],
    begun: &mut [bool],
)
    requires placeable { Placeable gap halves.now next.now top.now sibling.now at.old begun.old }
    requires v_in_bounds { v < length next.now }
    ensures strand_kept { StrandKept top.now at.old begun.old at.new begun.new }
    ensures strand_placed { StrandPlaced gap halves.now next.now top.now sibling.now v
        (placing at.old begun.old) (placing at.new begun.new) }
{
    if begun[v] {
        return;
    }
    let first = usize::from(top[v]);
    mark(first, next, begun);
    let most = place_siblings(first, 0, gap, halves, next, top, sibling, at, begun);
    give(most, first, next, at);
}

// Places the left siblings of the members from w down. Gives the greatest (sibling + distance), at least `most`.
#[cycle(place_siblings_place_strand)]
fn place_siblings(
    w: usize,
    most: u32,
    gap: u32,
    halves: &[u16],
    next: &[u16],
    top: &[u16],
    sibling: &[u16],
    at: &mut [u32],
    begun: &mut [bool],
) -> u32
    requires { Placeable gap halves.now next.now top.now sibling.now at.old begun.old }
    ensures siblings_kept { SiblingsKept top.now at.old begun.old most at.new begun.new result }
    ensures siblings_placed { SiblingsPlaced gap halves.now next.now top.now sibling.now w most
        (placing at.old begun.old) result (placing at.new begun.new) }
{
    if w >= next.len() {
        return most;
    }
    let u = usize::from(sibling[w]);
    let below = usize::from(next[w]);
    if u >= next.len() {
        return place_siblings(below, most, gap, halves, next, top, sibling, at, begun);
    }
    place_strand(u, gap, halves, next, top, sibling, at, begun);
    let asked = most.max(at[u] + distance(gap, u, w, halves));
    place_siblings(below, asked, gap, halves, next, top, sibling, at, begun)
}

// Places the strands of these vertices, one after another.
pub fn place(
    gap: u32,
    halves: &[u16],
    next: &[u16],
    top: &[u16],
    sibling: &[u16],
    order: &[u16],
    at: &mut [u32],
    begun: &mut [bool],
)
    requires placeable { Placeable gap halves.now next.now top.now sibling.now at.old begun.old }
    requires below { Below (length next.now) order.now }
    requires at_value { (at.old ≡ replicate (length next.now) 0) × (begun.old ≡ replicate (length next.now) false) }
    ensures { AllPlaced gap halves.now next.now top.now sibling.now order.now at.new }
{
    for v in order {
        place_strand(usize::from(*v), gap, halves, next, top, sibling, at, begun);
    }
}
