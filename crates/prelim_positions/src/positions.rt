// Preliminary positions: x₋ and, from the reversed levels, x₊; then their sum.
ghost use Rattle.std.specs.Prelude.{◌≡◌, map, length, neg_ℤ};
ghost use Rattle.ints.specs.Ints.{SizedTo};
ghost use Rattle.plan.specs.Plan.{PlanData};
ghost use Rattle.plan.specs.inner.Held.{HoldsPlan, SomePlan};
ghost use Rattle.preliminary.specs.Positions as spec;
ghost use Rattle.prelim_positions.specs.inner.Sides.{Room};

use crate::side::side;
use plan::data::Plan;
use prelim_classes::inner::strands;
use prelim_classes::links::NONE;

// x₋ and x₊ together, `ys` being the positions by the reversed levels: x₊ is their negation.
fn subtract(xs: &mut [i64], ys: &[i64])
    requires { (length xs.old ≡ length ys.now) × SizedTo 33312000 xs.old × SizedTo 33312000 ys.now }
    ensures { xs.new ≡ spec.sums xs.old (map neg_ℤ ys.now) }
{
    for (i, x) in xs.iter_mut().enumerate() {
        *x -= ys[i];
    }
}

// The positions, by lists to work on.
fn positions_in(
    gap: u32,
    sizes: &[u16],
    vias: &[bool],
    halves: &[u16],
    uppers: &[u32],
    lowers: &[u32],
    next: &mut [u16],
    top: &mut [u16],
    order: &mut [u16],
    right: &mut [u16],
    classes: &mut [u32],
    again: &mut [u32],
    xs: &mut [i64],
    ys: &mut [i64],
)
    requires some_plan { SomePlan gap sizes.now vias.now halves.now uppers.now lowers.now }
    requires room { Room (length vias.now) next.old top.old order.old right.old classes.old again.old xs.old ys.old }
    ensures { (p : PlanData) → HoldsPlan p gap sizes.now vias.now halves.now uppers.now lowers.now
        → xs.new ≡ spec.preliminary p }
{
    strands(vias, uppers, lowers, next, top);
    side(
        false, gap, sizes, halves, next, top, uppers, lowers, order, right, classes, xs,
    );
    side(
        true, gap, sizes, halves, next, top, uppers, lowers, order, right, again, ys,
    );
    subtract(xs, ys);
}

// The preliminary position of every vertex, in half steps.
pub fn preliminary_positions(
    gap: u32,
    sizes: &[u16],
    vias: &[bool],
    halves: &[u16],
    uppers: &[u32],
    lowers: &[u32],
    out: &mut [i64],
)
    requires { SomePlan gap sizes.now vias.now halves.now uppers.now lowers.now × (length out.old ≡ length vias.now) }
    ensures { (p : PlanData) → HoldsPlan p gap sizes.now vias.now halves.now uppers.now lowers.now
        → out.new ≡ spec.preliminary p }
{
    let n = vias.len();
    let mut next = [NONE; Plan::MAX_VERTICES];
    let mut top = [NONE; Plan::MAX_VERTICES];
    let mut order = [0u16; Plan::MAX_VERTICES];
    let mut right = [0u16; Plan::MAX_VERTICES];
    let mut classes = [0u32; Plan::MAX_VERTICES];
    let mut again = [0u32; Plan::MAX_VERTICES];
    let mut other = [0i64; Plan::MAX_VERTICES];
    positions_in(
        gap,
        sizes,
        vias,
        halves,
        uppers,
        lowers,
        &mut next[..n],
        &mut top[..n],
        &mut order[..n],
        &mut right[..n],
        &mut classes[..n],
        &mut again[..n],
        out,
        &mut other[..n],
    );
}
