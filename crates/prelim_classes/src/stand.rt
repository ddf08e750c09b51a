// Where the vertices stand before the classes are shifted.
ghost use Rattle.std.specs.Prelude.{◌≡◌, map, length, pos};
ghost use Rattle.prelim_classes.specs.inner.Walks.{Classed, Stand};

use crate::links::NONE;
use crate::place::place;
use crate::siblings::siblings;
use plan::data::Plan;

// Places as signed numbers.
fn widen(at: &[u32], xs: &mut [i64])
    requires { length xs.old ≡ length at.now }
    ensures { xs.new ≡ map pos at.now }
{
    for (v, x) in xs.iter_mut().enumerate() {
        *x = i64::from(at[v]);
    }
}

// Places the strands, each beside the left siblings of its class.
pub fn stand(
    gap: u32,
    halves: &[u16],
    next: &[u16],
    top: &[u16],
    order: &[u16],
    right: &[u16],
    classes: &[u32],
    xs: &mut [i64],
)
    requires { Classed gap halves.now next.now top.now order.now right.now classes.now × (length xs.old ≡ length next.now) }
    ensures { Stand gap halves.now next.now top.now order.now right.now classes.now xs.new }
{
    let n = next.len();
    let mut sibling = [NONE; Plan::MAX_VERTICES];
    let sibling = &mut sibling[..n];
    siblings(order, right, classes, sibling);
    let mut at = [0u32; Plan::MAX_VERTICES];
    let at = &mut at[..n];
    let mut begun = [false; Plan::MAX_VERTICES];
    let begun = &mut begun[..n];
    place(gap, halves, next, top, sibling, order, at, begun);
    widen(at, xs);
}
