// Classes: "on each level l from the top, start with number l and go left to right; a vertex without a class gives the current
// number to its whole strand; a vertex with one makes that number current." A class of 0 is none yet.
ghost use Rattle.std.specs.Prelude.{◌≡◌, List, ℕ, ◌+◌, ◌-◌, ◌≤◌, ◌<◌, length, get_or, take, drop};
ghost use Rattle.ints.specs.Lists.{sum};
ghost use Rattle.plan.specs.Limits.{max_levels};
ghost use Rattle.prelim_classes.specs.inner.Links.{Rising, chain};
ghost use Rattle.preliminary.specs.Classes as spec;
ghost use Rattle.prelim_classes.specs.inner.Strands.{StrandsBy};
ghost use Rattle.prelim_classes.specs.inner.Walks.{Classable, cut, classes_after, current_after};

use crate::walk::give;

// Classes vertex v, `current` being the current number, and gives the number current after it.
fn class_vertex(v: usize, current: u32, next: &[u16], top: &[u16], classes: &mut [u32]) -> u32
    requires { Rising next.now × (length top.now ≡ length next.now) × (length classes.old ≡ length next.now) × (v < length next.now) }
    ensures value { result ≡ current_after classes.old v current }
    ensures classes_after { classes.new ≡ classes_after (chain next.now (get_or top.now v 0)) classes.old v current }
{
    if classes[v] == 0 {
        give(current, usize::from(top[v]), next, classes);
        return current;
    }
    classes[v]
}

// Classes the level whose vertices stand from `from` up to `to`, beginning with number l.
fn class_level(
    l: u32,
    from: usize,
    to: usize,
    order: &[u16],
    next: &[u16],
    top: &[u16],
    classes: &mut [u32],
)
    requires classable { Classable next.now top.now order.now classes.old }
    requires from_le_to { (from ≤ to) × (to ≤ length order.now) }
    ensures { (strand : ℕ → List ℕ) → StrandsBy strand next.now top.now
        → classes.new ≡ spec.classes_on strand l (take (to - from) (drop from order.now)) classes.old }
{
    let mut current = l;
    for v in &order[from..to] {
        current = class_vertex(usize::from(*v), current, next, top, classes);
    }
}

// Classes every strand, level by level.
pub fn class(sizes: &[u16], order: &[u16], next: &[u16], top: &[u16], classes: &mut [u32])
    requires classable { Classable next.now top.now order.now classes.old }
    requires sizes_value { (sum sizes.now ≡ length order.now) × (length sizes.now ≤ max_levels) }
    ensures { (strand : ℕ → List ℕ) → StrandsBy strand next.now top.now
        → classes.new ≡ spec.classes_from strand 1 (cut sizes.now order.now) classes.old }
{
    let mut from = 0;
    for (l, size) in sizes.iter().enumerate() {
        let to = from + usize::from(*size);
        class_level((l + 1) as u32, from, to, order, next, top, classes);
        from = to;
    }
}
