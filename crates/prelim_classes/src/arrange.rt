// The vertices level by level in the order in hand, from left to right or reversed, and their siblings.
ghost use Rattle.std.specs.Prelude.{◌≡◌, cond, map, ◌+◌, ◌-◌, ◌≤◌, ◌<◌, length, get_or, take, drop, ltb};
ghost use Rattle.std.proofs.lemmas.List.Edits.{sets};
ghost use Rattle.ints.specs.Lists.{sum};
ghost use Rattle.plan.specs.Limits.{max_vertices};
ghost use Rattle.prelim_classes.specs.inner.Arranged.{joined, followers, level_by, levels_by, vertex_by};

use crate::links::NONE;

// The j-th vertex of a level of n vertices from v on.
fn vertex_at(reversed: bool, v: usize, n: usize, j: usize) -> usize
    requires { (j < n) × (v + n ≤ max_vertices) }
    ensures { result ≡ vertex_by reversed v n j }
{
    if reversed { v + n - 1 - j } else { v + j }
}

// Writes a level of n vertices from place v on.
fn write_order(reversed: bool, v: usize, n: usize, order: &mut [u16])
    requires { (v + n ≤ length order.old) × (length order.old ≤ max_vertices) }
    ensures { order.new ≡ sets order.old v (level_by reversed v n) }
{
    for j in 0..n {
        order[v + j] = vertex_at(reversed, v, n, j) as u16;
    }
}

// The vertex right of that at place i, NONE if the level ends there.
fn right_at(i: usize, to: usize, order: &[u16]) -> u16
    requires { (i < to) × (to ≤ length order.now) }
    ensures { result ≡ cond (ltb (i + 1) to) (get_or order.now (i + 1) 0) 2048 }
{
    if i + 1 < to { order[i + 1] } else { NONE }
}

// Writes the right siblings of the level from place `from` up to `to`.
fn write_right(from: usize, to: usize, order: &[u16], right: &mut [u16])
    requires { (from ≤ to) × (to ≤ length order.now) × (length right.old ≡ length order.now) }
    ensures { right.new ≡ sets right.old from (followers (take (to - from) (drop from order.now))) }
{
    for i in from..to {
        right[i] = right_at(i, to, order);
    }
}

// Writes the vertices of all levels and their right siblings.
pub fn arrange(reversed: bool, sizes: &[u16], order: &mut [u16], right: &mut [u16])
    requires { (sum sizes.now ≡ length order.old) × (length order.old ≤ max_vertices) × (length right.old ≡ length order.old) }
    ensures { (order.new ≡ joined (levels_by reversed 0 sizes.now)) × (right.new ≡ joined (map followers (levels_by reversed 0 sizes.now))) }
{
    let mut from = 0;
    for size in sizes {
        let n = usize::from(*size);
        write_order(reversed, from, n, order);
        write_right(from, from + n, order, right);
        from += n;
    }
}
