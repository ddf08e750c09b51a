// The left siblings that a strand's placing asks: those of the same class.
ghost use Rattle.std.specs.Prelude.{◌≡◌, ◌≤◌, ◌<◌, length, set, replicate};
ghost use Rattle.plan.specs.Limits.{max_vertices};
ghost use Rattle.plan.specs.inner.Graph.{Below};
ghost use Rattle.prelim_classes.specs.inner.Walks.{SiblingsOf, same_class};

use crate::links::NONE;

// The left sibling u of v, NONE if it is of another class.
fn same_class(u: u16, v: usize, classes: &[u32]) -> u16
    requires { (u < length classes.now) × (v < length classes.now) }
    ensures { result ≡ same_class u v classes.now }
{
    if classes[usize::from(u)] == classes[v] {
        u
    } else {
        NONE
    }
}

// Writes the left sibling u of v, if v is a vertex.
fn write_sibling(u: u16, v: usize, classes: &[u32], sibling: &mut [u16])
    requires { (u < length classes.now) × (length sibling.old ≡ length classes.now) }
    ensures { sibling.new ≡ set sibling.old v (same_class u v classes.now) }
{
    if v < sibling.len() {
        sibling[v] = same_class(u, v, classes);
    }
}

// Writes of each vertex the left sibling of its class.
pub fn siblings(order: &[u16], right: &[u16], classes: &[u32], sibling: &mut [u16])
    requires right_len { (length right.now ≡ length order.now) × Below (length classes.now) order.now }
    requires classes_len_bound { (length classes.now ≤ max_vertices) × (sibling.old ≡ replicate (length classes.now) 2048) }
    ensures { SiblingsOf order.now right.now classes.now sibling.new }
{
    for i in (0..order.len()).rev() {
        write_sibling(order[i], usize::from(right[i]), classes, sibling);
    }
}
