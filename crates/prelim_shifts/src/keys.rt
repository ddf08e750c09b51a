// For which class's shift each sibling pair and each segment counts: the places of each class as a chain.
ghost use Rattle.std.specs.Prelude.{◌≡◌, ◌<◌, ◌≤◌, length, replicate};
ghost use Rattle.plan.specs.Limits.{max_levels, max_vertices, max_segments};
ghost use Rattle.plan.specs.inner.Graph.{Below};
ghost use Rattle.prelim_classes.specs.inner.Links.{Bucketed};
ghost use Rattle.prelim_shifts.specs.inner.Shifts.{gap_key, offset_key, keys_by, AtMost};

use prelim_classes::links::put_first;

// The class for whose shift v counts by its right sibling w, 0 if for none.
fn gap_key(v: usize, w: usize, classes: &[u32]) -> u32
    requires { v < length classes.now }
    ensures { result ≡ gap_key classes.now v w }
{
    if w < classes.len() && classes[w] != classes[v] {
        classes[v]
    } else {
        0
    }
}

// The places of the pairs that count for each class, as chains.
pub fn link_pairs(order: &[u16], right: &[u16], classes: &[u32], head: &mut [u16], link: &mut [u16])
    requires order_len { (length order.now ≡ length classes.now) × (length right.now ≡ length classes.now) × (length classes.now ≤ max_vertices) }
    requires below { Below (length classes.now) order.now × AtMost max_levels classes.now × (length link.old ≡ length classes.now) × (head.old ≡ replicate 65 2048) }
    ensures { Bucketed (keys_by (gap_key classes.now) order.now right.now) head.new link.new }
{
    for i in (0..order.len()).rev() {
        let k = gap_key(usize::from(order[i]), usize::from(right[i]), classes);
        put_first(k as usize, i, head, link);
    }
}

// The class for whose shift the segment from a to b counts, 0 if for none.
fn offset_key(a: usize, b: usize, classes: &[u32]) -> u32
    requires { (a < length classes.now) × (b < length classes.now) }
    ensures { result ≡ offset_key classes.now a b }
{
    if classes[a] == classes[b] {
        0
    } else {
        classes[a].max(classes[b])
    }
}

// The places of the segments that count for each class, as chains.
pub fn link_segments(
    uppers: &[u32],
    lowers: &[u32],
    classes: &[u32],
    head: &mut [u16],
    link: &mut [u16],
)
    requires uppers_len { (length uppers.now ≡ length lowers.now) × (length uppers.now ≤ max_segments) × Below (length classes.now) uppers.now × Below (length classes.now) lowers.now }
    requires at_most { AtMost max_levels classes.now × (length link.old ≡ length uppers.now) × (head.old ≡ replicate 65 2048) }
    ensures { Bucketed (keys_by (offset_key classes.now) uppers.now lowers.now) head.new link.new }
{
    for i in (0..uppers.len()).rev() {
        let k = offset_key(uppers[i] as usize, lowers[i] as usize, classes);
        put_first(k as usize, i, head, link);
    }
}
