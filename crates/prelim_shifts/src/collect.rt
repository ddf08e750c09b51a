// By what a class shifts: how far its right siblings of other classes stand beyond their distances, and how far the other ends of
// its segments stand.
ghost use Rattle.std.specs.Prelude.{◌≡◌, ◌≤◌, ◌<◌, length};
ghost use Rattle.ints.specs.Ints.{SizedTo};
ghost use Rattle.ints.specs.Lists.{over};
ghost use Rattle.plan.specs.Limits.{max_gap};
ghost use Rattle.plan.specs.inner.Graph.{Below};
ghost use Rattle.prelim_classes.specs.inner.Links.{Rising, chain};
ghost use Rattle.prelim_shifts.specs.inner.Shifts as lists;

// (sibling − member − distance), of a member v and its right sibling w.
fn slack(gap: u32, v: usize, w: usize, halves: &[u16], xs: &[i64]) -> i64
    requires { (gap ≤ max_gap) × (length halves.now ≡ length xs.now) × (v < length xs.now) × (w < length xs.now) × SizedTo 134217728 xs.now }
    ensures { result ≡ lists.slack gap halves.now xs.now v w }
{
    let apart = u32::from(halves[v]) + gap + u32::from(halves[w]);
    xs[w] - xs[v] - i64::from(apart)
}

// Collects them along a chain of places in `order` and `right`. Gives how many there are.
pub fn slacks(
    gap: u32,
    first: usize,
    link: &[u16],
    order: &[u16],
    right: &[u16],
    halves: &[u16],
    xs: &[i64],
    out: &mut [i64],
) -> usize
    requires rising { Rising link.now × (length order.now ≡ length link.now) × (length right.now ≡ length link.now) × (length link.now ≤ length out.old) }
    requires gap_le_max_gap { (gap ≤ max_gap) × (length halves.now ≡ length xs.now) × SizedTo 134217728 xs.now × Below (length xs.now) order.now
        × lists.BelowAt (length xs.now) right.now (chain link.now first) }
    ensures { (result ≡ length (chain link.now first))
        × (out.new ≡ over (lists.slacks gap halves.now xs.now order.now right.now (chain link.now first)) out.old) }
{
    let mut s: usize = 0;
    let mut i = first;
    while i < link.len() {
        out[s] = slack(
            gap,
            usize::from(order[i]),
            usize::from(right[i]),
            halves,
            xs,
        );
        s += 1;
        i = usize::from(link[i]);
    }
    s
}

// How far the other end of the segment from a to b stands from that of class c.
fn offset(c: u32, a: usize, b: usize, classes: &[u32], xs: &[i64]) -> i64
    requires { (length classes.now ≡ length xs.now) × (a < length xs.now) × (b < length xs.now) × SizedTo 134217728 xs.now }
    ensures { result ≡ lists.offset c classes.now xs.now a b }
{
    if classes[a] == c {
        xs[b] - xs[a]
    } else {
        xs[a] - xs[b]
    }
}

// Collects them along a chain of segments. Gives how many there are.
pub fn offsets(
    c: u32,
    first: usize,
    link: &[u16],
    uppers: &[u32],
    lowers: &[u32],
    classes: &[u32],
    xs: &[i64],
    out: &mut [i64],
) -> usize
    requires rising { Rising link.now × (length uppers.now ≡ length link.now) × (length lowers.now ≡ length link.now) × (length link.now ≤ length out.old) }
    requires classes_len { (length classes.now ≡ length xs.now) × SizedTo 134217728 xs.now × Below (length xs.now) uppers.now × Below (length xs.now) lowers.now }
    ensures { (result ≡ length (chain link.now first))
        × (out.new ≡ over (lists.offsets c classes.now xs.now uppers.now lowers.now (chain link.now first)) out.old) }
{
    let mut s: usize = 0;
    let mut i = first;
    while i < link.len() {
        out[s] = offset(c, uppers[i] as usize, lowers[i] as usize, classes, xs);
        s += 1;
        i = usize::from(link[i]);
    }
    s
}
