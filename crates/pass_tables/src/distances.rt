// "from here every distance is doubled": of each vertex, the doubled distance to its right sibling.
ghost use Rattle.std.specs.Prelude.{◌≡◌, ◌++◌, ◌+◌, ◌-◌, ◌<◌, ◌≤◌, length, take};
ghost use Rattle.ints.specs.Lists.{sum};
ghost use Rattle.plan.specs.Plan.{PlanData, numbers, levels_from};
ghost use Rattle.passes.specs.State.{doubled_on, doubled_in};
ghost use Rattle.pass_tables.specs.inner.Tables.{right_distance};

// The doubled distance of v to its right sibling on a level that ends before `to`, 0 if it is the last there.
fn right_distance(gap: u32, v: usize, to: usize, halves: &[u16]) -> u64
    requires { (v < to) × (to ≤ length halves.now) }
    ensures { result ≡ right_distance gap halves.now v to }
{
    if v + 1 < to {
        return 2 * (u64::from(halves[v]) + u64::from(gap) + u64::from(halves[v + 1]));
    }
    0
}

// Of the level whose vertices stand from `from` up to `to`.
fn distances_on(gap: u32, from: usize, to: usize, halves: &[u16], apart: &mut [u64])
    requires { (from ≤ to) × (to ≤ length halves.now) × (length apart.old ≡ length halves.now) }
    ensures { (p : PlanData) → p.gap ≡ gap → p.halves ≡ halves.now → take to apart.new ≡ take from apart.old ++ doubled_on p (numbers from (to - from)) }
{
    for v in from..to {
        apart[v] = right_distance(gap, v, to, halves);
    }
}

// Of every level.
pub fn distances(gap: u32, sizes: &[u16], halves: &[u16], apart: &mut [u64])
    requires { (sum sizes.now ≡ length halves.now) × (length apart.old ≡ length halves.now) }
    ensures { (p : PlanData) → p.gap ≡ gap → p.halves ≡ halves.now → apart.new ≡ doubled_in p (levels_from 0 sizes.now) }
{
    let mut from: usize = 0;
    for size in sizes {
        let to = from + usize::from(*size);
        distances_on(gap, from, to, halves, apart);
        from = to;
    }
}
