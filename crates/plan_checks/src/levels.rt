// The level of every vertex, once for all segments, and its height, once for all lines and marks.
ghost use Rattle.std.specs.Prelude.{◌≡◌, ◌+◌, ◌≤◌, length};
ghost use Rattle.plan.specs.Limits.{max_levels, max_vertices};
ghost use Rattle.plan.specs.inner.Graph.{Levelled};
ghost use Rattle.plan_checks.specs.inner.Heights.{level_height, HeightsOf, AreLevels, Raised};

use plan::data::Plan;

// Writes the level of each vertex. A number past the last level's vertices gets one more than there are levels.
pub fn levels(sizes: &[u16], level: &mut [u16])
    requires { length sizes.now ≤ max_levels }
    ensures { Levelled sizes.now level.new }
{
    let mut from: usize = 0;
    for (i, size) in sizes.iter().enumerate() {
        let to = (from + usize::from(*size)).min(level.len());
        level[from..to].fill((i + 1) as u16);
        from = to;
    }
    level[from..].fill((sizes.len() + 1) as u16);
}

// "Level l has y = S × (l − 1) steps."
#[tactic(auto, unfolding(plan::specs::Plan::height_of))]
fn level_height(spacing: u32, l: u16) -> u64
    requires { (1 ≤ l) × (l ≤ max_levels + 1) }
    ensures { result ≡ level_height spacing l }
{
    u64::from(spacing) * u64::from(l - 1)
}

// Writes the height of each of these levels.
fn raise(spacing: u32, level: &[u16], out: &mut [u64])
    requires { AreLevels level.now × (length level.now ≡ length out.old) }
    ensures { Raised spacing level.now out.new }
{
    for (v, l) in level.iter().enumerate() {
        out[v] = level_height(spacing, *l);
    }
}

// Writes the height of each vertex, in steps below the top level.
pub fn heights(spacing: u32, sizes: &[u16], out: &mut [u64])
    requires { (length sizes.now ≤ max_levels) × (length out.old ≤ max_vertices) }
    ensures { HeightsOf spacing sizes.now out.new }
{
    let mut level = [0u16; Plan::MAX_VERTICES];
    let n = out.len();
    levels(sizes, &mut level[..n]);
    raise(spacing, &level[..n], out);
}
