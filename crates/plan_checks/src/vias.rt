// Check 5 of document 01, over slices that are as long as the data. It stops at the first via that fails.
ghost use Rattle.std.specs.Prelude.{◌≡◌, List, ℕ, ◌≤◌, length, replicate};
ghost use Rattle.plan.specs.Limits.{max_vertices, max_segments};
ghost use Rattle.plan.specs.Checks.{check5};
ghost use Rattle.plan.specs.inner.Graph.{graph_of, Below, Counted, Within};

use plan::data::Plan;
use plan::questions::is_through;

// Counts, for each vertex, how many of the ends it is.
fn count(ends: &[u32], counts: &mut [u16])
    requires { Below max_vertices ends.now × (length ends.now ≤ max_segments) × (counts.old ≡ replicate max_vertices 0) }
    ensures { Counted max_vertices ends.now counts.new }
{
    for v in ends {
        counts[*v as usize] += 1;
    }
}

// 5: every via has exactly one segment up and one down.
pub fn check_vias(vias: &[bool], uppers: &[u32], lowers: &[u32]) -> bool
    requires { Within vias.now uppers.now lowers.now }
    ensures { (sizes : List ℕ) → result ≡ check5 (graph_of sizes vias.now uppers.now lowers.now) }
{
    let mut up = [0u16; Plan::MAX_VERTICES];
    let mut down = [0u16; Plan::MAX_VERTICES];
    count(lowers, &mut up);
    count(uppers, &mut down);
    (0..vias.len()).all(|v| is_through(vias[v], up[v], down[v]))
}
